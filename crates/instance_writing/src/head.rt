//! What stands before the members of a slice.

ghost use Rattle.std.specs.Prelude.{◌≡◌, ◌+◌, ◌<◌, ◌≤◌, ◌++◌, ◌∷◌, OnOk, OnErr};
ghost use Rattle.ice_prims.specs.Bytes.{size_bytes, text_bytes};
ghost use Rattle.ice_types.specs.declared.schema.TheConstants.{MOST_NUMBER};
ghost use Rattle.ice_encoding.specs.Flags.{as_number, no_id};
ghost use Rattle.ice_encoding.specs.CanonicalGraph.{flags_byte};
ghost use Rattle.value_writing.specs.WritingMembers.{WritesPiece};
ghost use Rattle.value_parts.specs.SliceIds.{id_of};
ghost use Rattle.instance_writing.specs.Ids.{IsTold};
ghost use Rattle.instance_writing.specs.Sorts.{head_of, text_head};

use crate::pen::Pen;
use ice_prims::{put_byte, put_size, put_str};
use ice_types::MOST_NUMBER;
use std::alloc::AllocError;
use value_parts::{SliceId, SlicedType};

/// A type id that stands as a text, in the flags.
const AS_TEXT: u8 = 1;

/// One that stands as an index.
const AS_INDEX: u8 = 2;

/// A compact id, which stands as a size.
const AS_NUMBER: u8 = 3;

/// What the flags of a slice say beside how its type id stands.
#[derive(Clone, Copy)]
pub(crate) struct Flags {
    pub has_optional: bool,
    pub has_table: bool,
    pub has_size: bool,
    pub is_last: bool,
}

impl Flags {
    /// The byte of these flags, where no type id stands.
    pub(crate) fn without_id(self) -> u8
        ensures byte { result ≡ flags_byte no_id self.has_optional self.has_table self.has_size self.is_last }
        ensures room { result + 3 < 256 }
    {
        let optional = if self.has_optional { 4 } else { 0 };
        let table = if self.has_table { 8 } else { 0 };
        let size = if self.has_size { 16 } else { 0 };
        let last = if self.is_last { 32 } else { 0 };
        optional + (table + (size + last))
    }
}

/// Puts the flags and the id of a slice. Out of memory leaves a part of it; so does a type id of more bytes than
/// the greatest int. (Ice manual, "Data Encoding for Class and Exception Types", "Compact Type IDs".)
pub(crate) fn put_head<'a>(
    sort: SlicedType,
    id: SliceId<'a>,
    flags: Flags,
    pen: &mut Pen<'a>,
    out: &mut Vec<u8>,
) -> Result<(), AllocError>
    requires told { IsTold sort id }
    ensures { WritesPiece
        (head_of sort (λ form. flags_byte form flags.has_optional flags.has_table flags.has_size flags.is_last)
        (id_of id.entry))
        result pen.old out.old.items pen.new out.new.items }
{
    match id {
        SliceId::Number(number) => put_number_head(number, flags, out),
        SliceId::Text(id) => match sort {
            SlicedType::Class => put_class_head(id, flags, pen, out),
            SlicedType::Exception => put_exception_head(id, flags, out),
        },
    }
}

/// Of an instance: the compact id as a size, of which no index is counted.
fn put_number_head(number: u32, flags: Flags, out: &mut Vec<u8>) -> Result<(), AllocError>
    requires { number ≤ MOST_NUMBER }
    ensures { OnOk result (out.new.items
        ≡ out.old.items ++
        (flags_byte as_number flags.has_optional flags.has_table flags.has_size flags.is_last ∷ size_bytes number)) }
{
    put_byte(out, AS_NUMBER + flags.without_id())?;
    put_size(out, number)
}

/// Of an instance: the type id as an index where it was written before, else as a text.
fn put_class_head<'a>(
    id: &'a str,
    flags: Flags,
    pen: &mut Pen<'a>,
    out: &mut Vec<u8>,
) -> Result<(), AllocError>
    ensures { WritesPiece
        (text_head (λ form. flags_byte form flags.has_optional flags.has_table flags.has_size flags.is_last) id.now)
        result pen.old out.old.items pen.new out.new.items }
{
    let others = flags.without_id();
    match pen.find(id) {
        Some(at) => {
            put_byte(out, AS_INDEX + others)?;
            put_size(out, at + 1)
        }
        None => {
            put_byte(out, AS_TEXT + others)?;
            put_text(out, id)?;
            pen.add(id)
        }
    }
}

/// Of an exception: the type id as a text, of which the flags tell nothing.
fn put_exception_head(id: &str, flags: Flags, out: &mut Vec<u8>) -> Result<(), AllocError>
    ensures { OnOk result (out.new.items
        ≡ out.old.items ++
        (flags_byte no_id flags.has_optional flags.has_table flags.has_size flags.is_last ∷ text_bytes id.now)) }
{
    put_byte(out, flags.without_id())?;
    put_text(out, id)
}

/// A type id as a text. One of more bytes than the greatest int is answered as want of memory.
fn put_text(out: &mut Vec<u8>, id: &str) -> Result<(), AllocError>
    ensures ok { OnOk result (out.new.items ≡ out.old.items ++ text_bytes id.now) }
    ensures err { OnErr result (out.new.items ≡ out.old.items) }
{
    if id.len() > MOST_NUMBER as usize {
        return Err(AllocError);
    }
    put_str(out, id)
}
