//! Where reading stands in the slices of an instance, and how a slice begins.
//! (Ice manual, "Data Encoding for Class and Exception Types".)

ghost use Rattle.std.specs.Prelude.{◌≡◌, ◌<◌, ◌^◌, OnOk, Some};
ghost use Rattle.ice_encoding.specs.Flags.{flags_of};
ghost use Rattle.value_parts.specs.SliceIds.{id_of};
ghost use Rattle.slice_heads.specs.Seen.{view_before};
ghost use Rattle.instance_reading.specs.Slices.{BeginsSlice, OpensKnown, OpensSlice, stage_work};

use crate::sized::{OpenSlice, behind_base, open_sized, open_unknown};
use ice_prims::{Cursor, ReadFault};
use ice_types::Schema;
use ice_values::MembersReader;
use slice_heads::{Arena, Before, class_in, is_odd, optionals, take_flags, take_id, test_class};
use std::alloc::Global;
use value_parts::{SliceId, SlicedType};

/// A slice without a size, whose members are being read. References stand inline in them.
#[derive(Drop)]
pub(crate) struct CompactSlice<'a> {
    pub class: u32,
    /// What the next slice follows, None where this one is the last.
    pub next: Option<Before>,
    pub members: MembersReader<'a>,
}

/// Where reading stands in an instance.
#[derive(Drop)]
pub(crate) enum Stage<'a> {
    /// Before the flags of a slice.
    Next(Before),
    /// In the table of a slice with a size.
    Open(OpenSlice<'a>),
    /// In the members of a slice without one.
    Compact(Box<CompactSlice<'a>>),
    /// Behind the last slice.
    Over,
}

impl<'a> Stage<'a> {
    /// No table has more entries than a size can count.
    pub(crate) fn is_bounded(&self)
        ensures { stage_work self.now < 2 ^ 33 }
    {
        if let Stage::Open(slice) = self {
            is_within(slice.left);
        }
    }
}

/// A number of the type is below the type's end.
fn is_within(count: u32)
    ensures { count < 2 ^ 32 }
{
    let _ = count;
}

/// A slice begins: its flags and its type id, and then its size, its members or what is kept of it, and the
/// size of its table, or nothing where it has no size.
pub(crate) fn begin_slice<'a>(
    alloc: Global,
    sort: SlicedType,
    schema: &Schema,
    before: Before,
    cursor: &mut Cursor<'a>,
    arena: &mut Arena<'a>,
) -> Result<Stage<'a>, ReadFault>
    ensures slice { BeginsSlice sort schema.now (view_before before) result arena.old cursor.old arena.new cursor.new }
    ensures instances { OnOk result (arena.new.instances ≡ arena.old.instances) }
{
    let flags_place = cursor.place();
    let flags = match take_flags(sort, before, cursor) {
        Ok(flags) => flags,
        Err(fault) => return Err(ReadFault::Broken(fault)),
    };
    let id_place = cursor.place();
    let id = match take_id(sort, flags, cursor, arena) {
        Ok(id) => id,
        Err(fault) => return Err(fault),
    };
    let class = class_in(sort, schema, before, id);
    match test_class(sort, schema, before, flags, flags_place, id_place, class) {
        Ok(()) => open_slice(alloc, sort, schema, class, id, flags, cursor),
        Err(fault) => Err(ReadFault::Broken(fault)),
    }
}

/// The same behind the type id, of a class that passed the tests. One that is not known has a size.
fn open_slice<'a>(
    alloc: Global,
    sort: SlicedType,
    schema: &Schema,
    class: Option<u32>,
    id: SliceId<'a>,
    flags: u8,
    cursor: &mut Cursor<'a>,
) -> Result<Stage<'a>, ReadFault>
    ensures { OpensSlice sort schema.now (flags_of flags) class (id_of id.entry) result cursor.old cursor.new }
{
    match class {
        Some(class) => open_known(alloc, sort, schema, class, flags, cursor),
        None => match open_unknown(alloc, id, flags, cursor) {
            Ok(slice) => Ok(Stage::Open(slice)),
            Err(fault) => Err(ReadFault::Broken(fault)),
        },
    }
}

/// The same of a known class.
fn open_known<'a>(
    alloc: Global,
    sort: SlicedType,
    schema: &Schema,
    class: u32,
    flags: u8,
    cursor: &mut Cursor<'a>,
) -> Result<Stage<'a>, ReadFault>
    ensures { OpensKnown sort schema.now (flags_of flags) class result cursor.old cursor.new }
{
    if is_odd(flags / 16) {
        let slice = open_sized(alloc, sort, schema, class, flags, cursor)?;
        return Ok(Stage::Open(slice));
    }
    let flagged = is_odd(flags / 4);
    let slice = CompactSlice {
        class,
        next: behind_base(sort, schema, class, false),
        members: MembersReader::new(alloc, optionals(flagged)),
    };
    Ok(Stage::Compact(Box::new(alloc, slice)?))
}
