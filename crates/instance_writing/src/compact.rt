//! A slice in compact format, up to its members.

ghost use Rattle.std.specs.Prelude.{◌≡◌, false, ℕ, List, IfOk};
ghost use Rattle.ice_encoding.specs.CanonicalGraph.{Pen, members_bytes};
ghost use Rattle.graph_arena.specs.Seen.{view_slice};
ghost use Rattle.value_writing.specs.Putting.{InsideWritten, Written, onto};
ghost use Rattle.value_writing.specs.WritingMembers.{WritesPiece};
ghost use Rattle.value_parts.specs.SlicedType.{rows_of};
ghost use Rattle.instance_writing.specs.Opened.{OpenFits, open_left, refer_to};
ghost use Rattle.instance_writing.specs.Opened as spec;
ghost use Rattle.instance_writing.specs.Sorts.{has_plain_id, plain_head};
ghost use Rattle.instance_writing.specs.Writable.{SliceCanBeWritten};

use crate::encoder::Encoder;
use crate::head::{Flags, put_head};
use crate::open_slice::{OpenMembers, OpenSlice};
use crate::parts::has_optional;
use crate::pen::Pen;
use crate::position::Position;
use crate::written_id::written_id;
use graph_arena::Slice;
use ice_prims::put_byte;
use std::alloc::AllocError;
use value_parts::SlicedType;
use value_writing::{Ending, MembersWriter};

/// Puts the flags of a slice without a size, and its type id where it is the first of an instance, or one of
/// an exception. Out of memory may leave a part of it.
/// (Ice manual, "Data Encoding for Class and Exception Types".)
pub(crate) fn put_plain_head<'a>(
    by: &Encoder<'a>,
    sort: SlicedType,
    slice: &'a Slice,
    position: Position,
    pen: &mut Pen<'a>,
    out: &mut Vec<u8>,
) -> Result<(), AllocError>
    ensures { WritesPiece
        (plain_head sort by.now.schema.now position.is_first position.is_last
        (view_slice slice.now)) result pen.old out.old.items pen.new out.new.items }
{
    let flags = Flags {
        has_optional: has_optional(slice),
        has_table: false,
        has_size: false,
        is_last: position.is_last,
    };
    if has_id(sort, position.is_first) {
        return put_head(sort, written_id(by.schema, sort, slice), flags, pen, out);
    }
    put_byte(out, flags.without_id())
}

/// Whether the type id stands: in the first slice of an instance, and in each of an exception.
fn has_id(sort: SlicedType, is_first: bool) -> bool
    ensures { result ≡ has_plain_id sort is_first }
{
    match sort {
        SlicedType::Class => is_first,
        SlicedType::Exception => true,
    }
}

/// The members of a slice whose head has been put, with references in place. What was kept of a class that
/// is not known cannot stand in this format: nothing is written of it.
pub(crate) fn open_members<'a>(
    by: &Encoder<'a>,
    sort: SlicedType,
    slice: &'a Slice,
) -> Result<OpenSlice<'a>, AllocError>
    requires { SliceCanBeWritten (rows_of sort by.now.schema.now) (view_slice slice.now) }
    ensures left { (inside : InsideWritten Pen) (w : Written Pen)
        → IfOk result (λ begun. open_left by.now.schema.now inside begun w
        ≡ onto (members_bytes (rows_of sort by.now.schema.now) (refer_to inside) (view_slice slice.now)) w) }
    ensures fits { (count : ℕ) (out : List ℕ) → IfOk result (λ begun. OpenFits count begun out) }
    ensures begun { IfOk result (λ begun. spec.is_first begun ≡ false) }
{
    match slice {
        Slice::Known { class, members } => {
            let writer = MembersWriter::new(by.alloc, members, Ending::Marked)?;
            let own = sort.own_members(by.schema, *class);
            Ok(OpenSlice::Members(Box::new(by.alloc, OpenMembers { writer, own })?))
        }
        Slice::Unknown(_) => Ok(OpenSlice::Lent(&[])),
    }
}
