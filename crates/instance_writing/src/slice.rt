//! A slice in sliced format, up to the entries of its table.

ghost use Rattle.std.specs.Prelude.{◌≡◌, ◌++◌, ◌≤◌, true, [], length, IfOk, OnOk};
ghost use Rattle.ice_encoding.specs.Classes.{own_members};
ghost use Rattle.ice_encoding.specs.Graph.{known};
ghost use Rattle.ice_encoding.specs.Names.{names_of, slice_names};
ghost use Rattle.ice_encoding.specs.Slices.{slice_size};
ghost use Rattle.ice_encoding.specs.Visiting.{most};
ghost use Rattle.ice_encoding.specs.CanonicalGraph.{is_there, sized_bytes, table_of};
ghost use Rattle.ice_encoding.specs.CanonicalGraph as spec;
ghost use Rattle.graph_arena.specs.Arena.{AreBelow};
ghost use Rattle.graph_arena.specs.Seen.{view_content, view_slice};
ghost use Rattle.value_writing.specs.Putting.{onto};
ghost use Rattle.value_writing.specs.WritingMembers.{ContentCanBeWritten};
ghost use Rattle.value_parts.specs.SlicedType.{rows_of};
ghost use Rattle.instance_writing.specs.Tabling.{HasPlaces, no_names};
ghost use Rattle.instance_writing.specs.Opened.{HasEntries};
ghost use Rattle.instance_writing.specs.Remains.{slice_front, table_size};
ghost use Rattle.instance_writing.specs.Writable.{SliceCanBeWritten};

use crate::encoder::Encoder;
use crate::head::{Flags, put_head};
use crate::open_slice::OpenSlice;
use crate::parts::has_optional;
use crate::pen::Pen;
use crate::table::Table;
use crate::written_id::written_id;
use graph_arena::{Members, Slice};
use ice_prims::put_size;
use ice_types::MOST_NUMBER;
use preserved::{put_slice_size, write_unknown};
use std::alloc::{AllocError, Global};
use value_parts::SlicedType;
use value_writing::{Ending, write_members};

/// Where the members of a slice are written first, since their size stands before them.
#[derive(Drop)]
pub(crate) struct Desk {
    /// Empty between slices.
    pub table: Table,
    pub members: Vec<u8>,
}

/// Puts a slice up to the entries of its table, and answers these. Out of memory may leave a part of it;
/// so may a slice of more bytes than an int can tell, or a table of more entries, which is answered as
/// that is. (Ice manual, "Data Encoding for Class and Exception Types".)
pub(crate) fn put_slice<'a>(
    by: &Encoder<'a>,
    sort: SlicedType,
    slice: &'a Slice,
    is_last: bool,
    pen: &mut Pen<'a>,
    desk: &mut Desk,
    out: &mut Vec<u8>,
) -> Result<OpenSlice<'a>, AllocError>
    requires names { AreBelow desk.old.table.count (slice_names (view_slice slice.now)) }
    requires fits { SliceCanBeWritten (rows_of sort by.now.schema.now) (view_slice slice.now) }
    requires empty { desk.old.table.names ≡ [] }
    ensures entries { IfOk result (λ begun. HasEntries (table_of (view_slice slice.now)) begun) }
    ensures writes { OnOk result ((pen.new, out.new.items)
        ≡ onto (slice_front sort by.now.schema.now is_last (view_slice slice.now)) (pen.old, out.old.items)) }
    ensures desk { OnOk result (desk.new.table ≡ desk.old.table) }
{
    match slice {
        Slice::Known { class, members } => {
            desk.put_members(by, sort, *class, members)?;
            let names = desk.table.take();
            let entries = names.as_slice();
            let flags = sized_flags(slice, entries, is_last);
            put_head(sort, written_id(by.schema, sort, slice), flags, pen, out)?;
            put_behind(desk.members.as_slice(), entries, out)?;
            Ok(OpenSlice::Found { next: 0, names })
        }
        Slice::Unknown(kept) => {
            let entries = kept.table.as_slice();
            let flags = sized_flags(slice, entries, is_last);
            put_head(sort, written_id(by.schema, sort, slice), flags, pen, out)?;
            write_unknown(out, slice)?;
            put_table_size(entries, out)?;
            Ok(OpenSlice::Lent(entries))
        }
    }
}

/// The flags of a slice with a size and with these entries in its table.
fn sized_flags(slice: &Slice, entries: &[u32], is_last: bool) -> Flags
    ensures { result
        ≡ record {
          has_optional = spec.has_optional
              (view_slice slice.now);
          has_table = is_there entries.now;
          has_size = true;
          is_last = is_last;
        } }
{
    Flags {
        has_optional: has_optional(slice),
        has_table: !entries.is_empty(),
        has_size: true,
        is_last,
    }
}

impl Desk {
    /// An empty desk, for names below the count.
    pub(crate) fn new(alloc: Global, count: u32) -> Result<Desk, AllocError>
        requires { count ≤ most }
        ensures { IfOk result (λ desk. desk.table ≡ no_names count) }
    {
        Ok(Desk {
            table: Table::new(alloc, count)?,
            members: Vec::new(alloc),
        })
    }

    /// Puts the members of a slice of the class, or of the exception, on the desk, with its table.
    fn put_members(
        &mut self,
        by: &Encoder,
        sort: SlicedType,
        class: u32,
        members: &Members,
    ) -> Result<(), AllocError>
        requires names { AreBelow self.old.table.count (names_of (view_content members.now)) }
        requires fits { ContentCanBeWritten (view_content members.now) }
        requires places { HasPlaces (own_members (rows_of sort by.now.schema.now) class).optional
            (view_content members.now) }
        requires empty { self.old.table ≡ no_names self.old.table.count }
        ensures members { OnOk result (self.new.members.items
            ≡ sized_bytes (rows_of sort by.now.schema.now) (known class (view_content members.now))) }
        ensures table { OnOk result (self.new.table
            ≡ record { count = self.old.table.count; names = table_of (known class (view_content members.now)) }) }
    {
        self.members.clear();
        let own = sort.own_members(by.schema, class);
        write_members(
            by.alloc,
            by.schema,
            own,
            members,
            Ending::Marked,
            &mut self.members,
            &mut self.table,
        )
    }
}

/// The members behind their size, and the size of the table.
fn put_behind(members: &[u8], entries: &[u32], out: &mut Vec<u8>) -> Result<(), AllocError>
    ensures { OnOk result (out.new.items
        ≡ out.old.items ++ ((slice_size.put (length members.now) ++ members.now) ++ table_size entries.now)) }
{
    put_slice_size(out, members.len())?;
    out.extend_from_slice(members)?;
    put_table_size(entries, out)
}

/// The size of a table, nothing where it has no entry. More entries than a size can tell are answered as
/// want of memory.
fn put_table_size(entries: &[u32], out: &mut Vec<u8>) -> Result<(), AllocError>
    ensures { OnOk result (out.new.items ≡ out.old.items ++ table_size entries.now) }
{
    let count = entries.len();
    if count == 0 {
        return Ok(());
    }
    if count > MOST_NUMBER as usize {
        return Err(AllocError);
    }
    put_size(out, count as u32)
}
