//! Instances and exceptions that are being written.

ghost use Rattle.std.specs.Prelude.{◌≡◌, ◌≤◌, false, [], length, OnOk, IfOk};
ghost use Rattle.ice_encoding.specs.Visiting.{most};
ghost use Rattle.ice_encoding.specs.Names.{slice_names};
ghost use Rattle.ice_encoding.specs.CanonicalGraph.{Pen};
ghost use Rattle.graph_arena.specs.Arena.{AreBelow};
ghost use Rattle.graph_arena.specs.Seen.{view_slice};
ghost use Rattle.value_parts.specs.Pauses.{NarrowsOnPause};
ghost use Rattle.value_writing.specs.Pauses.{GoesOnWriting};
ghost use Rattle.value_writing.specs.Putting.{InsideWritten, onto};
ghost use Rattle.value_parts.specs.SlicedType.{rows_of};
ghost use Rattle.instance_writing.specs.declared.open_slice.OpenSlice.TheVariants as opens;
ghost use Rattle.instance_writing.specs.Formats.{view_format};
ghost use Rattle.instance_writing.specs.Pens.{room};
ghost use Rattle.instance_writing.specs.Opened.{OpenFits, open_left, refer_to};
ghost use Rattle.instance_writing.specs.Opened as spec;
ghost use Rattle.instance_writing.specs.Remains.{BeginsNext, Fits, LessOnNext, instance_left, one_slice};
ghost use Rattle.instance_writing.specs.Writable.{SliceCanBeWritten};

use crate::compact::{open_members, put_plain_head};
use crate::encoder::Encoder;
use crate::format::Format;
use crate::open_slice::OpenSlice;
use crate::pen::Pen;
use crate::position::Position;
use crate::slice::{Desk, put_slice};
use graph_arena::Slice;
use std::alloc::AllocError;
use std::mem::size_of;
use value_parts::{Paused, SlicedType};

/// What is left of an instance, or of an exception, that has begun.
#[derive(Drop)]
pub(crate) struct Unfinished<'a> {
    /// The slice that has begun.
    current: OpenSlice<'a>,
    /// The slices behind that one.
    slices: &'a [Slice],
}

/// The stack has one for each instance that has begun.
const _: () = prove!(size_of::<Unfinished<'static>>() == 48);

impl<'a> Unfinished<'a> {
    /// Before the first of these slices.
    pub(crate) fn new(slices: &'a [Slice]) -> Unfinished<'a>
        ensures current { result.current ≡ opens.Nothing }
        ensures slices { result.slices.now ≡ slices.now }
    {
        Unfinished {
            current: OpenSlice::Nothing,
            slices,
        }
    }

    /// Writes on, up to the end or to the next instance that begins in this one. Out of memory may leave a
    /// part of what was to be written; so may a slice that is too large.
    /// (Ice manual, "Data Encoding for Class and Exception Types".)
    pub(crate) fn go(
        &mut self,
        by: &Encoder<'a>,
        sort: SlicedType,
        pen: &mut Pen<'a>,
        desk: &mut Desk,
        out: &mut Vec<u8>,
    ) -> Result<Paused<()>, AllocError>
        requires fits { Fits (rows_of sort by.now.schema.now) desk.old.table.count self.old out.old.items }
        requires few { desk.old.table.count ≤ most }
        requires empty { desk.old.table.names ≡ [] }
        ensures goes { (inside : InsideWritten Pen)
            → GoesOnWriting inside
            (instance_left sort by.now.schema.now (view_format by.now.format) inside self.new) result
            (instance_left sort by.now.schema.now (view_format by.now.format) inside self.old
            (pen.old, out.old.items)) (pen.new, out.new.items) }
        ensures fits { OnOk result (Fits (rows_of sort by.now.schema.now) desk.old.table.count self.new out.new.items) }
        ensures room { NarrowsOnPause result (room pen.old) (room pen.new) }
        ensures longer { OnOk result (length out.old.items ≤ length out.new.items) }
        ensures desk { OnOk result (desk.new.table ≡ desk.old.table) }
    {
        loop {
            match self.current.go(by.alloc, by.schema, pen, out)? {
                Paused::Done(()) => {}
                Paused::Begins(name) => return Ok(Paused::Begins(name)),
            }
            if !self.begin_next(by, sort, pen, desk, out)? {
                return Ok(Paused::Done(()));
            }
        }
    }

    /// Begins the next slice. False where there is none.
    fn begin_next(
        &mut self,
        by: &Encoder<'a>,
        sort: SlicedType,
        pen: &mut Pen<'a>,
        desk: &mut Desk,
        out: &mut Vec<u8>,
    ) -> Result<bool, AllocError>
        requires fits { Fits (rows_of sort by.now.schema.now) desk.old.table.count self.old out.old.items }
        requires empty { desk.old.table.names ≡ [] }
        ensures writes { (inside : InsideWritten Pen)
            → BeginsNext sort by.now.schema.now (view_format by.now.format) inside result self.old self.new
            (pen.old, out.old.items) (pen.new, out.new.items) }
        ensures fits { OnOk result (Fits (rows_of sort by.now.schema.now) desk.old.table.count self.new out.new.items) }
        ensures less { LessOnNext result (length self.old.slices.now) (length self.new.slices.now) }
        ensures desk { OnOk result (desk.new.table ≡ desk.old.table) }
        ensures begun { OnOk result (pen.new.begun ≡ pen.old.begun) }
        ensures longer { OnOk result (length out.old.items ≤ length out.new.items) }
    {
        match self.slices.split_first() {
            None => Ok(false),
            Some((slice, others)) => {
                let is_first = self.current.is_first();
                let is_last = others.is_empty();
                let position = Position { is_first, is_last };
                self.current = begin_slice(by, sort, slice, position, pen, desk, out)?;
                self.slices = others;
                Ok(true)
            }
        }
    }
}

/// Writes a slice in the format, up to the entries of its table or to its members.
fn begin_slice<'a>(
    by: &Encoder<'a>,
    sort: SlicedType,
    slice: &'a Slice,
    position: Position,
    pen: &mut Pen<'a>,
    desk: &mut Desk,
    out: &mut Vec<u8>,
) -> Result<OpenSlice<'a>, AllocError>
    requires names { AreBelow desk.old.table.count (slice_names (view_slice slice.now)) }
    requires fits { SliceCanBeWritten (rows_of sort by.now.schema.now) (view_slice slice.now) }
    requires empty { desk.old.table.names ≡ [] }
    ensures writes { (inside : InsideWritten Pen)
        → IfOk result
        (λ begun. onto
        (one_slice sort by.now.schema.now (refer_to inside)
        (view_format by.now.format) position.is_first position.is_last (view_slice slice.now))
        (pen.old, out.old.items) ≡ open_left by.now.schema.now inside begun (pen.new, out.new.items)) }
    ensures fits { IfOk result (λ begun. OpenFits desk.old.table.count begun out.new.items) }
    ensures first { IfOk result (λ begun. spec.is_first begun ≡ false) }
    ensures desk { OnOk result (desk.new.table ≡ desk.old.table) }
    ensures begun { OnOk result (pen.new.begun ≡ pen.old.begun) }
    ensures longer { OnOk result (length out.old.items ≤ length out.new.items) }
{
    match by.format {
        Format::Sliced => put_slice(by, sort, slice, position.is_last, pen, desk, out),
        Format::Compact => {
            put_plain_head(by, sort, slice, position, pen, out)?;
            open_members(by, sort, slice)
        }
    }
}
