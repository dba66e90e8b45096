//! A class instance or an exception that has begun and is not read whole.

ghost use Rattle.std.specs.Prelude.{◌≡◌, ◌<◌, ◌+◌, ◌*◌, ◌^◌, ◌++◌, ◌∷◌, [], IfOk, OnOk};
ghost use Rattle.ice_encoding.specs.References.{resolved, with_met};
ghost use Rattle.graph_arena.specs.Seen.{view_slice};
ghost use Rattle.value_parts.specs.Pauses.{LessOnStep, NarrowsOnPause, NarrowsOnStep};
ghost use Rattle.slice_heads.specs.Seen.{view_next};
ghost use Rattle.instance_reading.specs.Slices.{opened, slice_with, uses_of, view_body};
ghost use Rattle.instance_reading.specs.Unfinished.{Completes, Keeps, Pauses, ReadsOn, StepsOn, begun, room, work_left};
ghost use Rattle.instance_reading.specs.declared.slice.Stage.TheVariants as stages;

use crate::sized::{Body, OpenSlice};
use crate::slice::{CompactSlice, Stage, begin_slice};
use graph_arena::{Slice, resolve_members};
use ice_prims::{Cursor, Kind, ReadFault};
use ice_types::{List, Schema};
use preserved::keep;
use slice_heads::{Arena, Before, is_over};
use std::alloc::{AllocError, Global};
use std::mem;
use value_parts::{Met, Paused, RefPort, SlicedType, Step};

/// An instance, or an exception, of which some slices are read.
#[derive(Drop)]
pub(crate) struct Unfinished<'a> {
    /// Of an instance. An exception has none.
    pub name: u32,
    /// How many slices may still begin: no more than there were bytes where the first one began.
    pub steps: usize,
    /// The slices that are read whole.
    pub slices: List<Slice>,
    pub stage: Stage<'a>,
}

impl<'a> Unfinished<'a> {
    /// The instance of this name begins here.
    pub(crate) fn new(alloc: Global, name: u32, cursor: &Cursor<'_>) -> Unfinished<'a>
        ensures { result ≡ begun name cursor.now }
    {
        Unfinished {
            name,
            steps: cursor.left(),
            slices: List::new(alloc),
            stage: Stage::Next(Before::First),
        }
    }

    /// Reads on, up to the last slice's end or to the next reference at which an instance begins.
    pub(crate) fn go(
        &mut self,
        alloc: Global,
        sort: SlicedType,
        schema: &Schema,
        cursor: &mut Cursor<'a>,
        arena: &mut Arena<'a>,
    ) -> Result<Paused<()>, ReadFault>
        ensures goes { ReadsOn sort schema.now self.old self.new result arena.old cursor.old arena.new cursor.new }
        ensures name { self.new.name ≡ self.old.name }
        ensures room { NarrowsOnPause result (room arena.old) (room arena.new) }
    {
        loop {
            match self.step(alloc, sort, schema, cursor, arena)? {
                Step::On => {}
                Step::Done(()) => return Ok(Paused::Done(())),
                Step::Begins(name) => return Ok(Paused::Begins(name)),
            }
        }
    }

    /// Begins the next slice, or reads on in the one that has begun.
    fn step(
        &mut self,
        alloc: Global,
        sort: SlicedType,
        schema: &Schema,
        cursor: &mut Cursor<'a>,
        arena: &mut Arena<'a>,
    ) -> Result<Step<()>, ReadFault>
        ensures advances { StepsOn sort schema.now self.old self.old.stage self.new result
            arena.old cursor.old arena.new cursor.new }
        ensures name { self.new.name ≡ self.old.name }
        ensures room { NarrowsOnStep result (room arena.old) (room arena.new) }
        ensures less { LessOnStep result (work_left self.old) (work_left self.new) }
    {
        match mem::replace(&mut self.stage, Stage::Next(Before::First)) {
            Stage::Next(before) => self.begin(alloc, sort, schema, before, cursor, arena),
            Stage::Open(slice) => {
                if slice.left > 0 {
                    self.read_entry(sort, schema, slice, cursor, arena)
                } else {
                    self.close(alloc, sort, schema, slice, cursor, arena)
                }
            }
            Stage::Compact(slice) => self.read_compact(alloc, sort, schema, slice, cursor, arena),
            Stage::Over => Ok(Step::Done(())),
        }
    }

    /// Begins the next slice.
    fn begin(
        &mut self,
        alloc: Global,
        sort: SlicedType,
        schema: &Schema,
        before: Before,
        cursor: &mut Cursor<'a>,
        arena: &mut Arena<'a>,
    ) -> Result<Step<()>, ReadFault>
        ensures advances { StepsOn sort schema.now self.old
            (stages.Next before) self.new result arena.old cursor.old arena.new cursor.new }
        ensures name { self.new.name ≡ self.old.name }
        ensures room { NarrowsOnStep result (room arena.old) (room arena.new) }
        ensures less { LessOnStep result (self.old.steps * 2 ^ 33) (work_left self.new) }
    {
        if is_over(sort, before, cursor) {
            return Ok(Step::Done(()));
        }
        if self.steps == 0 {
            return Err(ReadFault::Broken(cursor.fault(Kind::Short)));
        }
        match begin_slice(alloc, sort, schema, before, cursor, arena) {
            Ok(stage) => {
                stage.is_bounded();
                self.steps -= 1;
                self.set_stage(stage);
                Ok(Step::On)
            }
            Err(fault) => Err(fault),
        }
    }

    /// Reads an entry of the table, which is not null.
    fn read_entry(
        &mut self,
        sort: SlicedType,
        schema: &Schema,
        slice: OpenSlice<'a>,
        cursor: &mut Cursor<'a>,
        arena: &mut Arena<'a>,
    ) -> Result<Step<()>, ReadFault>
        requires { 0 < slice.left }
        ensures advances { StepsOn sort schema.now self.old
            (stages.Open slice.entry) self.new result arena.old cursor.old arena.new cursor.new }
        ensures name { self.new.name ≡ self.old.name }
        ensures room { NarrowsOnStep result (room arena.old) (room arena.new) }
        ensures less { LessOnStep result (self.old.steps * 2 ^ 33 + (1 + slice.entry.left)) (work_left self.new) }
    {
        let _ = sort;
        let _ = schema;
        let no_such = cursor.fault(Kind::BadReference);
        match arena.take_ref(None, cursor) {
            Ok(Met::Known(Some(name))) => {
                self.keep_entry(slice, name)?;
                Ok(Step::On)
            }
            Ok(Met::Begins(name)) => {
                self.keep_entry(slice, name)?;
                Ok(Step::Begins(name))
            }
            Ok(Met::Known(None)) => {
                drop(slice);
                Err(ReadFault::Broken(no_such))
            }
            Err(fault) => {
                drop(slice);
                Err(fault)
            }
        }
    }

    /// The table has one entry more.
    fn keep_entry(&mut self, mut slice: OpenSlice<'a>, name: u32) -> Result<(), AllocError>
        requires { 0 < slice.left }
        ensures keeps { OnOk result (Keeps self.old self.new (opened slice.entry) name) }
        ensures name { self.new.name ≡ self.old.name }
    {
        match slice.table.push(name) {
            Ok(()) => {
                slice.left -= 1;
                self.set_stage(Stage::Open(slice));
                Ok(())
            }
            Err(error) => {
                drop(slice);
                Err(error)
            }
        }
    }

    /// The table is read, and so the slice is.
    fn close(
        &mut self,
        alloc: Global,
        sort: SlicedType,
        schema: &Schema,
        slice: OpenSlice<'a>,
        cursor: &Cursor<'_>,
        arena: &mut Arena<'_>,
    ) -> Result<Step<()>, ReadFault>
        requires { slice.left ≡ 0 }
        ensures advances { StepsOn sort schema.now self.old
            (stages.Open slice.entry) self.new result arena.old cursor.now arena.new cursor.now }
        ensures name { self.new.name ≡ self.old.name }
        ensures room { NarrowsOnStep result (room arena.old) (room arena.new) }
        ensures less { LessOnStep result (self.old.steps * 2 ^ 33 + 1) (work_left self.new) }
    {
        let _ = sort;
        let _ = schema;
        let _ = cursor;
        let read = closed(alloc, slice.body, slice.table, arena)?;
        self.complete(alloc, read, slice.next)?;
        Ok(Step::On)
    }

    /// Reads on in the members of a slice without a size.
    fn read_compact(
        &mut self,
        alloc: Global,
        sort: SlicedType,
        schema: &Schema,
        slice: Box<CompactSlice<'a>>,
        cursor: &mut Cursor<'a>,
        arena: &mut Arena<'a>,
    ) -> Result<Step<()>, ReadFault>
        ensures advances { StepsOn sort schema.now self.old
            (stages.Compact slice.entry) self.new result arena.old cursor.old arena.new cursor.new }
        ensures name { self.new.name ≡ self.old.name }
        ensures room { NarrowsOnStep result (room arena.old) (room arena.new) }
        ensures less { LessOnStep result (self.old.steps * 2 ^ 33 + 1) (work_left self.new) }
    {
        let mut slice = Box::into_inner(slice);
        let fields = sort.own_fields(schema, slice.class);
        match slice.members.go(alloc, schema, fields, cursor, arena) {
            Ok(Paused::Done(members)) => {
                let (class, next) = (slice.class, slice.next);
                drop(slice);
                self.complete(alloc, Slice::Known { class, members }, next)?;
                Ok(Step::On)
            }
            Ok(Paused::Begins(name)) => {
                self.pause(alloc, sort, schema, slice, arena)?;
                Ok(Step::Begins(name))
            }
            Err(fault) => {
                drop(slice);
                Err(fault)
            }
        }
    }

    /// An instance begins in the members of a slice without a size. Where nothing is left of them, the slice is
    /// read whole: so a chain, in which each instance is the last member of the one before, keeps no members open.
    fn pause(
        &mut self,
        alloc: Global,
        sort: SlicedType,
        schema: &Schema,
        mut slice: CompactSlice<'a>,
        arena: &Arena<'_>,
    ) -> Result<(), AllocError>
        ensures pauses { OnOk result (Pauses sort schema.now self.old self.new slice.entry) }
        ensures name { self.new.name ≡ self.old.name }
    {
        let fields = sort.own_fields(schema, slice.class);
        match slice.members.ended(alloc, schema, fields, arena)? {
            Some(members) => {
                let (class, next) = (slice.class, slice.next);
                drop(slice);
                self.complete(alloc, Slice::Known { class, members }, next)
            }
            None => {
                let slice = Box::new(alloc, slice)?;
                self.set_stage(Stage::Compact(slice));
                Ok(())
            }
        }
    }

    /// Reading stands at another stage. The one before is let go.
    fn set_stage(&mut self, stage: Stage<'a>)
        ensures { self.new ≡ record {
          name = self.old.name;
          steps = self.old.steps;
          slices = self.old.slices;
          stage = stage.entry;
        } }
    {
        drop(mem::replace(&mut self.stage, stage));
    }

    /// A slice is read whole, and the next one follows this, None behind the last.
    fn complete(
        &mut self,
        alloc: Global,
        slice: Slice,
        next: Option<Before>,
    ) -> Result<(), AllocError>
        ensures completes { OnOk result (Completes self.old slice (view_next next) self.new) }
        ensures name { self.new.name ≡ self.old.name }
        ensures work { OnOk result (work_left self.new ≡ self.old.steps * 2 ^ 33) }
    {
        push_slice(alloc, &mut self.slices, slice, next.is_none())?;
        match next {
            Some(before) => self.set_stage(Stage::Next(before)),
            None => self.set_stage(Stage::Over),
        }
        Ok(())
    }
}

/// Puts a slice behind those that are read. One that is the only one gets room for itself alone, since most
/// instances have a single slice. Out of memory leaves the slices as they were.
fn push_slice(
    alloc: Global,
    slices: &mut List<Slice>,
    slice: Slice,
    is_last: bool,
) -> Result<(), AllocError>
    ensures ok { OnOk result (slices.new ≡ slices.old ++ slice ∷ []) }
{
    if is_last && slices.is_empty() {
        match Vec::with_capacity(alloc, 1) {
            Ok(room) => drop(mem::replace(slices, List::from_vec(room))),
            Err(error) => {
                drop(slice);
                return Err(error);
            }
        }
    }
    slices.push(slice)
}

/// The slice of which this was read, with the names in its table. Those of its references are known now.
fn closed(
    alloc: Global,
    body: Body<'_>,
    table: List<u32>,
    arena: &mut Arena<'_>,
) -> Result<Slice, AllocError>
    ensures slice { IfOk result (λ slice. view_slice slice ≡ slice_with (view_body body.entry) table) }
    ensures met { OnOk result (arena.new ≡ with_met (resolved table (uses_of (view_body body.entry))) arena.old) }
{
    match body {
        Body::Members {
            class,
            mut members,
            uses,
        } => match arena.meet_all(uses.as_slice(), table.as_slice()) {
            Ok(()) => {
                resolve_members(&mut members, table.as_slice());
                Ok(Slice::Known { class, members })
            }
            Err(error) => {
                drop(members);
                Err(error)
            }
        },
        Body::Unknown { id, part } => keep(alloc, id.kept(alloc)?, &part, table),
    }
}
