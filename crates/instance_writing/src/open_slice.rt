//! What is left of a slice that has begun.

ghost use Rattle.std.specs.Prelude.{◌≡◌, ◌∷◌, ◌≤◌, ℕ, [], length, MatchOption, OnOk, slice_get};
ghost use Rattle.ice_types.specs.Tables.{Tables};
ghost use Rattle.ice_encoding.specs.Visiting.{most};
ghost use Rattle.ice_encoding.specs.CanonicalGraph.{Pen};
ghost use Rattle.value_parts.specs.Pauses.{NarrowsOnPause};
ghost use Rattle.value_writing.specs.Pauses.{GoesOnWriting};
ghost use Rattle.value_writing.specs.Putting.{InsideWritten};
ghost use Rattle.value_writing.specs.WritingMembers.{RemainingFits, remaining};
ghost use Rattle.instance_writing.specs.Pens.{room};
ghost use Rattle.instance_writing.specs.Opened.{IsTabled, OpenFits, entries_in, members_of, open_left};
ghost use Rattle.instance_writing.specs.Opened as spec;

use crate::pen::Pen;
use ice_types::{List, Member, Schema};
use std::alloc::{AllocError, Global};
use value_parts::Paused;
use value_writing::{MembersWriter, PutPort};

/// Members of a known class that are being written with references in place.
#[derive(Drop)]
pub(crate) struct OpenMembers<'a> {
    pub writer: MembersWriter<'a>,
    /// The members that the class declares.
    pub own: &'a [Member],
}

/// What is left of a slice that has begun.
#[derive(Drop)]
pub(crate) enum OpenSlice<'a> {
    /// No slice has begun.
    Nothing,
    /// In sliced format, of a known class: the names that were found in its members, and the place of the
    /// one that is the next entry.
    Found { next: u32, names: List<u32> },
    /// In sliced format, of a class that was not known: the names that are still entries, not copied.
    Lent(&'a [u32]),
    /// In compact format. They take more room than the others.
    Members(Box<OpenMembers<'a>>),
}

impl<'a> OpenMembers<'a> {
    /// Writes on, up to the end or to the next reference at which an instance begins.
    fn go(
        &mut self,
        alloc: Global,
        schema: &Schema,
        pen: &mut Pen<'a>,
        out: &mut Vec<u8>,
    ) -> Result<Paused<()>, AllocError>
        requires { RemainingFits (remaining self.old.writer) out.old.items }
        ensures goes { (inside : InsideWritten Pen)
            → GoesOnWriting inside (members_of schema.now inside self.new) result
            (members_of schema.now inside self.old (pen.old, out.old.items)) (pen.new, out.new.items) }
        ensures fits { OnOk result (RemainingFits (remaining self.new.writer) out.new.items) }
        ensures room { NarrowsOnPause result (room pen.old) (room pen.new) }
        ensures longer { length out.old.items ≤ length out.new.items }
    {
        self.writer.go(alloc, schema, self.own, out, pen)
    }
}

impl<'a> OpenSlice<'a> {
    /// Whether no slice has begun.
    pub(crate) fn is_first(&self) -> bool
        ensures { result ≡ spec.is_first self.now }
    {
        match self {
            OpenSlice::Nothing => true,
            _ => false,
        }
    }

    /// Writes on, up to the end of the slice or to the next instance that begins in it. Out of memory may
    /// leave a part of what was to be written.
    /// (Ice manual, "Data Encoding for Class and Exception Types".)
    pub(crate) fn go(
        &mut self,
        alloc: Global,
        schema: &Schema,
        pen: &mut Pen<'a>,
        out: &mut Vec<u8>,
    ) -> Result<Paused<()>, AllocError>
        requires { OpenFits most self.old out.old.items }
        ensures goes { (inside : InsideWritten Pen)
            → GoesOnWriting inside (open_left schema.now inside self.new) result
            (open_left schema.now inside self.old (pen.old, out.old.items)) (pen.new, out.new.items) }
        ensures fits { OnOk result ((count : ℕ) → OpenFits count self.old out.old.items
            → OpenFits count self.new out.new.items) }
        ensures first { OnOk result (spec.is_first self.new ≡ spec.is_first self.old) }
        ensures room { NarrowsOnPause result (room pen.old) (room pen.new) }
        ensures longer { OnOk result (length out.old.items ≤ length out.new.items) }
    {
        match self {
            OpenSlice::Members(members) => members.go(alloc, schema, pen, out),
            OpenSlice::Nothing | OpenSlice::Found { .. } | OpenSlice::Lent(_) => self.put_entries(
                pen, out,
            ),
        }
    }

    /// Writes entries of its table, up to the last or to one at which an instance begins.
    fn put_entries(
        &mut self,
        pen: &mut Pen<'a>,
        out: &mut Vec<u8>,
    ) -> Result<Paused<()>, AllocError>
        requires tabled { IsTabled self.old }
        requires fits { OpenFits most self.old out.old.items }
        ensures goes { (t : Tables) (inside : InsideWritten Pen)
            → GoesOnWriting inside (open_left t inside self.new) result
            (open_left t inside self.old (pen.old, out.old.items)) (pen.new, out.new.items) }
        ensures fits { OnOk result ((count : ℕ) → OpenFits count self.old out.old.items
            → OpenFits count self.new out.new.items) }
        ensures first { OnOk result (spec.is_first self.new ≡ spec.is_first self.old) }
        ensures room { NarrowsOnPause result (room pen.old) (room pen.new) }
        ensures longer { OnOk result (length out.old.items ≤ length out.new.items) }
    {
        while let Some(name) = self.take_entry() {
            if let Some(begun) = pen.put_ref(out, Some(name))? {
                return Ok(Paused::Begins(begun));
            }
        }
        Ok(Paused::Done(()))
    }

    /// Takes the next entry off.
    fn take_entry(&mut self) -> Option<u32>
        requires { IsTabled self.old }
        ensures entries { MatchOption result ((entries_in self.old ≡ [])
            × (self.new ≡ self.old)) (λ name. entries_in self.old ≡ name ∷ entries_in self.new) }
        ensures tabled { IsTabled self.new }
        ensures first { spec.is_first self.new ≡ spec.is_first self.old }
    {
        match self {
            OpenSlice::Found { next, names } => {
                let name = name_at(names.as_slice(), *next)?;
                *next += 1;
                Some(name)
            }
            OpenSlice::Lent(names) => match names.split_first() {
                Some((first, others)) => {
                    *names = others;
                    Some(*first)
                }
                None => None,
            },
            OpenSlice::Nothing | OpenSlice::Members(_) => None,
        }
    }
}

/// The entry at a place.
fn name_at(entries: &[u32], at: u32) -> Option<u32>
    ensures { result ≡ slice_get entries.now at }
{
    entries.get(at as usize).copied()
}
