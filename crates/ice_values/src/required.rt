//! The required members, one after the other.

ghost use Rattle.std.specs.Prelude.{◌≡◌, ◌+◌, ◌<◌, ◌^◌, ◌++◌, ◌∷◌, [], IfOk, IfSome, OnOk};
ghost use Rattle.std.specs.Prelude.{option_copied, slice_get};
ghost use Rattle.ice_encoding.specs.Pausing.{Inside};
ghost use Rattle.graph_arena.specs.View.{view_all};
ghost use Rattle.ice_values.specs.Unread.{left_required, required_work};
ghost use Rattle.ice_values.specs.Advancing.{fresh_required};
ghost use Rattle.value_parts.specs.Pauses.{NarrowsOnPause, NarrowsOnStep, LessOnStep};
ghost use Rattle.ice_values.specs.Pauses.{EndsReading, GoesOnReading, StaysUnless, StepsReading};

use crate::reader::ValueReader;
use graph_arena::Value;
use ice_prims::{Cursor, ReadFault};
use ice_types::{List, Member, Schema};
use std::alloc::{AllocError, Global};
use std::mem;
use value_parts::{Paused, RefPort, Step};

/// For how many items a list has room once the first one is put into it.
const FIRST_ROOM: usize = 4;

/// Required members of which some are read.
#[derive(Drop)]
pub struct RequiredReader {
    /// The values of those that are read.
    pub done: List<Value>,
    /// The first member that has not begun.
    pub next: usize,
    /// The member that has begun and is not read whole.
    pub reader: Option<ValueReader>,
}

impl RequiredReader {
    /// Before the first byte. It takes no memory.
    pub(crate) fn new(alloc: Global) -> RequiredReader
        ensures { result ≡ fresh_required }
    {
        RequiredReader {
            done: List::new(alloc),
            next: 0,
            reader: None,
        }
    }

    /// Reads on, up to the last member's end or to the next reference at which an instance
    /// begins. Members with a tag are none of these.
    pub(crate) fn go<P: RefPort>(
        &mut self,
        alloc: Global,
        schema: &Schema,
        members: &[Member],
        cursor: &mut Cursor<'_>,
        port: &mut P,
    ) -> Result<Paused<()>, ReadFault>
        ensures goes { (inside : Inside P)
            → GoesOnReading inside (left_required P.take schema.now inside members.now self.new)
            (λ _. view_all self.new.done) result
            (left_required P.take schema.now inside members.now self.old port.old cursor.old) port.new cursor.new }
        ensures room { NarrowsOnPause result (P.room port.old) (P.room port.new) }
    {
        loop {
            match self.step(alloc, schema, members, cursor, port)? {
                Step::On => {}
                Step::Done(()) => return Ok(Paused::Done(())),
                Step::Begins(name) => return Ok(Paused::Begins(name)),
            }
        }
    }

    /// Reads on in the member that has begun, or begins the next one.
    fn step<P: RefPort>(
        &mut self,
        alloc: Global,
        schema: &Schema,
        members: &[Member],
        cursor: &mut Cursor<'_>,
        port: &mut P,
    ) -> Result<Step<()>, ReadFault>
        ensures advances { (inside : Inside P)
            → StepsReading inside (left_required P.take schema.now inside members.now self.new)
            (λ _. view_all self.new.done) result
            (left_required P.take schema.now inside members.now self.old port.old cursor.old) port.new cursor.new }
        ensures room { NarrowsOnStep result (P.room port.old) (P.room port.new) }
        ensures less { LessOnStep result (required_work members.now self.old) (required_work members.now self.new) }
    {
        match &mut self.reader {
            Some(reader) => match reader.go(alloc, schema, cursor, port)? {
                Paused::Done(value) => {
                    drop(self.reader.take());
                    push_value(alloc, &mut self.done, value, members.len())?;
                    Ok(Step::On)
                }
                Paused::Begins(name) => Ok(Step::Begins(name)),
            },
            None => match self.next_member(members) {
                Some(member) => {
                    self.next += 1;
                    if member.tag.is_none() {
                        drop(self.reader.replace(ValueReader::new(alloc, member.kind)));
                    }
                    Ok(Step::On)
                }
                None => Ok(Step::Done(())),
            },
        }
    }

    /// The values of all members, where nothing is left to read of the last one; else the reader is as it was.
    pub(crate) fn ended<P: RefPort>(
        &mut self,
        alloc: Global,
        schema: &Schema,
        members: &[Member],
        port: &P,
    ) -> Result<Option<List<Value>>, AllocError>
        ensures ends { IfOk result (λ values. (inside : Inside P)
            → EndsReading (left_required P.take schema.now inside members.now self.old) view_all values) }
        ensures stays { IfOk result (StaysUnless self.old self.new) }
    {
        let _ = schema;
        let _ = port;
        if self.next < members.len() {
            return Ok(None);
        }
        match &mut self.reader {
            Some(reader) => match reader.ended(alloc)? {
                Some(value) => Ok(Some(self.with_last(alloc, value, members.len())?)),
                None => Ok(None),
            },
            None => Ok(None),
        }
    }

    /// The values that are read, and behind them this one.
    fn with_last(
        &mut self,
        alloc: Global,
        value: Value,
        count: usize,
    ) -> Result<List<Value>, AllocError>
        ensures { IfOk result (λ values. values ≡ self.old.done ++ value ∷ []) }
    {
        push_value(alloc, &mut self.done, value, count)?;
        Ok(mem::replace(&mut self.done, List::new(alloc)))
    }

    /// The first member that has not begun.
    fn next_member<'m>(&self, members: &'m [Member]) -> Option<&'m Member>
        ensures next { option_copied result ≡ slice_get members.now self.now.next }
        ensures room { IfSome result (λ _. self.now.next + 1 < 2 ^ 64) }
    {
        if self.next >= members.len() {
            return None;
        }
        members.get(self.next)
    }
}

/// Puts a value behind those that are read, of so many members at most. The first one gets room for them all, or for
/// as many as a list has room for at first: most classes have few members.
fn push_value(
    alloc: Global,
    done: &mut List<Value>,
    value: Value,
    count: usize,
) -> Result<(), AllocError>
    ensures { OnOk result (done.new ≡ done.old ++ value ∷ []) }
{
    if done.is_empty() && count < FIRST_ROOM {
        match Vec::with_capacity(alloc, count) {
            Ok(room) => drop(mem::replace(done, List::from_vec(room))),
            Err(error) => {
                drop(value);
                return Err(error);
            }
        }
    }
    done.push(value)
}
