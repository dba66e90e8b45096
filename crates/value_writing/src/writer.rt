//! The bytes of values, in pieces.

ghost use Rattle.std.specs.Prelude.{◌≡◌, ◌∷◌, [], ◌++◌, MatchOption, OnOk, IfOk, ◌+◌};
ghost use Rattle.ice_prims.specs.Bytes.{Grows};
ghost use Rattle.ice_encoding.specs.Canonical.{HasSizes};
ghost use Rattle.ice_encoding.specs.Tree.{none, tree};
ghost use Rattle.ice_encoding.specs.Writing.{written};
ghost use Rattle.ice_encoding.specs.Pausing.{written_in_place};
ghost use Rattle.graph_arena.specs.View.{view, view_all};
ghost use Rattle.value_parts.specs.Pauses.{NarrowsOnPause, NarrowsOnStep, LessOnStep};
ghost use Rattle.value_writing.specs.Pauses.{GoesOnWriting, StepsWriting};
ghost use Rattle.value_writing.specs.Putting.{InsideWritten, Values, all_fit, left_written, lists, onto, tree_size};
ghost use Rattle.value_writing.specs.Putting.{waiting, work_left};

use crate::byte_sequence::put_byte_sequence;
use crate::leaf::put_leaf;
use crate::put_port::PutPort;
use graph_arena::Value;
use ice_prims::put_size;
use ice_types::List;
use std::alloc::{AllocError, Global};
use value_parts::{Paused, Step};

/// What is left of a list of values or of pairs, or one value.
#[derive(Clone, Copy)]
pub enum Level<'a> {
    Value(&'a Value),
    Values(&'a [Value]),
    Pairs(&'a [(Value, Value)]),
}

/// Values that are being written.
#[derive(Drop)]
pub struct ValueWriter<'a> {
    /// The values that are left at each level, the innermost level last.
    levels: List<Level<'a>>,
}

impl<'a> ValueWriter<'a> {
    /// Before the first byte of these values, one after the other.
    pub fn new(alloc: Global, values: &'a [Value]) -> Result<ValueWriter<'a>, AllocError>
        ensures { IfOk result (λ writer. lists writer ≡ Values (view_all values.now) ∷ []) }
    {
        ValueWriter::at(alloc, Level::Values(values))
    }

    /// Before the first byte of one value.
    pub(crate) fn of(alloc: Global, value: &'a Value) -> Result<ValueWriter<'a>, AllocError>
        ensures { IfOk result (λ writer. lists writer ≡ Values (tree (view value.now) none) ∷ []) }
    {
        ValueWriter::at(alloc, Level::Value(value))
    }

    fn at(alloc: Global, level: Level<'a>) -> Result<ValueWriter<'a>, AllocError>
        ensures { IfOk result (λ writer. lists writer ≡ waiting level.entry ∷ []) }
    {
        let mut levels = List::new(alloc);
        levels.push(level)?;
        Ok(ValueWriter { levels })
    }

    /// Writes on, up to the end or to the next reference at which an instance begins. Out of memory may
    /// leave a part of what was to be written at the end of the output.
    /// (Ice manual, "Data Encoding".)
    pub fn go<P: PutPort>(
        &mut self,
        out: &mut Vec<u8>,
        port: &mut P,
    ) -> Result<Paused<()>, AllocError>
        requires { all_fit (lists self.old) }
        ensures goes { (inside : InsideWritten P)
            → GoesOnWriting inside (onto (left_written P.put inside (lists self.new))) result
            (onto (left_written P.put inside (lists self.old)) (port.old, out.old.items)) (port.new, out.new.items) }
        ensures fits { OnOk result (all_fit (lists self.new)) }
        ensures room { NarrowsOnPause result (P.room port.old) (P.room port.new) }
        ensures grows { Grows out.old.items out.new.items }
    {
        loop {
            match self.step(out, port)? {
                Step::On => {}
                Step::Done(()) => return Ok(Paused::Done(())),
                Step::Begins(name) => return Ok(Paused::Begins(name)),
            }
        }
    }

    /// Writes the next value, or as much of it as stands before its parts.
    fn step<P: PutPort>(&mut self, out: &mut Vec<u8>, port: &mut P) -> Result<Step<()>, AllocError>
        requires { all_fit (lists self.old) }
        ensures steps { (inside : InsideWritten P)
            → StepsWriting inside (onto (left_written P.put inside (lists self.new))) result
            (onto (left_written P.put inside (lists self.old)) (port.old, out.old.items)) (port.new, out.new.items) }
        ensures fits { OnOk result (all_fit (lists self.new)) }
        ensures room { NarrowsOnStep result (P.room port.old) (P.room port.new) }
        ensures less { LessOnStep result (work_left (lists self.old)) (work_left (lists self.new)) }
        ensures grows { Grows out.old.items out.new.items }
    {
        match self.take_level() {
            None => Ok(Step::Done(())),
            Some(Level::Value(value)) => self.put(value, out, port),
            Some(Level::Values(values)) => match values.split_first() {
                None => Ok(Step::On),
                Some((value, others)) => {
                    self.add_level(Level::Values(others))?;
                    self.put(value, out, port)
                }
            },
            Some(Level::Pairs(pairs)) => match pairs.split_first() {
                None => Ok(Step::On),
                Some((pair, others)) => {
                    self.add_level(Level::Pairs(others))?;
                    self.add_level(Level::Value(&pair.1))?;
                    self.put(&pair.0, out, port)
                }
            },
        }
    }

    /// Takes the innermost level off.
    fn take_level(&mut self) -> Option<Level<'a>>
        ensures { MatchOption result ((lists self.old ≡ [])
            × (lists self.new ≡ [])) (λ level. lists self.old ≡ lists self.new ++ waiting level ∷ []) }
    {
        self.levels.pop()
    }

    /// Puts an innermost level on.
    fn add_level(&mut self, level: Level<'a>) -> Result<(), AllocError>
        ensures { OnOk result (lists self.new ≡ lists self.old ++ waiting level.entry ∷ []) }
    {
        self.levels.push(level)?;
        Ok(())
    }

    /// Writes a value, or what stands before its parts.
    fn put<P: PutPort>(
        &mut self,
        value: &'a Value,
        out: &mut Vec<u8>,
        port: &mut P,
    ) -> Result<Step<()>, AllocError>
        requires fits { all_fit (lists self.old) }
        requires value_fits { HasSizes (view value.now) }
        ensures steps { (inside : InsideWritten P)
            → StepsWriting inside (onto (left_written P.put inside (lists self.new))) result
            (onto (left_written P.put inside (lists self.old))
            (onto (written (written_in_place P.put inside) (view value.now)) (port.old, out.old.items)))
            (port.new, out.new.items) }
        ensures fits { OnOk result (all_fit (lists self.new)) }
        ensures room { NarrowsOnStep result (P.room port.old) (P.room port.new) }
        ensures less { LessOnStep result (tree_size (view value.now) + work_left (lists self.old))
            (work_left (lists self.new)) }
        ensures grows { Grows out.old.items out.new.items }
    {
        match value {
            Value::Seq(items) => {
                put_size(out, items.len() as u32)?;
                self.add_level(Level::Values(items.as_slice()))?;
                Ok(Step::On)
            }
            Value::Bytes(bytes) => {
                put_byte_sequence(bytes, out)?;
                Ok(Step::On)
            }
            Value::Pairs(pairs) => {
                put_size(out, pairs.len() as u32)?;
                self.add_level(Level::Pairs(pairs.as_slice()))?;
                Ok(Step::On)
            }
            Value::Members(items) => {
                self.add_level(Level::Values(items.as_slice()))?;
                Ok(Step::On)
            }
            Value::Reference(name) => match port.put_ref(out, *name)? {
                Some(begun) => Ok(Step::Begins(begun)),
                None => Ok(Step::On),
            },
            Value::Bool(_)
            | Value::Byte(_)
            | Value::Short(_)
            | Value::Int(_)
            | Value::Long(_)
            | Value::Text(_)
            | Value::Enum(_)
            | Value::Proxy(_) => {
                put_leaf(value, out)?;
                Ok(Step::On)
            }
        }
    }
}
