//! A value from bytes, in pieces.

ghost use Rattle.std.specs.Prelude.{◌≡◌, [], ◌∷◌, ◌++◌, ◌+◌, ◌<◌, suc, IfOk, OnOk};
ghost use Rattle.ice_types.specs.declared.kind.TypeRef.TheVariants as kinds;
ghost use Rattle.ice_encoding.specs.Pausing.{Inside};
ghost use Rattle.graph_arena.specs.View.{view};
ghost use Rattle.ice_values.specs.Leaves.{IsLeaf, HasParts};
ghost use Rattle.ice_values.specs.ByteSequence.{HasByteItems};
ghost use Rattle.ice_values.specs.Cost.{cost, weight};
ghost use Rattle.ice_values.specs.Frames.{opened, whole};
ghost use Rattle.ice_values.specs.Going.{fresh, left_of, Closes, Ends, Gives, StepsFrom};
ghost use Rattle.ice_values.specs.Going.{part_of, part_within, reference_to};
ghost use Rattle.value_parts.specs.Pauses.{NarrowsOnPause, NarrowsOnStep, LessOnStep};
ghost use Rattle.ice_values.specs.Pauses.{GoesOnReading, StepsReading};

use crate::begun::begun;
use crate::byte_sequence::{has_byte_items, take_byte_sequence};
use crate::frame::{Assembly, Each, Frame, Parts};
use crate::leaf::take_leaf;
use crate::left::Left;
use graph_arena::Value;
use ice_prims::{Cursor, Kind, ReadFault};
use ice_types::{List, MOST_DEPTH, Schema, TypeRef};
use std::alloc::{AllocError, Global};
use std::mem;
use value_parts::{Met, Paused, RefPort, Step};

/// A value that is being read. It takes memory for what is read, and never for what a size merely claims.
#[derive(Drop)]
pub struct ValueReader {
    /// The innermost value that has begun.
    top: Frame,
    /// Those around it, the outermost first.
    below: List<Frame>,
}

impl ValueReader {
    /// Before the first byte of a value of the type. It takes no memory.
    pub fn new(alloc: Global, kind: TypeRef) -> ValueReader
        ensures { result ≡ fresh kind }
    {
        ValueReader {
            top: Frame {
                levels: MOST_DEPTH,
                parts: Parts::Each(Each {
                    sort: Assembly::Whole,
                    left: Left::Items(kind, 1),
                    done: List::new(alloc),
                }),
            },
            below: List::new(alloc),
        }
    }

    /// Reads on, up to the value's end or to the next reference at which an instance begins. A refusal
    /// is the first fault from the left, or out of memory; it leaves reader, cursor and port anywhere on
    /// the way.
    /// (Ice manual, "Data Encoding".)
    pub fn go<P: RefPort>(
        &mut self,
        alloc: Global,
        schema: &Schema,
        cursor: &mut Cursor<'_>,
        port: &mut P,
    ) -> Result<Paused<Value>, ReadFault>
        ensures goes { (inside : Inside P)
            → GoesOnReading inside (left_of P.take schema.now inside self.new) view result
            (left_of P.take schema.now inside self.old port.old cursor.old) port.new cursor.new }
        ensures room { NarrowsOnPause result (P.room port.old) (P.room port.new) }
    {
        loop {
            match self.step(alloc, schema, cursor, port)? {
                Step::On => {}
                Step::Done(value) => return Ok(Paused::Done(value)),
                Step::Begins(name) => return Ok(Paused::Begins(name)),
            }
        }
    }

    /// Begins the next part, or ends the innermost value.
    fn step<P: RefPort>(
        &mut self,
        alloc: Global,
        schema: &Schema,
        cursor: &mut Cursor<'_>,
        port: &mut P,
    ) -> Result<Step<Value>, ReadFault>
        ensures steps { (inside : Inside P)
            → StepsReading inside (left_of P.take schema.now inside self.new) view result
            (left_of P.take schema.now inside self.old port.old cursor.old) port.new cursor.new }
        ensures room { NarrowsOnStep result (P.room port.old) (P.room port.new) }
        ensures less { LessOnStep result (cost schema.now self.old) (cost schema.now self.new) }
    {
        match self.top.next(schema, cursor)? {
            Some(kind) => self.read_level(alloc, schema, kind, cursor, port),
            None => self.close(alloc, schema),
        }
    }

    /// Ends the innermost value, of which all parts are read.
    fn close(&mut self, alloc: Global, schema: &Schema) -> Result<Step<Value>, ReadFault>
        ensures closes { Closes self.old self.new result }
        ensures less { LessOnStep result (cost schema.now self.old) (cost schema.now self.new) }
    {
        match self.below.pop() {
            Some(frame) => {
                let value = mem::replace(&mut self.top, frame).value(alloc)?;
                self.give(alloc, value)?;
                Ok(Step::On)
            }
            None => Ok(Step::Done(self.taken(alloc)?)),
        }
    }

    /// What is made of the parts of the innermost value, which has none from here on.
    fn taken(&mut self, alloc: Global) -> Result<Value, AllocError>
        ensures { IfOk result (λ value. view value ≡ whole (opened self.old.top)) }
    {
        let spent = Frame {
            levels: 0,
            parts: Parts::Each(Each {
                sort: Assembly::Whole,
                left: Left::Items(TypeRef::Int, 0),
                done: List::new(alloc),
            }),
        };
        mem::replace(&mut self.top, spent).value(alloc)
    }

    /// The value, where nothing of it is left to read; else the reader is as it was. So it is where an instance
    /// begins at the value itself.
    pub(crate) fn ended(&mut self, alloc: Global) -> Result<Option<Value>, AllocError>
        ensures { IfOk result (Ends self.old self.new) }
    {
        if self.below.is_empty() && self.top.is_over() {
            Ok(Some(self.taken(alloc)?))
        } else {
            Ok(None)
        }
    }

    /// Reads a value of this type that is to be the innermost one's next part, or begins it.
    fn read_level<P: RefPort>(
        &mut self,
        alloc: Global,
        schema: &Schema,
        kind: TypeRef,
        cursor: &mut Cursor<'_>,
        port: &mut P,
    ) -> Result<Step<Value>, ReadFault>
        ensures steps { StepsFrom (part_within self.old.top.levels kind) P.take schema.now self.old port.old cursor.old
            result self.new port.new cursor.new }
        ensures room { NarrowsOnStep result (P.room port.old) (P.room port.new) }
        ensures less { LessOnStep result (weight schema.now self.old.top.levels + cost schema.now self.old)
            (cost schema.now self.new) }
    {
        if self.top.levels == 0 {
            return Err(ReadFault::Broken(cursor.fault(Kind::LeftOver)));
        }
        let levels = self.top.levels - 1;
        self.read_parts(alloc, schema, levels, kind, cursor, port)
    }

    /// The same of a value whose parts nest at most so deep.
    fn read_parts<P: RefPort>(
        &mut self,
        alloc: Global,
        schema: &Schema,
        levels: u32,
        kind: TypeRef,
        cursor: &mut Cursor<'_>,
        port: &mut P,
    ) -> Result<Step<Value>, ReadFault>
        ensures steps { StepsFrom (part_of levels kind) P.take schema.now self.old port.old cursor.old
            result self.new port.new cursor.new }
        ensures room { NarrowsOnStep result (P.room port.old) (P.room port.new) }
        ensures less { LessOnStep result (weight schema.now (suc levels) + cost schema.now self.old)
            (cost schema.now self.new) }
    {
        match kind {
            TypeRef::Bool
            | TypeRef::Byte
            | TypeRef::Short
            | TypeRef::Int
            | TypeRef::Long
            | TypeRef::Text
            | TypeRef::Enum(_)
            | TypeRef::Proxy(_) => self.read_leaf(alloc, schema, levels, kind, cursor, port),
            TypeRef::Class(declared) => self.read_reference(
                alloc, schema, levels, declared, cursor, port,
            ),
            TypeRef::Seq(at) => self.read_sequence(alloc, schema, levels, at, cursor, port),
            TypeRef::Dict(_) | TypeRef::Struct(_) => self.begin_parts(
                alloc, schema, levels, kind, cursor, port,
            ),
        }
    }

    /// A value without parts.
    fn read_leaf<P: RefPort>(
        &mut self,
        alloc: Global,
        schema: &Schema,
        levels: u32,
        kind: TypeRef,
        cursor: &mut Cursor<'_>,
        port: &P,
    ) -> Result<Step<Value>, ReadFault>
        requires { IsLeaf kind }
        ensures steps { StepsFrom (part_of levels kind) P.take schema.now self.old port.now cursor.old
            result self.new port.now cursor.new }
        ensures room { NarrowsOnStep result (P.room port.now) (P.room port.now) }
        ensures less { LessOnStep result (weight schema.now (suc levels) + cost schema.now self.old)
            (cost schema.now self.new) }
    {
        let value = take_leaf(alloc, schema, kind, cursor)?;
        self.give(alloc, value)?;
        Ok(Step::On)
    }

    /// A sequence: one of bytes whole, and of any other one its size.
    fn read_sequence<P: RefPort>(
        &mut self,
        alloc: Global,
        schema: &Schema,
        levels: u32,
        at: u32,
        cursor: &mut Cursor<'_>,
        port: &P,
    ) -> Result<Step<Value>, ReadFault>
        ensures steps { StepsFrom (part_of levels (kinds.Seq at)) P.take schema.now self.old port.now cursor.old
            result self.new port.now cursor.new }
        ensures room { NarrowsOnStep result (P.room port.now) (P.room port.now) }
        ensures less { LessOnStep result (weight schema.now (suc levels) + cost schema.now self.old)
            (cost schema.now self.new) }
    {
        if levels > 0 && has_byte_items(schema, at) {
            self.read_bytes(alloc, schema, levels, at, cursor, port)
        } else {
            self.begin_parts(alloc, schema, levels, TypeRef::Seq(at), cursor, port)
        }
    }

    /// A sequence of bytes, whole.
    fn read_bytes<P: RefPort>(
        &mut self,
        alloc: Global,
        schema: &Schema,
        levels: u32,
        at: u32,
        cursor: &mut Cursor<'_>,
        port: &P,
    ) -> Result<Step<Value>, ReadFault>
        requires deep { 0 < levels }
        requires bytes { HasByteItems schema.now at }
        ensures steps { StepsFrom (part_of levels (kinds.Seq at)) P.take schema.now self.old port.now cursor.old
            result self.new port.now cursor.new }
        ensures room { NarrowsOnStep result (P.room port.now) (P.room port.now) }
        ensures less { LessOnStep result (weight schema.now (suc levels) + cost schema.now self.old)
            (cost schema.now self.new) }
    {
        let value = take_byte_sequence(alloc, cursor)?;
        self.give(alloc, value)?;
        Ok(Step::On)
    }

    /// A value with parts, up to the first of them.
    fn begin_parts<P: RefPort>(
        &mut self,
        alloc: Global,
        schema: &Schema,
        levels: u32,
        kind: TypeRef,
        cursor: &mut Cursor<'_>,
        port: &P,
    ) -> Result<Step<Value>, ReadFault>
        requires { HasParts kind }
        ensures steps { StepsFrom (part_of levels kind) P.take schema.now self.old port.now cursor.old
            result self.new port.now cursor.new }
        ensures room { NarrowsOnStep result (P.room port.now) (P.room port.now) }
        ensures less { LessOnStep result (weight schema.now (suc levels) + cost schema.now self.old)
            (cost schema.now self.new) }
    {
        let frame = begun(alloc, schema, levels, kind, cursor)?;
        self.begin(frame)?;
        Ok(Step::On)
    }

    /// A reference. The innermost value gets it before the instance is read that begins at it.
    fn read_reference<P: RefPort>(
        &mut self,
        alloc: Global,
        schema: &Schema,
        levels: u32,
        declared: Option<u32>,
        cursor: &mut Cursor<'_>,
        port: &mut P,
    ) -> Result<Step<Value>, ReadFault>
        ensures steps { StepsFrom (reference_to declared) P.take schema.now self.old port.old cursor.old
            result self.new port.new cursor.new }
        ensures room { NarrowsOnStep result (P.room port.old) (P.room port.new) }
        ensures less { LessOnStep result (weight schema.now (suc levels) + cost schema.now self.old)
            (cost schema.now self.new) }
    {
        match port.take_ref(declared, cursor)? {
            Met::Known(name) => {
                self.give(alloc, Value::Reference(name))?;
                Ok(Step::On)
            }
            Met::Begins(name) => {
                self.give(alloc, Value::Reference(Some(name)))?;
                Ok(Step::Begins(name))
            }
        }
    }

    /// The innermost value gets its next part.
    fn give(&mut self, alloc: Global, value: Value) -> Result<(), AllocError>
        ensures { OnOk result (Gives (view value) self.old self.new) }
    {
        self.top.give(alloc, value)
    }

    /// A value inside the innermost one is now the innermost one.
    fn begin(&mut self, frame: Frame) -> Result<(), AllocError>
        ensures { OnOk result ((self.new.top ≡ frame) × (self.new.below ≡ self.old.below ++ self.old.top ∷ [])) }
    {
        let around = mem::replace(&mut self.top, frame);
        self.below.push(around)
    }
}
