//! A value that has begun and is not read whole.

ghost use Rattle.std.specs.Prelude.{ℕ, ◌≡◌, IfOk, IsTrue, OnOk};
ghost use Rattle.ice_types.specs.Tables.{Tables};
ghost use Rattle.graph_arena.specs.View.{view, view_all};
ghost use Rattle.ice_values.specs.Frames.{Asks, IsOver, opened, opened_pairs, given, whole, closed};

use crate::left::Left;
use crate::sorted::SortedPairs;
use graph_arena::Value;
use ice_prims::{Cursor, Fault, Kind};
use ice_types::{List, Schema, TypeRef};
use std::alloc::{AllocError, Global};

/// What is made of the parts.
#[derive(Clone, Copy)]
pub enum Assembly {
    /// The one part itself.
    Whole,
    Seq,
    Members,
}

/// Parts one after the other.
#[derive(Drop)]
pub struct Each {
    pub sort: Assembly,
    pub left: Left,
    /// The parts that are read.
    pub done: List<Value>,
}

/// How far the next key or value of a dictionary is.
#[derive(Clone, Copy)]
pub enum Part {
    /// Not begun.
    Next,
    /// It began at this place.
    Begun(u64),
    /// The key at this place is equal to an earlier one.
    Equal(u64),
}

/// The pairs of a dictionary.
#[derive(Drop)]
pub struct Pairs {
    pub key: TypeRef,
    pub value: TypeRef,
    /// How many pairs are left to begin.
    pub left: u32,
    pub part: Part,
    /// The pairs that are read.
    pub done: SortedPairs,
}

/// What a value has, and what it still waits for.
#[derive(Drop)]
pub enum Parts {
    Each(Each),
    Pairs(Pairs),
}

/// A value of which some parts are read.
#[derive(Drop)]
pub struct Frame {
    /// How deep each part nests at most.
    pub levels: u32,
    pub parts: Parts,
}

impl Frame {
    /// Whether all parts are read, of what has parts of one type.
    pub(crate) fn is_over(&self) -> bool
        ensures { IsTrue result → IsOver (opened self.now) }
    {
        match &self.parts {
            Parts::Each(each) => match each.left {
                Left::Items(_, count) => count == 0,
                Left::Members(_, _) => false,
            },
            Parts::Pairs(_) => false,
        }
    }

    /// The type of the part that is read next, or None where all are read.
    pub(crate) fn next(
        &mut self,
        schema: &Schema,
        cursor: &Cursor<'_>,
    ) -> Result<Option<TypeRef>, Fault>
        ensures asks { Asks schema.now (opened self.old) (opened self.new) cursor.now.place result }
        ensures levels { self.new.levels ≡ self.old.levels }
    {
        match &mut self.parts {
            Parts::Each(each) => match each.left.split(schema) {
                Some((kind, left)) => {
                    each.left = left;
                    Ok(Some(kind))
                }
                None => Ok(None),
            },
            Parts::Pairs(pairs) => pairs.next(cursor),
        }
    }

    /// Gets the part that was read.
    pub(crate) fn give(&mut self, alloc: Global, value: Value) -> Result<(), AllocError>
        ensures { OnOk result (opened self.new ≡ given (opened self.old) (view value)) }
    {
        match &mut self.parts {
            Parts::Each(each) => each.done.push(value),
            Parts::Pairs(pairs) => pairs.give(alloc, value),
        }
    }

    /// What is made of the parts that were read.
    pub(crate) fn value(self, alloc: Global) -> Result<Value, AllocError>
        ensures { IfOk result (λ v. view v ≡ whole (opened self)) }
    {
        match self.parts {
            Parts::Each(each) => Ok(made_of(each.sort, each.done)),
            Parts::Pairs(pairs) => Ok(Value::Pairs(pairs.done.into_list(alloc)?)),
        }
    }
}

impl Pairs {
    /// The type of the key or the value that is read next, or None where all are read.
    fn next(&mut self, cursor: &Cursor<'_>) -> Result<Option<TypeRef>, Fault>
        ensures { (t : Tables) (levels : ℕ)
            → Asks t (opened_pairs levels self.old) (opened_pairs levels self.new) cursor.now.place result }
    {
        match self.part {
            Part::Begun(_) => Ok(None),
            Part::Equal(place) => Err(Fault {
                place,
                kind: Kind::EqualKey,
            }),
            Part::Next => {
                if self.done.has_key() {
                    self.part = Part::Begun(cursor.place());
                    return Ok(Some(self.value));
                }
                if self.left == 0 {
                    return Ok(None);
                }
                self.left -= 1;
                self.part = Part::Begun(cursor.place());
                Ok(Some(self.key))
            }
        }
    }

    /// Gets the key or the value that was read.
    fn give(&mut self, alloc: Global, value: Value) -> Result<(), AllocError>
        ensures { (levels : ℕ)
            → OnOk result (opened_pairs levels self.new ≡ given (opened_pairs levels self.old) (view value)) }
    {
        if let Part::Begun(place) = self.part {
            if self.done.has_key() {
                self.done.put_value(value)?;
                self.part = Part::Next;
            } else if self.done.put_key(alloc, value)? {
                self.part = Part::Next;
            } else {
                self.part = Part::Equal(place);
            }
        }
        Ok(())
    }
}

/// What is made of the parts.
fn made_of(sort: Assembly, mut parts: List<Value>) -> Value
    ensures { view result ≡ closed sort (view_all parts) }
{
    match sort {
        Assembly::Whole => match parts.pop() {
            Some(value) => value,
            None => Value::Members(parts),
        },
        Assembly::Seq => Value::Seq(parts),
        Assembly::Members => Value::Members(parts),
    }
}
