//! What a store keeps, and what its operations do with it.

ghost use Rattle.std.specs.Prelude.{◌≡◌, IfOk, OnOk, OnErr, Some, None};
ghost use Rattle.ice_types.specs.declared.kind.TypeRef.TheVariants as kinds;
ghost use Rattle.ice_encoding.specs.TypedGraph.{OfType};
ghost use Rattle.value_parts.specs.Shapes.{told_apart};
ghost use Rattle.object_adapter.specs.declared.store_deeds.Deed.TheVariants as deeds;
ghost use Rattle.object_adapter.specs.declared.refusal.Refusal.TheVariants as refusals;
ghost use Rattle.object_adapter.specs.Refusals.{Outcome};
ghost use Rattle.object_adapter.specs.Arguments.{sole_number};
ghost use Rattle.object_adapter.specs.Deeds.{IsOne};
ghost use Rattle.object_adapter.specs.Writing.{written};
ghost use Rattle.object_adapter.specs.Stores.{Does, Overflows, no_results, number_results, plus};

use crate::arguments::sole_number;
use crate::enclosing::enclose_short;
use crate::refusal::{Refusal, Unanswered};
use crate::results::Results;
use crate::store_deeds::Deed;
use crate::writing::written;
use graph_arena::Graph;
use ice_types::{Schema, Shape};
use std::alloc::{AllocError, Global};

/// What a store keeps.
#[derive(Drop)]
pub struct Kept {
    pub number: i32,
    /// The canonical encapsulation of the value, None where it is longer than results may be.
    pub value: Option<Results>,
}

impl Kept {
    /// Does what an operation with these arguments does. A refusal changes nothing.
    pub(crate) fn act(
        &mut self,
        alloc: Global,
        schema: &Schema,
        deed: Deed,
        shape: &Shape,
        arguments: Graph,
    ) -> Result<Results, Unanswered>
        requires typed { OfType schema.now (told_apart shape.now) arguments }
        requires number { deed ≡ deeds.Add → IsOne shape.now kinds.Int }
        ensures does { Outcome (λ results. Does schema.now deed shape.now arguments self.old results self.new)
            (Overflows deed self.old) result }
        ensures err { OnErr result (self.new ≡ self.old) }
    {
        match deed {
            Deed::Add => Ok(self.add(alloc, arguments)?),
            Deed::Total => {
                drop(arguments);
                Ok(number_results(alloc, self.number)?)
            }
            Deed::Put => Ok(self.put(alloc, schema, shape, arguments)?),
            Deed::Get => {
                drop(arguments);
                given(alloc, &self.value)
            }
        }
    }

    /// Adds the argument to the number, and gives it.
    fn add(&mut self, alloc: Global, arguments: Graph) -> Result<Results, AllocError>
        ensures ok { IfOk result (λ results.
            results ≡ number_results (plus self.old (sole_number arguments.roots.required))) }
        ensures added { OnOk result
            (self.new ≡ record self.old { number = plus self.old (sole_number arguments.roots.required) }) }
        ensures err { OnErr result (self.new ≡ self.old) }
    {
        let more = sole_number(&arguments);
        drop(arguments);
        let number = self.number.wrapping_add(more);
        let results = number_results(alloc, number)?;
        self.number = number;
        Ok(results)
    }

    /// Keeps the value.
    fn put(
        &mut self,
        alloc: Global,
        schema: &Schema,
        shape: &Shape,
        arguments: Graph,
    ) -> Result<Results, AllocError>
        requires { OfType schema.now (told_apart shape.now) arguments }
        ensures ok { IfOk result (λ results. results ≡ no_results) }
        ensures put { OnOk result (self.new ≡ record self.old { value = written schema.now shape.now arguments }) }
        ensures err { OnErr result (self.new ≡ self.old) }
    {
        let value = written(alloc, schema, shape, arguments)?;
        let results = enclose_short(alloc, &[])?;
        self.value = value;
        Ok(results)
    }
}

/// The results of an operation with a number.
fn number_results(alloc: Global, number: i32) -> Result<Results, AllocError>
    ensures { IfOk result (λ results. results ≡ number_results number) }
{
    enclose_short(alloc, &number.to_le_bytes())
}

/// A copy of the kept value, where it is not too long to be given.
fn given(alloc: Global, value: &Option<Results>) -> Result<Results, Unanswered>
    ensures { Outcome (λ results. value.now ≡ Some results)
        (λ refusal. (refusal ≡ refusals.TooLong) × (value.now ≡ None)) result }
{
    match value {
        Some(results) => Ok(results.copied(alloc)?),
        None => Err(Unanswered::Refused(Refusal::TooLong)),
    }
}
