//! `dump FILE TYPE`: one encapsulation in, the line of JSON that tells its value out, piece by piece.

ghost use Rattle.std.specs.Prelude.{ℕ, List};
ghost use Rattle.node_commands.specs.declared.words.Task.TheVariants as tasks;
ghost use Rattle.node_commands.specs.Outside.{counts};
ghost use Rattle.node_commands.specs.Effects.{TakesTask, Outputs};
ghost use Rattle.node_commands.specs.Outcomes.{CausesTask, answer_of};

use crate::outcome::Outcome;
use ice_ports::{Sink, Source};
use ice_relay::{dump_to, read_input};
use ice_types::{Schema, TypeRef};
use std::alloc::Global;

/// Writes the line of JSON that tells the value of the type that the source holds, and answers what came of it.
/// Nothing is written before the whole input is known to be good.
pub(crate) fn dump<S: Source, K: Sink>(
    alloc: Global,
    schema: &Schema,
    kind: TypeRef,
    source: &mut S,
    sink: &mut K,
) -> Outcome<'static>
    ensures came { (bytes : List ℕ)
        × ((shelf : ℕ) → CausesTask tasks.Dump (S.left source.old) schema.now kind
        (counts shelf (S.failures source.old) (K.failures sink.old))
        (counts shelf (S.failures source.new) (K.failures sink.new)) (answer_of result bytes))
        × Outputs (K.taken sink.old) (K.taken sink.new) (answer_of result bytes) }
    ensures taken { TakesTask tasks.Dump (S.left source.old) (S.left source.new) }
{
    let input = match read_input(alloc, source) {
        Ok(input) => input,
        Err(fault) => return Outcome::from(fault),
    };
    match dump_to(alloc, schema, kind, input.as_slice(), sink) {
        Ok(()) => Outcome::Done,
        Err(fault) => Outcome::from(fault),
    }
}
