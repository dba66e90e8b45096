//! `messages`: a line for each message of the input, as soon as it is there.

ghost use Rattle.std.specs.Prelude.{ℕ, List, Option, Some};
ghost use Rattle.node_commands.specs.Words.{messages as wanted};
ghost use Rattle.node_commands.specs.Outside.{Files, counts};
ghost use Rattle.node_commands.specs.Causes.{Causes};
ghost use Rattle.node_commands.specs.Effects.{Takes, Outputs};
ghost use Rattle.node_commands.specs.Outcomes.{answer_of};

use crate::outcome::Outcome;
use ice_ports::{Sink, Source};
use message_dump::dump_messages;
use std::alloc::Global;

/// Writes a line for each message of the source, and answers what came of it.
pub fn messages<S: Source, K: Sink>(alloc: Global, source: &mut S, sink: &mut K) -> Outcome<'static>
    ensures { (lines : List ℕ)
        × ((files : Option Files) (shelf : ℕ) → Causes (Some wanted) files (S.left source.old)
        (counts shelf (S.failures source.old) (K.failures sink.old))
        (counts shelf (S.failures source.new) (K.failures sink.new)) (answer_of result lines))
        × Takes (Some wanted) (S.left source.old) (S.left source.new) (answer_of result lines)
        × Outputs (K.taken sink.old) (K.taken sink.new) (answer_of result lines) }
{
    Outcome::from(dump_messages(alloc, source, sink))
}
