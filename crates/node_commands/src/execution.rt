//! What the words ask for, and what came of it.

ghost use Rattle.std.specs.Prelude.{List, ℕ, Option};
ghost use Rattle.node_commands.specs.Words.{Command as Asked, Asks, words_of};
ghost use Rattle.node_commands.specs.Outside.{counts};
ghost use Rattle.node_commands.specs.Causes.{Causes};
ghost use Rattle.node_commands.specs.Effects.{Takes, Outputs};
ghost use Rattle.node_commands.specs.Outcomes.{answer_of};

use crate::audit::audit;
use crate::checking::check;
use crate::compat::compat;
use crate::drill::drill;
use crate::help::VERSION;
use crate::messages::messages;
use crate::outcome::Outcome;
use crate::output::{print, print_or_tell};
use crate::pages::text_of;
use crate::proxy::proxy;
use crate::values::run_task;
use crate::words::{Command, command_of};
use ice_ports::{Shelf, Sink, Source};
use std::alloc::Global;

/// Does what the words ask for, up to the answer's last byte: reads Slice files from the shelf and the input from the
/// source, and writes the answer to the sink. What came of it is told, for the line on why there is no answer.
pub fn run<'a, H: Shelf, S: Source, K: Sink>(
    alloc: Global,
    words: &'a [String],
    shelf: &mut H,
    source: &mut S,
    sink: &mut K,
) -> Outcome<'a>
    ensures { (bytes : List ℕ) × (asked : Option Asked) × Asks (words_of words.now) asked
        × Causes asked (H.files shelf.old) (S.left source.old)
        (counts (H.failures shelf.old) (S.failures source.old) (K.failures sink.old))
        (counts (H.failures shelf.new) (S.failures source.new) (K.failures sink.new))
        (answer_of result bytes)
        × Takes asked (S.left source.old) (S.left source.new) (answer_of result bytes)
        × Outputs (K.taken sink.old) (K.taken sink.new) (answer_of result bytes) }
{
    match command_of(words) {
        Some(Command::Values { task, file, kind }) => {
            run_task(alloc, task, file, kind, shelf, source, sink)
        }
        Some(Command::Check { file }) => match check(alloc, file, shelf) {
            Ok(text) => print(text.as_bytes(), sink),
            Err(outcome) => outcome,
        },
        Some(Command::Proxy { text }) => match proxy(alloc, text) {
            Ok(lines) => print(lines.as_slice(), sink),
            Err(outcome) => outcome,
        },
        Some(Command::Audit { client, server }) => {
            print_or_tell(audit(alloc, client, server, shelf), sink)
        }
        Some(Command::Compat { old, new, kind }) => {
            print_or_tell(compat(alloc, old, new, kind, shelf), sink)
        }
        Some(Command::Drill { start, count }) => match drill(alloc, start, count) {
            Ok(line) => print(line.as_bytes(), sink),
            Err(outcome) => outcome,
        },
        Some(Command::Messages) => messages(alloc, source, sink),
        Some(Command::Help { page }) => print(text_of(page).as_bytes(), sink),
        Some(Command::Version) => print(VERSION.as_bytes(), sink),
        None => Outcome::Usage,
    }
}
