//! Bytes to a sink: an answer, or the line that says why there is none.

ghost use Rattle.std.specs.Prelude.{◌≡◌, ℕ, List};
ghost use Rattle.node_commands.specs.Answers.{status};
ghost use Rattle.node_commands.specs.Effects.{Outputs, GetsLine};
ghost use Rattle.node_commands.specs.Outcomes.{Prints, PrintsFor, PrintsOrTells, answer_of, found_bytes, found_outcome};
ghost use Rattle.node_commands.specs.Outcomes.{verdict, verdict_line};
ghost use Rattle.node_commands.specs.declared.outcome.Outcome.TheVariants as outcomes;

use crate::found::Found;
use crate::outcome::Outcome;
use ice_ports::{Failed, Sink, write_all, write_pieces};
use itoa::Buffer;

/// Writes the whole answer. A sink that fails has taken a prefix of it, and is not asked again.
pub fn print<K: Sink>(bytes: &[u8], sink: &mut K) -> Outcome<'static>
    ensures outcome { Prints (K.failures sink.old) (K.failures sink.new) result }
    ensures output { Outputs (K.taken sink.old) (K.taken sink.new) (answer_of result bytes.now) }
{
    match write_all(sink, bytes) {
        Ok(()) => Outcome::Done,
        Err(Failed) => Outcome::WriteFailed,
    }
}

/// Writes the whole of an answer that says no, for which the outcome is `Different`. A sink that fails has taken a
/// prefix of it, and is not asked again.
fn print_denial<K: Sink>(bytes: &[u8], sink: &mut K) -> Outcome<'static>
    ensures outcome { PrintsFor outcomes.Different (K.failures sink.old) (K.failures sink.new) result }
    ensures output { Outputs (K.taken sink.old) (K.taken sink.new) (answer_of result bytes.now) }
{
    match print(bytes, sink) {
        Outcome::Done => Outcome::Different,
        _ => Outcome::WriteFailed,
    }
}

/// Writes the word for whether two values are the same, and where they are not the outcome is
/// `Different`. A sink that fails has taken a prefix of it, and is not asked again.
fn print_verdict<K: Sink>(same: bool, sink: &mut K) -> Outcome<'static>
    ensures outcome { PrintsFor (verdict same) (K.failures sink.old) (K.failures sink.new) result }
    ensures output { Outputs (K.taken sink.old) (K.taken sink.new) (answer_of result (verdict_line same)) }
{
    if same {
        return print("same\n".as_bytes(), sink);
    }
    print_denial("different\n".as_bytes(), sink)
}

/// Writes what was found: bytes, bytes that say no, or the word for whether two values are the same.
fn print_found<K: Sink>(found: Found, sink: &mut K) -> Outcome<'static>
    ensures outcome { PrintsFor (found_outcome found) (K.failures sink.old) (K.failures sink.new) result }
    ensures output { Outputs (K.taken sink.old) (K.taken sink.new) (answer_of result (found_bytes found)) }
{
    match found {
        Found::Bytes(bytes) => print(bytes.as_slice(), sink),
        Found::Denial(bytes) => print_denial(bytes.as_slice(), sink),
        Found::Verdict(same) => print_verdict(same, sink),
    }
}

/// Writes what was found; or tells why nothing was.
pub(crate) fn print_or_tell<'a, K: Sink>(
    found: Result<Found, Outcome<'a>>,
    sink: &mut K,
) -> Outcome<'a>
    ensures { PrintsOrTells found.entry (K.taken sink.old) (K.taken sink.new)
        (K.failures sink.old) (K.failures sink.new) result }
{
    match found {
        Ok(found) => print_found(found, sink),
        Err(outcome) => outcome,
    }
}

/// Writes the outcome's line to the sink of errors, and answers the status to end with. A line that
/// cannot be written leaves the status as it is.
pub fn report<E: Sink>(outcome: Outcome<'_>, errors: &mut E) -> u8
    ensures status { (bytes : List ℕ) → result ≡ status (answer_of outcome.entry bytes) }
    ensures line { (bytes : List ℕ) → GetsLine (E.taken errors.old) (E.taken errors.new)
        (E.failures errors.old) (E.failures errors.new) (answer_of outcome.entry bytes) }
{
    let mut digits = Buffer::new();
    let _ = write_pieces(errors, &outcome.line(&mut digits));
    outcome.status()
}
