//! The lines of the standard output.

ghost use Rattle.std.specs.Prelude.{◌++◌, codes};
ghost use Rattle.std.specs.Fmt.{decimal};
ghost use Rattle.node_commands.specs.Lines.{EndsWith, Tells, served};

use crate::ending::Ending;
use crate::outcome::Outcome;
use ice_ports::{Sink, write_pieces};
use itoa::Buffer;

/// Tells how many links were served, where nothing failed and memory did not lack.
pub fn end_with<K: Sink>(
    accepted: u64,
    failed: bool,
    starved: bool,
    sink: &mut K,
) -> Ending<'static>
    ensures { EndsWith (K.taken sink.old) (K.taken sink.new) (K.failures sink.old) (K.failures sink.new)
        (served accepted) failed starved result }
{
    if starved {
        return Ending::Known(Outcome::Memory);
    }
    if failed {
        return Ending::NetworkFailed;
    }
    if tell(sink, "served ", accepted) {
        Ending::Known(Outcome::Done)
    } else {
        Ending::Known(Outcome::WriteFailed)
    }
}

/// Writes a line: the words and a number. False where a write failed.
pub fn tell<K: Sink>(sink: &mut K, words: &str, number: u64) -> bool
    ensures { Tells (K.taken sink.old) (K.taken sink.new) (K.failures sink.old) (K.failures sink.new) result
        (words.now ++ (decimal number ++ codes "\n")) }
{
    let mut digits = Buffer::new();
    write_pieces(sink, &[words, digits.format(number), "\n"]).is_ok()
}
