//! How connections were served or forwarded, at the end.

ghost use Rattle.std.specs.Prelude.{◌≡◌, ℕ, List};
ghost use Rattle.node_commands.specs.Effects.{GetsText};
ghost use Rattle.node_commands.specs.Ends.{end_line, end_of, end_status};

use crate::outcome::Outcome;
use crate::output::report;
use ice_ports::{Sink, write_all};

/// How it ended.
#[derive(Drop)]
pub enum Ending<'a> {
    /// With an outcome that other commands have too.
    Known(Outcome<'a>),
    /// The net could not listen, or an accept failed.
    NetworkFailed,
}

/// Writes the line of the ending to the sink of errors, and answers the status to end with. A line that cannot be
/// written leaves the status as it is.
pub fn report_ending<E: Sink>(ending: Ending<'_>, errors: &mut E) -> u8
    ensures status { (bytes : List ℕ) → result ≡ end_status (end_of ending.entry bytes) }
    ensures line { (bytes : List ℕ) → GetsText (E.taken errors.old) (E.taken errors.new)
        (E.failures errors.old) (E.failures errors.new) (end_line (end_of ending.entry bytes)) }
{
    match ending {
        Ending::Known(outcome) => report(outcome, errors),
        Ending::NetworkFailed => {
            let _ = write_all(errors, "ice: network failed\n".as_bytes());
            7
        }
    }
}
