//! How a call that does not succeed ends.

ghost use Rattle.std.specs.Prelude.{◌≡◌, ◌++◌, codes};
ghost use Rattle.std.specs.List.{flat_map};
ghost use Rattle.ice_prims.specs.Kinds.{kind_name};
ghost use Rattle.node_commands.specs.Effects.{GetsText};
ghost use Rattle.call_command.specs.Endings.{ending_seen, line_of, reason_text, status_of, stop_line, stop_status};

use crate::stop::{Reason, Stop};
use ice_ports::{PortFault, Sink, write_pieces};
use ice_prims::Kind;
use ice_relay::RelayFault;
use itoa::Buffer;
use node_commands::{Line, Outcome};
use std::alloc::AllocError;

/// How a call that does not succeed ends.
#[derive(Drop)]
pub enum Ending<'a> {
    /// It is refused as any command is, before anything is connected.
    Refused(Outcome<'a>),
    /// The operation has results or throws, and the proxy asks for no reply.
    TwowayOnly(&'a str),
    /// The message was sent, or tried to be.
    Stopped(Stop),
}

impl<'a> Ending<'a> {
    /// The status that the program ends with.
    pub fn status(&self) -> u8
        ensures { result ≡ status_of (ending_seen self.now) }
    {
        match self {
            Ending::Refused(outcome) => outcome.status(),
            Ending::TwowayOnly(_) => 2,
            Ending::Stopped(stop) => stop_status(stop),
        }
    }

    /// The line on the sink of errors. The digits of a number are put into the buffer.
    pub fn line(&'a self, digits: &'a mut Buffer) -> Line<'a>
        ensures { flat_map (λ piece. piece.now) result ≡ line_of (ending_seen self.now) }
    {
        match self {
            Ending::Refused(outcome) => outcome.line(digits),
            Ending::TwowayOnly(operation) => {
                ["ice: twoway only ", operation, "\n", "", "", "", ""]
            }
            Ending::Stopped(stop) => line_of_stop(stop, digits),
        }
    }
}

fn stop_status(stop: &Stop) -> u8
    ensures { result ≡ stop_status stop.now }
{
    match stop {
        Stop::WriteFailed => 6,
        Stop::NetFailed => 7,
        Stop::Ended(_) => 8,
        Stop::Memory => 9,
    }
}

fn line_of_stop<'a>(stop: &'a Stop, digits: &'a mut Buffer) -> Line<'a>
    ensures { flat_map (λ piece. piece.now) result ≡ stop_line stop.now }
{
    match stop {
        Stop::WriteFailed => ["ice: write failed\n", "", "", "", "", "", ""],
        Stop::NetFailed => ["ice: network failed\n", "", "", "", "", "", ""],
        Stop::Ended(reason) => line_of_reason(reason, digits),
        Stop::Memory => ["ice: no memory\n", "", "", "", "", "", ""],
    }
}

fn line_of_reason<'a>(reason: &'a Reason, digits: &'a mut Buffer) -> Line<'a>
    ensures { flat_map (λ piece. piece.now) result
        ≡ codes "ice: call ended: " ++ (reason_text reason.now ++ codes "\n") }
{
    match reason {
        Reason::Raised(id) => of_word("raised ", id.as_str()),
        Reason::Missing(status) => of_word("missing ", digits.format(*status)),
        Reason::Unknown { status, text } => {
            let status = digits.format(*status);
            [
                "ice: call ended: ",
                "unknown ",
                status,
                " ",
                text.as_str(),
                "\n",
                "",
            ]
        }
        Reason::NoEndpoint => of_word("no endpoint", ""),
        Reason::NotLocated => of_word("not located", ""),
        Reason::Closed => of_word("closed", ""),
        Reason::Ended => of_word("ended", ""),
        Reason::Broke(fault) => {
            let place = digits.format(fault.place);
            let kind = word_of(fault.kind);
            [
                "ice: call ended: ",
                "broke at ",
                place,
                ": ",
                kind,
                "\n",
                "",
            ]
        }
    }
}

/// The kind's word, for a line.
fn word_of<'a>(kind: Kind) -> &'a str
    ensures { result.now ≡ kind_name kind }
{
    kind.name()
}

/// A line on a reason of one word or two.
fn of_word<'a>(why: &'a str, word: &'a str) -> Line<'a>
    ensures { flat_map (λ piece. piece.now) result
        ≡ codes "ice: call ended: " ++ (why.now ++ (word.now ++ codes "\n")) }
{
    ["ice: call ended: ", why, word, "\n", "", "", ""]
}

/// Writes the line to the sink of errors, and answers the status. A line that cannot be written leaves the status
/// as it is.
pub(crate) fn report<E: Sink>(ending: Ending<'_>, errors: &mut E) -> u8
    ensures status { result ≡ status_of (ending_seen ending.entry) }
    ensures line { GetsText (E.taken errors.old) (E.taken errors.new)
        (E.failures errors.old) (E.failures errors.new) (line_of (ending_seen ending.entry)) }
{
    let mut digits = Buffer::new();
    let _ = write_pieces(errors, &ending.line(&mut digits));
    let status = ending.status();
    drop(ending);
    status
}

impl<'a> From<Outcome<'a>> for Ending<'a> {
    ghost use Rattle.std.specs.Prelude.{◌≡◌};
    ghost use Rattle.call_command.specs.declared.ending.Ending.TheVariants as endings;

    ghost from_gives = { λ outcome ending. ending ≡ endings.Refused outcome };

    fn from(outcome: Outcome<'a>) -> Self {
        Ending::Refused(outcome)
    }
}

impl From<PortFault> for Ending<'_> {
    ghost use Rattle.std.specs.Prelude.{◌≡◌};
    ghost use Rattle.node_commands.specs.Outcomes.{of_port};
    ghost use Rattle.call_command.specs.declared.ending.Ending.TheVariants as endings;

    ghost from_gives = { λ fault ending. ending ≡ endings.Refused (of_port fault) };

    fn from(fault: PortFault) -> Self {
        Ending::Refused(Outcome::from(fault))
    }
}

impl From<RelayFault> for Ending<'_> {
    ghost use Rattle.std.specs.Prelude.{◌≡◌};
    ghost use Rattle.node_commands.specs.Outcomes.{of_relay};
    ghost use Rattle.call_command.specs.declared.ending.Ending.TheVariants as endings;

    ghost from_gives = { λ fault ending. ending ≡ endings.Refused (of_relay fault) };

    fn from(fault: RelayFault) -> Self {
        Ending::Refused(Outcome::from(fault))
    }
}

impl From<AllocError> for Ending<'_> {
    ghost use Rattle.std.specs.Prelude.{◌≡◌};
    ghost use Rattle.node_commands.specs.declared.outcome.Outcome.TheVariants as outcomes;
    ghost use Rattle.call_command.specs.declared.ending.Ending.TheVariants as endings;

    ghost from_gives = { λ _ ending. ending ≡ endings.Refused outcomes.Memory };

    fn from(_error: AllocError) -> Self {
        Ending::Refused(Outcome::Memory)
    }
}
