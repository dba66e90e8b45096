//! The table of a client: where a state and an event lead.

ghost use Rattle.std.specs.Prelude.{◌≡◌, ◌+◌};
ghost use Rattle.retry_core.specs.ClientTable.{client_row, taken_row, whole_row};

use crate::attempt::Attempt;

/// What a client is told.
#[derive(Clone, Copy, PartialEq, Eq)]
pub enum ClientEvent {
    /// The connection is there.
    Connected,

    /// There is no connection.
    ConnectFailed,

    /// A validate connection message was read.
    Validated,

    /// The connection took so many bytes more of the message.
    Taken(u64),

    /// A read or a write failed, or the peer's stream ended.
    Lost,

    /// A close connection message was read.
    CloseRead,

    /// A reply of status 2 was read: there is no such object. The place may have come from a cache.
    Refused2 { cached: bool },

    /// Any other reply was read.
    ReplyRead,

    /// What was read is no message that may come.
    Broken,
}

/// What a client does next.
#[derive(Clone, Copy, Debug, PartialEq, Eq)]
pub enum ClientAction {
    /// Make a new connection.
    Connect,

    /// Read, until the validate connection message has come.
    AwaitValidate,

    /// Write what is left of the message.
    Send,

    /// Read, until the reply has come.
    AwaitReply,

    /// No attempt follows this last one.
    Finish(Attempt),
}

/// Where a client stands in its attempt.
#[derive(Clone, Copy, PartialEq, Eq)]
pub enum ClientState {
    Connecting,
    AwaitingValidate,
    /// So many bytes of the message were taken.
    Sending(u64),
    AwaitingReply,
    Finished,
}

/// Where a state and an event lead.
#[derive(Clone, Copy, PartialEq, Eq)]
pub enum ClientNext {
    Goes(ClientState, ClientAction),
    Ends(Attempt),
}

/// The row of the table, for a message of `length` bytes that asks for a reply or not; None where the event
/// cannot come.
pub fn next(
    state: ClientState,
    replies: bool,
    length: u64,
    event: ClientEvent,
) -> Option<ClientNext>
    ensures { result ≡ client_row replies length state event }
{
    use ClientAction::{AwaitReply, AwaitValidate, Send};
    use ClientEvent::{
        Broken, CloseRead, ConnectFailed, Connected, Lost, Refused2, ReplyRead, Taken, Validated,
    };
    use ClientNext::{Ends, Goes};
    use ClientState::{AwaitingReply, AwaitingValidate, Connecting, Sending};
    match (state, event) {
        (Connecting, Connected) => Some(Goes(AwaitingValidate, AwaitValidate)),
        (Connecting, ConnectFailed) => Some(Ends(Attempt::NotConnected)),
        (AwaitingValidate, Validated) => Some(Goes(Sending(0), Send)),
        (AwaitingValidate | Sending(_), Lost) => Some(Ends(Attempt::NotWhole)),
        (Sending(taken), Validated) => Some(Goes(Sending(taken), Send)),
        (Sending(taken), Taken(more)) => after_taking(taken, more, replies, length),
        (AwaitingReply, Validated) => Some(Goes(AwaitingReply, AwaitReply)),
        (AwaitingReply, Lost) => Some(Ends(Attempt::Lost)),
        (AwaitingReply, Refused2 { cached: true }) => Some(Ends(Attempt::Stale)),
        (AwaitingReply, Refused2 { cached: false } | ReplyRead) => Some(Ends(Attempt::Replied)),
        (AwaitingValidate | Sending(_) | AwaitingReply, CloseRead) => Some(Ends(Attempt::Closed)),
        (AwaitingValidate | Sending(_) | AwaitingReply, Broken) => Some(Ends(Attempt::Broke)),
        _ => None,
    }
}

/// The row of a message of `length` bytes of which `more` bytes were taken beside those taken before.
fn after_taking(taken: u64, more: u64, replies: bool, length: u64) -> Option<ClientNext>
    ensures { result ≡ taken_row replies length (taken + more) }
{
    let all = taken.checked_add(more)?;
    if all < length {
        Some(ClientNext::Goes(ClientState::Sending(all), ClientAction::Send))
    } else if all == length {
        Some(when_whole(replies))
    } else {
        None
    }
}

/// Where it leads that a message was taken whole: its reply is read, where it asks for one.
fn when_whole(replies: bool) -> ClientNext
    ensures { result ≡ whole_row replies }
{
    if replies {
        ClientNext::Goes(ClientState::AwaitingReply, ClientAction::AwaitReply)
    } else {
        ClientNext::Ends(Attempt::Sent)
    }
}
