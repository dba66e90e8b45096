//! The server's end of one connection.

ghost use Rattle.std.specs.Prelude.{◌≡◌, Some, IsTrue, ◌↔◌};
ghost use Rattle.retry_core.specs.Server.{server_row, request_row, answered_row};

use std::marker::Model;

/// What a server is told.
#[derive(Clone, Copy, PartialEq, Eq)]
pub enum ServerEvent {
    /// The connection is there.
    Opened,

    /// A request or a batch was read, with so many calls; whether it asks for a reply.
    Request { calls: u32, reply: bool },

    /// The call that was dispatched has its answer.
    Answered,

    /// A validate connection message was read, which a client may send as a heartbeat.
    Heartbeat,

    /// A close connection message was read.
    CloseRead,

    /// What was read is no message that may come.
    Broken,

    /// A read or a write failed, or the peer's stream ended.
    Lost,

    /// No more messages are to be read.
    EnoughRead,
}

/// What a server does next.
#[derive(Clone, Copy, Debug, PartialEq, Eq)]
pub enum ServerAction {
    /// Write a validate connection message, then read.
    SendValidate,

    /// Dispatch the next call of what was read.
    Dispatch,

    /// Write the reply, then read.
    SendReply,

    /// Read.
    Read,

    /// Write a close connection message, then leave.
    SendClose,

    /// Leave the connection.
    Leave,
}

/// Where a server stands on its connection.
#[derive(Clone, Copy, PartialEq, Eq)]
pub enum ServerState {
    New,
    Reading,
    /// A call is dispatched; so many others of its message are left, which asks for a reply or not.
    Dispatched { left: u32, reply: bool },
    Left,
}

/// The row of the table: what is done, and the state after it; None where the event cannot come.
fn next(state: ServerState, event: ServerEvent) -> Option<(ServerAction, ServerState)>
    ensures { result ≡ server_row state event }
{
    use ServerAction::{Leave, Read, SendClose, SendValidate};
    use ServerEvent::{Answered, Broken, CloseRead, EnoughRead, Heartbeat, Lost, Opened, Request};
    use ServerState::{Dispatched, Left, New, Reading};
    match (state, event) {
        (New, Opened) => Some((SendValidate, Reading)),
        (Reading, Request { calls, reply }) => Some(after_reading(calls, reply)),
        (Dispatched { left, reply }, Answered) => Some(after_answer(left, reply)),
        (Reading, Heartbeat) => Some((Read, Reading)),
        (Reading, EnoughRead) => Some((SendClose, Left)),
        (Reading, CloseRead | Broken) => Some((Leave, Left)),
        (New | Reading | Dispatched { .. }, Lost) => Some((Leave, Left)),
        _ => None,
    }
}

/// A message with so many calls was read: the first is dispatched, where there is one.
fn after_reading(calls: u32, reply: bool) -> (ServerAction, ServerState)
    ensures { result ≡ request_row calls reply }
{
    if calls == 0 {
        (ServerAction::Read, ServerState::Reading)
    } else {
        let left = calls - 1;
        (
            ServerAction::Dispatch,
            ServerState::Dispatched { left, reply },
        )
    }
}

/// A call has its answer, and so many others of its message are left: the next one is dispatched, or the
/// message has its reply, where it asks for one.
fn after_answer(left: u32, reply: bool) -> (ServerAction, ServerState)
    ensures { result ≡ answered_row left reply }
{
    if left > 0 {
        let left = left - 1;
        (
            ServerAction::Dispatch,
            ServerState::Dispatched { left, reply },
        )
    } else if reply {
        (ServerAction::SendReply, ServerState::Reading)
    } else {
        (ServerAction::Read, ServerState::Reading)
    }
}

/// The server's end of one connection: told what came, it answers what to do next. It reads on only after
/// the answers of all that it dispatched, and the reply. (Ice manual, "The Ice Protocol", "Protocol State Diagrams".)
#[derive(Drop)]
pub struct Server {
    state: ServerState,
}

impl Model for Server {
    ghost use Rattle.retry_core.specs.declared.server.ServerState.{ServerState};

    ghost Value = { ServerState };

    ghost view = { λ s. s.state };
}

impl Server {
    ghost use Rattle.retry_core.specs.Server.{MayComeTo};

    /// The server of a connection that is not open yet.
    pub fn new() -> Server
        ensures { result ≡ ServerState.New }
    {
        Server {
            state: ServerState::New,
        }
    }

    /// Whether the event can come now. After `ServerAction::Leave` and `ServerAction::SendClose` none can.
    pub fn accepts(&self, event: ServerEvent) -> bool
        ensures { IsTrue result ↔ MayComeTo self.now event }
    {
        next(self.state, event).is_some()
    }

    /// What to do next, now that this has come. Takes no memory.
    pub fn step(&mut self, event: ServerEvent) -> ServerAction
        requires { MayComeTo self.old event }
        ensures { server_row self.old event ≡ Some (result, self.new) }
    {
        match next(self.state, event) {
            Some((action, state)) => {
                self.state = state;
                action
            }
            None => unreachable!(),
        }
    }
}
