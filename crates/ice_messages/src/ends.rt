//! What the ends of a connection may be sent. (Ice manual, "Protocol Messages".)

ghost use Rattle.std.specs.Prelude.{◌≡◌};
ghost use Rattle.ice_messages.specs.Ends as ends;

use crate::message::{HEADER_BYTES, Message};
use ice_prims::{Fault, Kind};

/// How many messages a client takes of one connection at most.
pub const MOST_MESSAGES: u32 = 1_000_000;

/// Whether clients send such messages: requests, batches, validate and close messages.
pub fn is_clients(message: &Message) -> bool
    ensures { result ≡ ends.is_clients message.now }
{
    !matches!(message, Message::Reply { .. })
}

/// Whether servers send such messages: replies, validate and close messages.
pub fn is_servers(message: &Message) -> bool
    ensures { result ≡ ends.is_servers message.now }
{
    !matches!(message, Message::Request { .. } | Message::Batch { .. })
}

/// What is wrong with a message that a server is sent: `Unexpected` at 0 for one that no client sends. Places count
/// from the first byte of the message.
pub fn server_fault(message: &Message) -> Option<Fault>
    ensures { result ≡ ends.server_fault message.now }
{
    if is_clients(message) {
        None
    } else {
        amiss(Kind::Unexpected)
    }
}

/// What is wrong with a message that a client is sent behind so many others, where it waits for the reply to the
/// request with the id `asked`, or for the server's first message, where that is None. `Endless` at 0 for one behind
/// the 1,000,000th; `NotValidated` at 0 for a first one that is neither a validate nor a close message; later
/// `Unexpected` at 0 for one that no server sends, and `UnknownId` at 14 for a reply with another id.
pub fn client_fault(asked: Option<i32>, heard: u32, message: &Message) -> Option<Fault>
    ensures { result ≡ ends.client_fault asked heard message.now }
{
    if heard >= MOST_MESSAGES {
        return amiss(Kind::Endless);
    }
    match asked {
        None => greeting_fault(message),
        Some(asked) => reply_fault(asked, message),
    }
}

fn greeting_fault(message: &Message) -> Option<Fault>
    ensures { result ≡ ends.greeting_fault message.now }
{
    match message {
        Message::Validate | Message::Close => None,
        _ => amiss(Kind::NotValidated),
    }
}

fn reply_fault(asked: i32, message: &Message) -> Option<Fault>
    ensures { result ≡ ends.reply_fault asked message.now }
{
    match message {
        Message::Request { .. } | Message::Batch { .. } => amiss(Kind::Unexpected),
        Message::Reply { id, .. } => id_fault(asked, *id),
        Message::Validate | Message::Close => None,
    }
}

/// The place of a reply's id, where it is not the one that is asked for.
fn id_fault(asked: i32, id: i32) -> Option<Fault>
    ensures { result ≡ ends.id_fault asked id }
{
    if id == asked {
        return None;
    }
    Some(Fault {
        place: HEADER_BYTES as u64,
        kind: Kind::UnknownId,
    })
}

/// A fault of the message as a whole.
fn amiss(kind: Kind) -> Option<Fault>
    ensures { result ≡ ends.amiss kind }
{
    Some(Fault { place: 0, kind })
}
