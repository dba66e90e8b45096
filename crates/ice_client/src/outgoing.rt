//! A message as it is sent.

ghost use Rattle.std.specs.Prelude.{◌≡◌, ◌<◌, ◌↔◌, pos, IsTrue};
ghost use Rattle.ice_encoding.specs.Parts.{Each};
ghost use Rattle.ice_messages.specs.declared.message.Message.TheVariants.{Request};
ghost use Rattle.ice_messages.specs.Written.{IsWritable, IsWritableCall};
ghost use Rattle.ice_client.specs.Sending.{IsIdempotent, IsOneway, IsRepeatable, Prepares};

use ice_messages::{Call, Message, WriteFault, write_message, write_request};
use ice_types::Bytes;
use std::alloc::Global;

/// The id of each request that asks for a reply: a connection has one.
pub const REQUEST_ID: i32 = 1;

/// A message as it is sent.
#[derive(Drop)]
pub struct Outgoing {
    pub bytes: Bytes,
    /// It asks for a reply.
    pub replies: bool,
    /// Each of its calls may be dispatched again.
    pub idempotent: bool,
}

impl Outgoing {
    /// The request of a call, with id 1, whose reply is awaited. `TooLong` as `write_request` says.
    pub fn twoway(alloc: Global, call: &Call) -> Result<Outgoing, WriteFault>
        requires { IsWritableCall call.now }
        ensures { Prepares result (Request (pos 1) call.now) }
    {
        Ok(Outgoing {
            bytes: write_request(alloc, REQUEST_ID, call)?,
            replies: true,
            idempotent: is_repeatable(call),
        })
    }

    /// A request with id 0 or a batch, for which no reply comes. `TooLong` as `write_message` says. (Ice manual,
    /// "Oneway Invocations" and "Batched Invocations".)
    pub fn oneway(alloc: Global, message: &Message) -> Result<Outgoing, WriteFault>
        requires writable { IsWritable message.now }
        requires oneway { IsOneway message.now }
        ensures { Prepares result message.now }
    {
        Ok(Outgoing {
            bytes: write_message(alloc, message)?,
            replies: false,
            idempotent: is_idempotent(message),
        })
    }
}

/// Whether each call of the message may be dispatched again.
fn is_idempotent(message: &Message) -> bool
    ensures { IsTrue result ↔ IsIdempotent message.now }
{
    match message {
        Message::Request { call, .. } => is_repeatable(call),
        Message::Batch { calls } => are_repeatable(calls.as_slice()),
        Message::Reply { .. } | Message::Validate | Message::Close => true,
    }
}

/// Whether the call may be dispatched again: it is nonmutating or idempotent.
fn is_repeatable(call: &Call) -> bool
    ensures { IsTrue result ↔ IsRepeatable call.now }
{
    call.mode > 0
}

fn are_repeatable(calls: &[Call]) -> bool
    ensures { IsTrue result ↔ Each IsRepeatable calls.now }
{
    for call in calls {
        if !is_repeatable(call) {
            return false;
        }
    }
    true
}
