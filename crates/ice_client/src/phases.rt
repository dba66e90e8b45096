//! The phases of an attempt that has its connection.

ghost use Rattle.std.specs.Prelude.{◌≡◌, []};
ghost use Rattle.ice_ports.specs.Failures.{count_after};
ghost use Rattle.ice_ports.specs.Talks.{adds};
ghost use Rattle.ice_ports.specs.declared.talk.Talk.{Talk};
ghost use Rattle.talking.specs.Hearing.{IsGoing};
ghost use Rattle.ice_client.specs.Rows as rows;
ghost use Rattle.ice_client.specs.Steps as steps;
ghost use Rattle.ice_client.specs.Steps.{Greets, Awaits};

use crate::outcome::{End, Outcome};
use crate::outgoing::REQUEST_ID;
use ice_messages::{Answer, Frames, Message, client_fault};
use ice_ports::Link;
use retry_core::ClientEvent;
use std::alloc::AllocError;
use talking::{Heard, hear};

/// Whether the answer says that there is no such object.
fn is_no_object(answer: &Answer) -> bool
    ensures { result ≡ rows.is_no_object answer.now }
{
    matches!(answer, Answer::Missing { status: 2, .. })
}

/// How an attempt ends by the reply that was read.
fn replied(answer: Answer, cached: bool) -> End
    ensures { result ≡ steps.replied cached answer }
{
    let event = if is_no_object(&answer) {
        ClientEvent::Refused2 { cached }
    } else {
        ClientEvent::ReplyRead
    };
    End {
        event,
        outcome: Outcome::Replied(answer),
    }
}

/// How an attempt ends by a message with which nothing is wrong. None where it goes on.
fn taken_end(message: Message, cached: bool) -> Option<End>
    ensures { result ≡ steps.taken_end cached message }
{
    match message {
        Message::Reply { answer, .. } => Some(replied(answer, cached)),
        Message::Close => Some(End {
            event: ClientEvent::CloseRead,
            outcome: Outcome::Closed,
        }),
        Message::Validate | Message::Request { .. } | Message::Batch { .. } => None,
    }
}

/// How an attempt ends by what was heard behind so many messages, where the reply to the request with the id
/// `asked` is awaited, or the server's first message. None where it goes on.
fn end_of(heard: Heard, asked: Option<i32>, before: u32, cached: bool) -> Option<End>
    ensures { result ≡ steps.end_of asked before cached heard }
{
    let (event, outcome) = match heard {
        Heard::Message(message) => match client_fault(asked, before, &message) {
            None => return taken_end(message, cached),
            Some(fault) => (ClientEvent::Broken, Outcome::Broke(fault)),
        },
        Heard::Broken(fault) => (ClientEvent::Broken, Outcome::Broke(fault)),
        Heard::Ended => (ClientEvent::Lost, Outcome::Ended),
        Heard::Failed => (ClientEvent::Lost, Outcome::NetFailed),
    };
    Some(End { event, outcome })
}

/// Reads the first message: None where the server is ready. Writes nothing.
pub fn greet<L: Link>(
    link: &mut L,
    frames: &mut Frames,
    cached: bool,
) -> Result<Option<End>, AllocError>
    requires fresh { frames.old.bytes ≡ [] }
    requires going { IsGoing frames.old }
    ensures talk { (t : Talk) × (L.talk link.new ≡ adds (L.talk link.old) t)
        × (L.Source.failures link.new ≡ count_after (L.Source.failures link.old) t.failed)
        × Greets cached frames.new t result }
    ensures writes { L.Sink.failures link.new ≡ L.Sink.failures link.old }
{
    let heard = hear(link, frames)?;
    Ok(end_of(heard, None, 0, cached))
}

/// Reads up to the reply, or whatever else ends the attempt. Writes nothing.
pub fn await_reply<L: Link>(
    link: &mut L,
    frames: &mut Frames,
    cached: bool,
) -> Result<End, AllocError>
    requires { IsGoing frames.old }
    ensures talk { (t : Talk) × (L.talk link.new ≡ adds (L.talk link.old) t)
        × (L.Source.failures link.new ≡ count_after (L.Source.failures link.old) t.failed)
        × Awaits cached frames.old t result }
    ensures writes { L.Sink.failures link.new ≡ L.Sink.failures link.old }
{
    let mut before: u32 = 1;
    loop {
        let heard = hear(link, frames)?;
        if let Some(end) = end_of(heard, Some(REQUEST_ID), before, cached) {
            return Ok(end);
        }
        before += 1;
    }
}
