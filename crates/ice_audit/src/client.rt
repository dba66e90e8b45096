//! What a client sent.

ghost use Rattle.std.specs.Prelude.{◌≡◌, ◌++◌, ◌≤◌, ◌<◌, ◌+◌, ◌^◌, OnOk, None, length};
ghost use Rattle.ice_encoding.specs.declared.limits.TheConstants.{LARGEST};
ghost use Rattle.ice_prims.specs.Rest.{IsBytes};
ghost use Rattle.ice_audit.specs.declared.verdict.TheConstants.{MOST_BYTES};
ghost use Rattle.ice_audit.specs.Stops.{client_message};
ghost use Rattle.ice_audit.specs.Posing.{posed_by, batch_posed, request_posed, request_due, due_by, HasCount};
ghost use Rattle.ice_audit.specs.Readings.{ReadsClient, TakesClient, HearsClient};

use crate::stop::{Halt, Stage, Stop};
use crate::stream::{next_message, out_of_turn, stage_after};
use ice_messages::{Call, Frames, Message, is_clients, messages_exact};
use std::alloc::{AllocError, Global};

/// What a client asked with a message.
#[derive(Clone, Copy, PartialEq, Eq)]
pub enum Posed {
    /// A request with this id.
    Request(i32),
    /// A batch of so many calls.
    Batch(u32),
}

/// What a client asked, and the ids of the replies that it waits for.
#[derive(Drop)]
pub struct Asked {
    pub posed: Vec<Posed>,
    pub due: Vec<i32>,
}

/// What the bytes of a client ask.
pub fn read_client(alloc: Global, bytes: &[u8]) -> Result<Asked, Halt>
    requires { length bytes.now ≤ MOST_BYTES }
    ensures { ReadsClient bytes.now result }
{
    let mut frames = Frames::new(alloc);
    if frames.feed(bytes).is_err() {
        return Err(Halt::Memory);
    }
    let mut asked = Asked {
        posed: Vec::new(alloc),
        due: Vec::new(alloc),
    };
    let mut stage = Stage::Open;
    loop {
        let at = (bytes.len() - frames.held()) as u64;
        match take_next(&mut frames, &mut asked, stage, at)? {
            None => return Ok(asked),
            Some(next) => stage = next,
        }
    }
}

/// Takes one message more in, and tells what the stream has come to. None where no message is whole.
fn take_next(
    frames: &mut Frames,
    asked: &mut Asked,
    stage: Stage,
    at: u64,
) -> Result<Option<Stage>, Halt>
    requires { (frames.old.stopped ≡ None) × (at + LARGEST < 2 ^ 64) × IsBytes frames.old.bytes }
    ensures { TakesClient stage at frames.old.bytes asked.old frames.new asked.new result }
{
    messages_exact();
    match next_message(frames, at)? {
        None => Ok(None),
        Some(message) => {
            let next = hear(asked, &message, stage, at)?;
            Ok(Some(next))
        }
    }
}

/// Takes a message in, and tells what the stream has come to.
fn hear(asked: &mut Asked, message: &Message, stage: Stage, at: u64) -> Result<Stage, Halt>
    requires { HasCount message.now }
    ensures { HearsClient stage at message.now asked.old asked.new result }
{
    if let Some(stop) = client_message(stage, message, at) {
        return Err(Halt::Found(stop));
    }
    keep(asked, message)?;
    Ok(stage_after(message))
}

/// What is wrong with a message of a client.
fn client_message(stage: Stage, message: &Message, at: u64) -> Option<Stop>
    ensures { result ≡ client_message stage message.now at }
{
    out_of_turn(is_clients(message), stage, at)
}

/// Keeps what a message asks.
fn keep(asked: &mut Asked, message: &Message) -> Result<(), AllocError>
    requires { HasCount message.now }
    ensures posed { OnOk result (asked.new.posed.items ≡ asked.old.posed.items ++ posed_by message.now) }
    ensures due { OnOk result (asked.new.due.items ≡ asked.old.due.items ++ due_by message.now) }
{
    match message {
        Message::Request { id, call: _ } => keep_request(asked, *id),
        Message::Batch { calls } => keep_batch(&mut asked.posed, calls.as_slice()),
        _ => Ok(()),
    }
}

fn keep_request(asked: &mut Asked, id: i32) -> Result<(), AllocError>
    ensures posed { OnOk result (asked.new.posed.items ≡ asked.old.posed.items ++ request_posed id) }
    ensures due { OnOk result (asked.new.due.items ≡ asked.old.due.items ++ request_due id) }
{
    asked.posed.push(Posed::Request(id))?;
    if id != 0 {
        asked.due.push(id)?;
    }
    Ok(())
}

/// A batch without calls asks nothing.
fn keep_batch(posed: &mut Vec<Posed>, calls: &[Call]) -> Result<(), AllocError>
    requires { length calls.now < 2 ^ 31 }
    ensures { OnOk result (posed.new.items ≡ posed.old.items ++ batch_posed calls.now) }
{
    if calls.len() > 0 {
        posed.push(Posed::Batch(calls.len() as u32))?;
    }
    Ok(())
}
