//! What a server sent.

ghost use Rattle.std.specs.Prelude.{◌≡◌, ◌++◌, ◌≤◌, ◌<◌, ◌+◌, ◌^◌, OnOk, None, length};
ghost use Rattle.ice_encoding.specs.declared.limits.TheConstants.{LARGEST};
ghost use Rattle.ice_messages.specs.Calls.{status_of};
ghost use Rattle.ice_audit.specs.declared.verdict.TheConstants.{MOST_BYTES};
ghost use Rattle.ice_audit.specs.Stops.{server_message, is_validate, is_due, is_first, unvalidated, undue};
ghost use Rattle.ice_audit.specs.Posing.{statuses_by};
ghost use Rattle.ice_audit.specs.Readings.{ReadsServer, TakesServer, HearsServer};

use crate::stop::{Halt, Stage, Stop};
use crate::stream::{next_message, out_of_turn, stage_after};
use crate::verdict::Why;
use ice_messages::{Answer, Frames, Message, is_servers};
use ice_prims::Kind;
use std::alloc::{AllocError, Global};

/// How many bytes of a reply stand before its id: those of its header.
const BEFORE_ID: u64 = 14;

/// The statuses of the replies, and what the stream has come to.
#[derive(Drop)]
pub struct Answered {
    pub statuses: Vec<u8>,
    pub stage: Stage,
}

/// What the bytes of a server answer, where replies to requests with these ids are due.
pub fn read_server(alloc: Global, bytes: &[u8], due: &[i32]) -> Result<Answered, Halt>
    requires { length bytes.now ≤ MOST_BYTES }
    ensures { ReadsServer bytes.now due.now result }
{
    let mut frames = Frames::new(alloc);
    if frames.feed(bytes).is_err() {
        return Err(Halt::Memory);
    }
    let mut statuses = Vec::new(alloc);
    let mut stage = Stage::Fresh;
    loop {
        let at = (bytes.len() - frames.held()) as u64;
        let left = &due[statuses.len()..];
        match take_next(&mut frames, &mut statuses, left, stage, at)? {
            None => return Ok(Answered { statuses, stage }),
            Some(next) => stage = next,
        }
    }
}

/// Takes one message more in, and tells what the stream has come to. None where no message is whole.
fn take_next(
    frames: &mut Frames,
    statuses: &mut Vec<u8>,
    due: &[i32],
    stage: Stage,
    at: u64,
) -> Result<Option<Stage>, Halt>
    requires { (frames.old.stopped ≡ None) × (at + LARGEST < 2 ^ 64) }
    ensures { TakesServer stage due.now at frames.old.bytes statuses.old.items frames.new statuses.new.items result }
{
    match next_message(frames, at)? {
        None => Ok(None),
        Some(message) => {
            let next = hear(statuses, &message, due, stage, at)?;
            Ok(Some(next))
        }
    }
}

/// Takes a message in, and tells what the stream has come to.
fn hear(
    statuses: &mut Vec<u8>,
    message: &Message,
    due: &[i32],
    stage: Stage,
    at: u64,
) -> Result<Stage, Halt>
    requires { at + LARGEST < 2 ^ 64 }
    ensures { HearsServer stage due.now at message.now statuses.old.items statuses.new.items result }
{
    if let Some(stop) = server_message(stage, due, message, at) {
        return Err(Halt::Found(stop));
    }
    keep(statuses, message)?;
    Ok(stage_after(message))
}

/// What is wrong with a message of a server, where replies to these are due.
fn server_message(stage: Stage, due: &[i32], message: &Message, at: u64) -> Option<Stop>
    requires { at + LARGEST < 2 ^ 64 }
    ensures { result ≡ server_message stage due.now message.now at }
{
    if let Some(stop) = out_of_turn(is_servers(message), stage, at) {
        return Some(stop);
    }
    if let Some(stop) = unvalidated(stage, is_validate(message), at) {
        return Some(stop);
    }
    undue(is_due(message, due), at)
}

fn is_validate(message: &Message) -> bool
    ensures { result ≡ is_validate message.now }
{
    matches!(message, Message::Validate)
}

/// Where a validate message has to come first.
fn unvalidated(stage: Stage, validates: bool, at: u64) -> Option<Stop>
    ensures { result ≡ unvalidated stage validates at }
{
    if stage.is_fresh() && !validates {
        return Some(Stop {
            place: at,
            why: Why::Bytes(Kind::NotValidated),
        });
    }
    None
}

/// Whether a message is no reply, or is the one that is due next.
fn is_due(message: &Message, due: &[i32]) -> bool
    ensures { result ≡ is_due message.now due.now }
{
    match message {
        Message::Reply { id, answer: _ } => is_first(*id, due),
        _ => true,
    }
}

fn is_first(id: i32, due: &[i32]) -> bool
    ensures { result ≡ is_first id due.now }
{
    match due.first() {
        Some(next) => *next == id,
        None => false,
    }
}

/// The place of a reply's id, where the reply is not due.
fn undue(is_due: bool, at: u64) -> Option<Stop>
    requires { at + LARGEST < 2 ^ 64 }
    ensures { result ≡ undue is_due at }
{
    if is_due {
        return None;
    }
    Some(Stop {
        place: at + BEFORE_ID,
        why: Why::Bytes(Kind::UnknownId),
    })
}

/// Keeps the status of a reply.
fn keep(statuses: &mut Vec<u8>, message: &Message) -> Result<(), AllocError>
    ensures { OnOk result (statuses.new.items ≡ statuses.old.items ++ statuses_by message.now) }
{
    match message {
        Message::Reply { id: _, answer } => {
            statuses.push(status_of(answer))?;
        }
        _ => {}
    }
    Ok(())
}

/// An answer's status. (Ice manual, "Reply Status".)
fn status_of(answer: &Answer) -> u8
    ensures { result ≡ status_of answer.now }
{
    match answer {
        Answer::Done(_) => 0,
        Answer::Raised(_) => 1,
        Answer::Missing { status, .. } => *status,
        Answer::Unknown { status, .. } => *status,
    }
}
