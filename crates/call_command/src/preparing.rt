//! All that is decided of the operation and the object before anything is connected.

ghost use Rattle.std.specs.Prelude.{◌≡◌, ◌↔◌, ◌⊎◌, ◌≤◌, IfOk, IsTrue, length};
ghost use Rattle.std.specs.Io.KnownBytes.{Keeps};
ghost use Rattle.ice_relay.specs.TextStreams.{TakesText};
ghost use Rattle.call_command.specs.Words.{IsWithin, seen as words_seen};
ghost use Rattle.call_command.specs.Operations.{IsDeclared, seen as operation_seen};
ghost use Rattle.call_command.specs.Decided.{LacksReply};
ghost use Rattle.call_command.specs.Messages as spec;
ghost use Rattle.call_command.specs.Steps.{CanBeSent, GivesPlan, LooksFor};

use crate::arguments::body_of;
use crate::callee::Callee;
use crate::ending::Ending;
use crate::known::{Known, wants_reply};
use crate::messages::{call_with, message_of};
use crate::words::CallCommand;
use ice_messages::Message;
use ice_ports::Source;
use ice_relay::read_text;
use ice_types::{OpDecl, Proxy, Schema, Shape};
use std::alloc::Global;

/// By what it is told what a message came to.
#[derive(Clone, Copy)]
pub struct Expected<'a> {
    pub schema: &'a Schema,
    pub results: &'a Shape,
    /// How many calls the message has.
    pub calls: u32,
}

/// What is sent to whom, how often, and by what it is told what it came to.
#[derive(Drop)]
pub struct Plan<'a> {
    pub expected: Expected<'a>,
    pub callee: &'a Callee,
    pub message: Message,
    pub retries: u32,
    /// How many messages there are, one after the other.
    pub rounds: u32,
}

/// The plan of a call of the operation, with arguments out of the source.
pub(crate) fn plan_of<'a, 'b, S: Source>(
    alloc: Global,
    command: CallCommand<'b>,
    known: Known<'a>,
    callee: &'a Callee,
    source: &mut S,
) -> Result<Plan<'a>, Ending<'b>>
    requires within { IsWithin (words_seen command) }
    requires listed { callee.now.proxy.mode ≤ 2 }
    requires declared { IsDeclared (operation_seen known) }
    ensures plan { GivesPlan (words_seen command.entry) (S.left source.old) (operation_seen known.entry) callee.now
        (S.failures source.old) (S.failures source.new) result }
    ensures sendable { IfOk result CanBeSent }
    ensures taken { LooksFor (LacksReply callee.now.proxy known.entry.operation.now)
        (S.left source.old) (S.left source.new) }
{
    if lacks_reply(&callee.proxy, known.operation) {
        return Err(Ending::TwowayOnly(command.operation));
    }
    let text = read_text(alloc, source)?;
    let body = body_of(
        alloc,
        known.schema,
        &known.operation.arguments,
        command.format,
        text.as_slice(),
    )?;
    let call = call_with(alloc, &callee.proxy, command.operation, known.mode, body)?;
    let mode = callee.proxy.mode;
    let message = message_of(alloc, mode, call, command.times)?;
    Ok(Plan {
        expected: Expected {
            schema: known.schema,
            results: &known.operation.results,
            calls: calls_of(mode, command.times),
        },
        retries: command.retries,
        rounds: rounds_of(mode, command.times),
        callee,
        message,
    })
}

/// Whether the proxy asks for no reply, and the operation wants one.
fn lacks_reply(proxy: &Proxy, operation: &OpDecl) -> bool
    ensures { IsTrue result ↔ LacksReply proxy.now operation.now }
{
    proxy.mode > 0 && wants_reply(operation)
}

/// How many messages there are: in batch mode one.
fn rounds_of(mode: u8, times: u32) -> u32
    ensures { result ≡ spec.rounds_of mode times }
{
    match mode {
        0 => times,
        1 => times,
        _ => 1,
    }
}

/// How many calls each message has.
fn calls_of(mode: u8, times: u32) -> u32
    ensures { result ≡ spec.calls_of mode times }
{
    match mode {
        0 => 1,
        1 => 1,
        _ => times,
    }
}
