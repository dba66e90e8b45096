//! The message that is sent.

ghost use Rattle.std.specs.Prelude.{◌≡◌, ◌<◌, [], IfOk, OnOk, length, replicate};
ghost use Rattle.ice_messages.specs.declared.message.Message.TheVariants.{Batch};
ghost use Rattle.ice_messages.specs.Messages.{message_bytes};
ghost use Rattle.ice_messages.specs.Written.{told};
ghost use Rattle.call_command.specs.Messages.{call_of, message_of};
ghost use Rattle.call_command.specs.Steps.{MakesMessage};

use ice_encoding::LARGEST;
use ice_messages::{Call, Message, request_length};
use ice_relay::RelayFault;
use ice_types::{Bytes, Identity, List, Name, Proxy};
use std::alloc::{AllocError, Global};

/// How many bytes a message of calls has beside them: its header, and the id or the count.
const BESIDE_CALLS: u64 = 18;

/// The call of the operation of the proxy's object, with these arguments.
pub(crate) fn call_with(
    alloc: Global,
    proxy: &Proxy,
    operation: &str,
    mode: u8,
    body: Bytes,
) -> Result<Call, AllocError>
    ensures { IfOk result (λ c. c ≡ call_of proxy.now operation.now mode body) }
{
    let facet = proxy.facet.as_str();
    call_to(alloc, &proxy.identity, facet, operation, mode, body)
}

/// The call of the operation of the object with this identity and facet, with these arguments.
fn call_to(
    alloc: Global,
    identity: &Identity,
    facet: &str,
    operation: &str,
    mode: u8,
    body: Bytes,
) -> Result<Call, AllocError>
    ensures { IfOk result (λ c. c ≡ record {
      identity = identity.now;
      facet = facet.now;
      operation = operation.now;
      mode = mode;
      context = [];
      body = body;
    }) }
{
    Ok(Call {
        identity: identity.copied(alloc)?,
        facet: Name::of(alloc, facet)?,
        operation: Name::of(alloc, operation)?,
        mode,
        context: List::new(alloc),
        body,
    })
}

/// The message that a call goes in, by the mode of the proxy: a request that wants a reply, one that wants none, or so
/// many of the call in a batch. One that is too long is refused with its length.
pub(crate) fn message_of(
    alloc: Global,
    mode: u8,
    call: Call,
    times: u32,
) -> Result<Message, RelayFault>
    requires times { 0 < times }
    requires context { call.context ≡ [] }
    ensures { MakesMessage (message_of mode times call) result }
{
    let length = message_length(mode, &call, times);
    if length > LARGEST as u64 {
        drop(call);
        return Err(RelayFault::TooLong(length));
    }
    match mode {
        0 => Ok(Message::Request { id: 1, call }),
        1 => Ok(Message::Request { id: 0, call }),
        _ => Ok(batch_of(alloc, call, times)?),
    }
}

/// So many of the call in a batch.
fn batch_of(alloc: Global, call: Call, times: u32) -> Result<Message, AllocError>
    requires { call.context ≡ [] }
    ensures { IfOk result (λ m. m ≡ Batch (replicate times call)) }
{
    let calls = repeated(alloc, &call, times);
    drop(call);
    Ok(Message::Batch { calls: calls? })
}

/// How many bytes it has.
fn message_length(mode: u8, call: &Call, times: u32) -> u64
    requires { 0 < times }
    ensures { result ≡ told (length (message_bytes (message_of mode times call.now))) }
{
    match mode {
        0 => request_length(call),
        1 => request_length(call),
        _ => repeated_length(call, times),
    }
}

/// How many bytes a batch of so many such calls has.
fn repeated_length(call: &Call, times: u32) -> u64
    requires { 0 < times }
    ensures { result ≡ told (length (message_bytes (Batch (replicate times call.now)))) }
{
    request_length(call)
        .saturating_sub(BESIDE_CALLS)
        .saturating_mul(times as u64)
        .saturating_add(BESIDE_CALLS)
}

/// So many of the call.
fn repeated(alloc: Global, call: &Call, times: u32) -> Result<List<Call>, AllocError>
    requires { call.now.context ≡ [] }
    ensures { IfOk result (λ calls. calls ≡ replicate times call.now) }
{
    let mut calls = List::new(alloc);
    match push_calls(alloc, &mut calls, call, times) {
        Ok(()) => Ok(calls),
        Err(e) => {
            drop(calls);
            Err(e)
        }
    }
}

/// Puts the call so many times into a list that has none.
fn push_calls(
    alloc: Global,
    calls: &mut List<Call>,
    call: &Call,
    times: u32,
) -> Result<(), AllocError>
    requires context { call.now.context ≡ [] }
    requires none { calls.old ≡ [] }
    ensures { OnOk result (calls.new ≡ replicate times call.now) }
{
    for _ in 0..times {
        calls.push(copy_of(alloc, call)?)?;
    }
    Ok(())
}

/// A copy of a call without a context.
fn copy_of(alloc: Global, call: &Call) -> Result<Call, AllocError>
    requires { call.now.context ≡ [] }
    ensures { IfOk result (λ c. c ≡ call.now) }
{
    let mut body = Vec::new(alloc);
    body.extend_from_slice(call.body.as_slice())?;
    let facet = call.facet.as_str();
    let operation = call.operation.as_str();
    let body = Bytes::from_vec(body);
    call_to(alloc, &call.identity, facet, operation, call.mode, body)
}
