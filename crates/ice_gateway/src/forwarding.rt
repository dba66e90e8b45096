//! Messages that are forwarded.

ghost use Rattle.std.specs.Prelude.{◌++◌, [], OnOk, ◌≡◌, pos, IfOk, IsSome, List};
ghost use Rattle.ice_types.specs.Object.{object_tables};
ghost use Rattle.ice_encoding.specs.Parts.{Each};
ghost use Rattle.encaps_optionals.specs.Usable.{tcp_at};
ghost use Rattle.ice_messages.specs.declared.message.Message.TheVariants.{Batch, Request};
ghost use Rattle.ice_messages.specs.Written.{IsWritable};
ghost use Rattle.ice_client.specs.ClientDid.{Tried};
ghost use Rattle.ice_client.specs.Sending.{IsOneway};
ghost use Rattle.object_adapter.specs.Replies.{CanReply, IsReply, KeepsLimit};
ghost use Rattle.ice_gateway.specs.Gate.{operation_seen, seen};
ghost use Rattle.ice_gateway.specs.Mapped.{ByOutcome, Mapped, admitted};
ghost use Rattle.ice_gateway.specs.Forwarded as forwarded;
ghost use Rattle.ice_gateway.specs.Runs.{Ran, net_seen};
ghost use Rattle.ice_gateway.specs.Parts.{Answers, Passes, Tries};
ghost use Rattle.ice_gateway.specs.Laws.{CanCome, CanGo, Comes};

use crate::admitting::{Admitted, admit, going};
use crate::gateway::{Gateway, Known, known_of};
use crate::mapping::answer_to;
use crate::refusing::failed;
use encaps_optionals::tcp_of;
use ice_client::{Outcome, invoke, send};
use ice_encoding::LARGEST;
use ice_messages::{Answer, Call, Message, WriteFault, batch_length};
use ice_ports::Net;
use ice_types::List;
use object_adapter::missed;
use std::alloc::AllocError;

/// The answer of a request that asks for one, which is forwarded where it is not refused and an endpoint can be used.
pub(crate) fn answer_request<N: Net>(
    gateway: &Gateway<'_>,
    net: &mut N,
    call: &Call,
) -> Result<Answer, AllocError>
    requires object { gateway.now.object.now ≡ object_tables }
    requires comes { Comes call.now }
    ensures told { (runs : List (List Tried))
        × Ran gateway.now.upstream.now.endpoints runs
        (net_seen (N.told net.old) (N.failures net.old) (N.listen_failures net.old))
        (net_seen (N.told net.new) (N.failures net.new) (N.listen_failures net.new))
        × Answers (seen gateway.now) (forwarded.request_anew (seen gateway.now) (pos 1)
        (forwarded.going (admitted (seen gateway.now) call.now))) (Mapped (seen gateway.now) call.now) runs result }
    ensures replies { IfOk result (CanReply call.now) }
{
    let Some(known) = known_of(gateway, call.operation.as_str()) else {
        return missed(gateway.alloc, 4, call);
    };
    match admit(gateway.alloc, known, call)? {
        Admitted::Goes(call) => answer_call(gateway, net, known, &call),
        Admitted::Refused(answer) => Ok(answer),
    }
}

/// The answer of a request with this call, which is forwarded where an endpoint can be used.
fn answer_call<N: Net>(
    gateway: &Gateway<'_>,
    net: &mut N,
    known: Known<'_>,
    call: &Call,
) -> Result<Answer, AllocError>
    requires { CanGo call.now }
    ensures told { (runs : List (List Tried))
        × Ran gateway.now.upstream.now.endpoints runs
        (net_seen (N.told net.old) (N.failures net.old) (N.listen_failures net.old))
        (net_seen (N.told net.new) (N.failures net.new) (N.listen_failures net.new))
        × Answers (seen gateway.now) (forwarded.placed (seen gateway.now) (Request (pos 1) call.now))
        (ByOutcome (seen gateway.now) (operation_seen known.entry)) runs result }
    ensures replies { IfOk result IsReply }
{
    if tcp_of(gateway.upstream, 0).is_none() {
        return failed(gateway.alloc, "no upstream");
    }
    let outcome = invoked(gateway, net, call)?;
    answer_to(gateway, known, outcome)
}

/// Has the servers answer a request with this call, at endpoints that can be used.
fn invoked<N: Net>(gateway: &Gateway<'_>, net: &mut N, call: &Call) -> Result<Outcome, AllocError>
    requires placed { IsSome (tcp_at 0 gateway.now.upstream.now.endpoints) }
    requires sendable { CanGo call.now }
    ensures told { (runs : List (List Tried))
        × Ran gateway.now.upstream.now.endpoints runs
        (net_seen (N.told net.old) (N.failures net.old) (N.listen_failures net.old))
        (net_seen (N.told net.new) (N.failures net.new) (N.listen_failures net.new))
        × Tries (seen gateway.now) (Request (pos 1) call.now) runs result }
    ensures comes { IfOk result CanCome }
{
    match invoke(gateway.alloc, net, gateway.upstream, call, gateway.retries) {
        Ok(invoked) => Ok(invoked.outcome),
        Err(WriteFault::Memory) => Err(AllocError),
        Err(WriteFault::TooLong(_)) => unreachable!(),
    }
}

/// Forwards a request with id 0, where its call is not refused and an endpoint can be used.
pub(crate) fn forward_oneway<N: Net>(
    gateway: &Gateway<'_>,
    net: &mut N,
    call: &Call,
) -> Result<(), AllocError>
    requires object { gateway.now.object.now ≡ object_tables }
    requires comes { Comes call.now }
    ensures told { (runs : List (List Tried))
        × Ran gateway.now.upstream.now.endpoints runs
        (net_seen (N.told net.old) (N.failures net.old) (N.listen_failures net.old))
        (net_seen (N.told net.new) (N.failures net.new) (N.listen_failures net.new))
        × Passes (seen gateway.now) (forwarded.request_anew (seen gateway.now) (pos 0)
        (forwarded.going (admitted (seen gateway.now) call.now))) runs result }
{
    match going(gateway, call)? {
        Some(call) => forward(gateway, net, &Message::Request { id: 0, call }),
        None => Ok(()),
    }
}

/// Forwards those calls of a batch that are not refused as one batch, where there is one, it is no longer than a
/// message may be, and an endpoint can be used.
pub(crate) fn forward_batch<N: Net>(
    gateway: &Gateway<'_>,
    net: &mut N,
    calls: &[Call],
) -> Result<(), AllocError>
    requires object { gateway.now.object.now ≡ object_tables }
    requires come { Each Comes calls.now }
    ensures told { (runs : List (List Tried))
        × Ran gateway.now.upstream.now.endpoints runs
        (net_seen (N.told net.old) (N.failures net.old) (N.listen_failures net.old))
        (net_seen (N.told net.new) (N.failures net.new) (N.listen_failures net.new))
        × Passes (seen gateway.now) (forwarded.batch_anew (seen gateway.now)
        (forwarded.calls_anew (seen gateway.now) calls.now)) runs result }
{
    let calls = all_going(gateway, calls)?;
    if calls.is_empty() {
        return Ok(());
    }
    if batch_length(calls.as_slice()) > LARGEST as u64 {
        return Ok(());
    }
    forward(gateway, net, &Message::Batch { calls })
}

/// The calls as they are forwarded: those that are not refused.
fn all_going(gateway: &Gateway<'_>, calls: &[Call]) -> Result<List<Call>, AllocError>
    requires object { gateway.now.object.now ≡ object_tables }
    requires come { Each Comes calls.now }
    ensures are { IfOk result (λ going. going ≡ forwarded.calls_anew (seen gateway.now) calls.now) }
    ensures sendable { IfOk result (Each CanGo) }
{
    let mut all = List::new(gateway.alloc);
    for call in calls {
        put_going(gateway, call, &mut all)?;
    }
    Ok(all)
}

/// Puts a call behind the others, where it is not refused.
fn put_going(gateway: &Gateway<'_>, call: &Call, all: &mut List<Call>) -> Result<(), AllocError>
    requires object { gateway.now.object.now ≡ object_tables }
    requires comes { Comes call.now }
    ensures put { OnOk result (all.new ≡ all.old
        ++ forwarded.with_call (forwarded.going (admitted (seen gateway.now) call.now)) []) }
    ensures sendable { OnOk result (Each CanGo all.old → Each CanGo all.new) }
{
    match going(gateway, call)? {
        Some(call) => all.push(call),
        None => Ok(()),
    }
}

/// Sends a message for which no reply comes, where an endpoint can be used.
fn forward<N: Net>(gateway: &Gateway<'_>, net: &mut N, message: &Message) -> Result<(), AllocError>
    requires writable { IsWritable message.now }
    requires oneway { IsOneway message.now }
    requires short { KeepsLimit message.now }
    ensures told { (runs : List (List Tried))
        × Ran gateway.now.upstream.now.endpoints runs
        (net_seen (N.told net.old) (N.failures net.old) (N.listen_failures net.old))
        (net_seen (N.told net.new) (N.failures net.new) (N.listen_failures net.new))
        × Passes (seen gateway.now) (forwarded.placed (seen gateway.now) message.now) runs result }
{
    if tcp_of(gateway.upstream, 0).is_none() {
        return Ok(());
    }
    match send(
        gateway.alloc,
        net,
        gateway.upstream,
        message,
        gateway.retries,
    ) {
        Ok(_) => Ok(()),
        Err(WriteFault::Memory) => Err(AllocError),
        Err(WriteFault::TooLong(_)) => unreachable!(),
    }
}
