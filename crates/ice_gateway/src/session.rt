//! One connection that is served, from its validate to its end.

ghost use Rattle.std.specs.Prelude.{◌≡◌, ◌++◌, [], ℕ, List, None, IfOk, IfSome};
ghost use Rattle.ice_types.specs.Object.{object_tables};
ghost use Rattle.ice_ports.specs.Talks.{adds};
ghost use Rattle.ice_ports.specs.declared.talk.Talk.{Talk};
ghost use Rattle.ice_messages.specs.declared.message.Message.TheVariants.{Request};
ghost use Rattle.ice_messages.specs.Messages.{SpellsMessage};
ghost use Rattle.ice_client.specs.ClientDid.{Tried};
ghost use Rattle.talking.specs.Hearing.{IsGoing};
ghost use Rattle.talking.specs.Said.{Counts, fails_said};
ghost use Rattle.talking.specs.Ends.{end_of, is_link_failed, fails_next};
ghost use Rattle.ice_gateway.specs.Gate.{seen};
ghost use Rattle.ice_gateway.specs.Runs.{Ran, net_seen};
ghost use Rattle.ice_gateway.specs.GateDid.{GateDid};
ghost use Rattle.ice_gateway.specs.Parts.{Handling, Next};

use crate::forwarding::{answer_request, forward_batch, forward_oneway};
use crate::gateway::Gateway;
use ice_messages::{Call, Frames, Message, server_fault};
use ice_ports::{Link, Net};
use std::alloc::AllocError;
use talking::{End, Heard, end_behind_reply, hear, say};

/// Forwards a request, and writes its answer where one is asked for. False where a write failed.
fn handle_request<N: Net, L: Link>(
    gateway: &Gateway<'_>,
    net: &mut N,
    link: &mut L,
    id: i32,
    call: &Call,
) -> Result<bool, AllocError>
    requires object { gateway.now.object.now ≡ object_tables }
    requires came { (bytes : List ℕ) × SpellsMessage bytes (Request id call.now) }
    ensures did { (t : Talk) × (runs : List (List Tried)) × (L.talk link.new ≡ adds (L.talk link.old) t)
        × Ran gateway.now.upstream.now.endpoints runs
        (net_seen (N.told net.old) (N.failures net.old) (N.listen_failures net.old))
        (net_seen (N.told net.new) (N.failures net.new) (N.listen_failures net.new))
        × Handling (seen gateway.now) (Request id call.now) runs t result }
    ensures counts { Counts (fails_said result) (L.Source.failures link.old, L.Sink.failures link.old)
        (L.Source.failures link.new, L.Sink.failures link.new) }
{
    if id == 0 {
        forward_oneway(gateway, net, call)?;
        return Ok(true);
    }
    let answer = answer_request(gateway, net, call)?;
    say(gateway.alloc, link, &Message::Reply { id, answer })
}

/// Handles a message. None where the connection goes on.
fn handle<N: Net, L: Link>(
    gateway: &Gateway<'_>,
    net: &mut N,
    link: &mut L,
    message: &Message,
) -> Result<Option<End>, AllocError>
    requires object { gateway.now.object.now ≡ object_tables }
    requires spelled { (first : List ℕ) × SpellsMessage first message.now }
    ensures did { (t : Talk) × (runs : List (List Tried)) × (L.talk link.new ≡ adds (L.talk link.old) t)
        × Ran gateway.now.upstream.now.endpoints runs
        (net_seen (N.told net.old) (N.failures net.old) (N.listen_failures net.old))
        (net_seen (N.told net.new) (N.failures net.new) (N.listen_failures net.new))
        × (t.given ≡ [])
        × ((bytes held first : List ℕ) → bytes ≡ first ++ held → SpellsMessage first message.now
        → Next (seen gateway.now) runs t bytes held result) }
    ensures counts { Counts (fails_next result) (L.Source.failures link.old, L.Sink.failures link.old)
        (L.Source.failures link.new, L.Sink.failures link.new) }
{
    if let Some(fault) = server_fault(message) {
        return Ok(Some(End::PeerBroke(fault)));
    }
    match message {
        Message::Request { id, call } => {
            let went = handle_request(gateway, net, link, *id, call)?;
            Ok(end_behind_reply(went))
        }
        Message::Batch { calls } => {
            forward_batch(gateway, net, calls.as_slice())?;
            Ok(None)
        }
        Message::Validate => Ok(None),
        Message::Close => Ok(Some(End::PeerClosed)),
        Message::Reply { .. } => unreachable!(),
    }
}

/// Takes the next message, and handles it. None where the connection goes on.
fn handle_next<N: Net, L: Link>(
    gateway: &Gateway<'_>,
    net: &mut N,
    link: &mut L,
    frames: &mut Frames,
) -> Result<Option<End>, AllocError>
    requires object { gateway.now.object.now ≡ object_tables }
    requires going { IsGoing frames.old }
    ensures did { (t : Talk) × (runs : List (List Tried)) × (L.talk link.new ≡ adds (L.talk link.old) t)
        × Ran gateway.now.upstream.now.endpoints runs
        (net_seen (N.told net.old) (N.failures net.old) (N.listen_failures net.old))
        (net_seen (N.told net.new) (N.failures net.new) (N.listen_failures net.new))
        × Next (seen gateway.now) runs t (frames.old.bytes ++ t.given) frames.new.bytes result }
    ensures counts { Counts (fails_next result) (L.Source.failures link.old, L.Sink.failures link.old)
        (L.Source.failures link.new, L.Sink.failures link.new) }
    ensures going { IfOk result (λ end. end ≡ None → IsGoing frames.new) }
{
    match hear(link, frames)? {
        Heard::Message(message) => handle(gateway, net, link, &message),
        Heard::Broken(fault) => Ok(Some(End::PeerBroke(fault))),
        Heard::Ended => Ok(Some(End::PeerEnded)),
        Heard::Failed => Ok(Some(End::LinkFailed)),
    }
}

/// Serves a connection from its validate on.
fn handle_all<N: Net, L: Link>(
    gateway: &Gateway<'_>,
    net: &mut N,
    link: &mut L,
    messages: u64,
) -> Result<End, AllocError>
    requires { gateway.now.object.now ≡ object_tables }
    ensures did { (t : Talk) × (runs : List (List Tried)) × (L.talk link.new ≡ adds (L.talk link.old) t)
        × Ran gateway.now.upstream.now.endpoints runs
        (net_seen (N.told net.old) (N.failures net.old) (N.listen_failures net.old))
        (net_seen (N.told net.new) (N.failures net.new) (N.listen_failures net.new))
        × GateDid (seen gateway.now) messages t runs (end_of result) }
    ensures counts { Counts (is_link_failed result) (L.Source.failures link.old, L.Sink.failures link.old)
        (L.Source.failures link.new, L.Sink.failures link.new) }
{
    if !say(gateway.alloc, link, &Message::Validate)? {
        return Ok(End::LinkFailed);
    }
    let mut frames = Frames::new(gateway.alloc);
    for taken in 0..messages {
        if let Some(end) = handle_next(gateway, net, link, &mut frames)? {
            return Ok(end);
        }
    }
    if say(gateway.alloc, link, &Message::Close)? {
        Ok(End::Enough)
    } else {
        Ok(End::LinkFailed)
    }
}

/// Serves a connection, and shuts it: writes a validate message, takes at most so many messages, one by one, forwards
/// each that is to be forwarded, and writes the answer of a request whose id is not 0 before it reads on. A close
/// message is written only after so many messages. After out of memory the link is shut too. (Ice manual, "The Ice
/// Protocol" and "Protocol State Diagrams".)
pub fn gate_connection<N: Net, L: Link>(
    gateway: &Gateway<'_>,
    net: &mut N,
    link: &mut L,
    messages: u64,
) -> Result<End, AllocError>
    requires { gateway.now.object.now ≡ object_tables }
    ensures did { (t : Talk) × (runs : List (List Tried)) × (L.talk link.new ≡ adds (L.talk link.old) t)
        × Ran gateway.now.upstream.now.endpoints runs
        (net_seen (N.told net.old) (N.failures net.old) (N.listen_failures net.old))
        (net_seen (N.told net.new) (N.failures net.new) (N.listen_failures net.new))
        × GateDid (seen gateway.now) messages t runs (end_of result) }
    ensures counts { Counts (is_link_failed result) (L.Source.failures link.old, L.Sink.failures link.old)
        (L.Source.failures link.new, L.Sink.failures link.new) }
    ensures shut { IfSome (L.Source.left link.new) (λ left. left ≡ []) }
{
    let end = handle_all(gateway, net, link, messages);
    link.shut();
    end
}
