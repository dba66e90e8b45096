//! One connection that is served, from its validate to its end.

ghost use Rattle.std.specs.Prelude.{◌≡◌, ◌++◌, [], ℕ, List, None, IfOk, IfSome};
ghost use Rattle.ice_ports.specs.Talks.{adds};
ghost use Rattle.ice_ports.specs.declared.talk.Talk.{Talk};
ghost use Rattle.ice_messages.specs.Framing.{nothing_held};
ghost use Rattle.ice_messages.specs.Messages.{SpellsMessage};
ghost use Rattle.retry_core.specs.declared.server.ServerState.TheVariants as states;
ghost use Rattle.talking.specs.Hearing.{IsGoing};
ghost use Rattle.talking.specs.Said.{Counts};
ghost use Rattle.talking.specs.Ends.{end_of, is_link_failed, fails_next};
ghost use Rattle.dispatch_pool.specs.Lanes.{AreOf};
ghost use Rattle.dispatch_pool.specs.Turns.{Grew};
ghost use Rattle.dispatch_pool.specs.Handled.{Handled, turns_of};
ghost use Rattle.dispatch_pool.specs.ServerDid.{ServerDid};
ghost use Rattle.dispatch_pool.specs.Parts.{Next, Took};

use crate::gate::Gate;
use crate::handling::{Service, serve_batch, serve_request};
use crate::lanes::{LanePasses, Lanes};
use crate::saying::say;
use ice_messages::{Frames, Message, server_fault};
use ice_ports::Link;
use retry_core::{Server, ServerEvent};
use std::alloc::{AllocError, Global};
use std::sync::Wait;
use talking::{End, Heard, end_behind_reply, hear};

/// Handles a message. None where the connection goes on.
fn serve_message<R: Wait, L: Link, G: Gate>(
    service: &Service<'_, R, G>,
    passes: &mut LanePasses,
    link: &mut L,
    server: &mut Server,
    message: &Message,
) -> Result<Option<End>, AllocError>
    requires of { AreOf service.now.lanes.now passes.old }
    requires reading { server.old ≡ states.Reading }
    requires spelled { (first : List ℕ) × SpellsMessage first message.now }
    ensures of { AreOf service.now.lanes.now passes.new }
    ensures did { (t : Talk) × (L.talk link.new ≡ adds (L.talk link.old) t) × (t.given ≡ [])
        × ((bytes held first : List ℕ) → bytes ≡ first ++ held → SpellsMessage first message.now
        → Next service.now.lanes.now.keys passes.old.passes.items passes.new.passes.items t bytes held result) }
    ensures counts { Counts (fails_next result) (L.Source.failures link.old, L.Sink.failures link.old)
        (L.Source.failures link.new, L.Sink.failures link.new) }
    ensures state { IfOk result (λ end. end ≡ None → server.new ≡ states.Reading) }
{
    if let Some(fault) = server_fault(message) {
        server.step(ServerEvent::Broken);
        return Ok(Some(End::PeerBroke(fault)));
    }
    match message {
        Message::Request { id, call } => {
            server.step(ServerEvent::Request {
                calls: 1,
                reply: *id != 0,
            });
            let went = serve_request(service, passes, link, server, *id, call)?;
            Ok(end_behind_reply(went))
        }
        Message::Batch { calls } => {
            serve_batch(service, passes, server, calls.as_slice())?;
            Ok(None)
        }
        Message::Validate => {
            server.step(ServerEvent::Heartbeat);
            Ok(None)
        }
        Message::Close => {
            server.step(ServerEvent::CloseRead);
            Ok(Some(End::PeerClosed))
        }
        Message::Reply { .. } => unreachable!(),
    }
}

/// Takes the next message, and handles it. None where the connection goes on.
fn serve_next<R: Wait, L: Link, G: Gate>(
    service: &Service<'_, R, G>,
    passes: &mut LanePasses,
    link: &mut L,
    server: &mut Server,
    frames: &mut Frames,
) -> Result<Option<End>, AllocError>
    requires of { AreOf service.now.lanes.now passes.old }
    requires reading { server.old ≡ states.Reading }
    requires going { IsGoing frames.old }
    ensures of { AreOf service.now.lanes.now passes.new }
    ensures did { (t : Talk) × (L.talk link.new ≡ adds (L.talk link.old) t)
        × Next service.now.lanes.now.keys passes.old.passes.items passes.new.passes.items t
        (frames.old.bytes ++ t.given) frames.new.bytes result }
    ensures counts { Counts (fails_next result) (L.Source.failures link.old, L.Sink.failures link.old)
        (L.Source.failures link.new, L.Sink.failures link.new) }
    ensures state { IfOk result (λ end. end ≡ None → server.new ≡ states.Reading) }
    ensures going { IfOk result (λ end. end ≡ None → IsGoing frames.new) }
{
    match hear(link, frames)? {
        Heard::Message(message) => {
            let next = serve_message(service, passes, link, server, &message);
            drop(message);
            next
        }
        Heard::Broken(fault) => {
            server.step(ServerEvent::Broken);
            Ok(Some(End::PeerBroke(fault)))
        }
        Heard::Ended => {
            server.step(ServerEvent::Lost);
            Ok(Some(End::PeerEnded))
        }
        Heard::Failed => {
            server.step(ServerEvent::Lost);
            Ok(Some(End::LinkFailed))
        }
    }
}

/// Says validate, takes so many messages, and handles them. None where the connection goes on.
fn take_all<R: Wait, L: Link, G: Gate>(
    service: &Service<'_, R, G>,
    passes: &mut LanePasses,
    link: &mut L,
    server: &mut Server,
    frames: &mut Frames,
    messages: u64,
) -> Result<Option<End>, AllocError>
    requires of { AreOf service.now.lanes.now passes.old }
    requires reading { server.old ≡ states.Reading }
    requires fresh { frames.old ≡ nothing_held }
    ensures of { AreOf service.now.lanes.now passes.new }
    ensures did { (t : Talk) × (L.talk link.new ≡ adds (L.talk link.old) t)
        × Took service.now.lanes.now.keys passes.old.passes.items passes.new.passes.items messages t
        frames.new.bytes result }
    ensures counts { Counts (fails_next result) (L.Source.failures link.old, L.Sink.failures link.old)
        (L.Source.failures link.new, L.Sink.failures link.new) }
    ensures state { IfOk result (λ end. end ≡ None → server.new ≡ states.Reading) }
{
    if !say(service.alloc, link, Message::Validate)? {
        server.step(ServerEvent::Lost);
        return Ok(Some(End::LinkFailed));
    }
    for taken in 0..messages {
        if let Some(end) = serve_next(service, passes, link, server, frames)? {
            return Ok(Some(end));
        }
    }
    Ok(None)
}

/// Serves a connection from its validate on.
fn serve<R: Wait, L: Link, G: Gate>(
    service: &Service<'_, R, G>,
    passes: &mut LanePasses,
    link: &mut L,
    server: &mut Server,
    messages: u64,
) -> Result<End, AllocError>
    requires of { AreOf service.now.lanes.now passes.old }
    requires reading { server.old ≡ states.Reading }
    ensures of { AreOf service.now.lanes.now passes.new }
    ensures did { (t : Talk) × (handled : List Handled) × (L.talk link.new ≡ adds (L.talk link.old) t)
        × Grew passes.old passes.new (turns_of handled)
        × ServerDid service.now.lanes.now.keys messages t handled (end_of result) }
    ensures counts { Counts (is_link_failed result) (L.Source.failures link.old, L.Sink.failures link.old)
        (L.Source.failures link.new, L.Sink.failures link.new) }
{
    let mut frames = Frames::new(service.alloc);
    let taken = take_all(service, passes, link, server, &mut frames, messages);
    drop(frames);
    if let Some(end) = taken? {
        return Ok(end);
    }
    server.step(ServerEvent::EnoughRead);
    if say(service.alloc, link, Message::Close)? {
        Ok(End::Enough)
    } else {
        Ok(End::LinkFailed)
    }
}

/// Serves a connection, and shuts it: writes a validate message, takes at most so many messages, one by one, has the
/// calls of each dispatched in order, and writes the reply of a request whose id is not 0 before it reads on. A close
/// message is written only after so many messages. After out of memory the link is shut too. (Ice manual, "The Ice
/// Protocol", "Protocol State Diagrams".)
pub fn serve_connection<R: Wait, L: Link, G: Gate>(
    rt: &R,
    alloc: Global,
    lanes: &Lanes,
    passes: &mut LanePasses,
    gate: &G,
    link: &mut L,
    messages: u64,
) -> Result<End, AllocError>
    requires { AreOf lanes.now passes.old }
    ensures of { AreOf lanes.now passes.new }
    ensures did { (t : Talk) × (handled : List Handled) × (L.talk link.new ≡ adds (L.talk link.old) t)
        × Grew passes.old passes.new (turns_of handled)
        × ServerDid lanes.now.keys messages t handled (end_of result) }
    ensures counts { Counts (is_link_failed result) (L.Source.failures link.old, L.Sink.failures link.old)
        (L.Source.failures link.new, L.Sink.failures link.new) }
    ensures shut { IfSome (L.Source.left link.new) (λ left. left ≡ []) }
{
    let service = Service {
        rt,
        alloc,
        lanes,
        gate,
    };
    let mut server = Server::new();
    server.step(ServerEvent::Opened);
    let end = serve(&service, passes, link, &mut server, messages);
    link.shut();
    end
}
