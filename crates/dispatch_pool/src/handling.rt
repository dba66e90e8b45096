//! The calls of one message.

ghost use Rattle.std.specs.Prelude.{◌≡◌, ◌<◌, ◌^◌, ◌∷◌, ℕ, [], List, Bool, true, length, IfOk, OnOk};
ghost use Rattle.ice_ports.specs.Talks.{adds, silent};
ghost use Rattle.ice_ports.specs.declared.talk.Talk.{Talk};
ghost use Rattle.ice_messages.specs.declared.message.Message.TheVariants.{Request};
ghost use Rattle.ice_messages.specs.Messages.{SpellsMessage};
ghost use Rattle.retry_core.specs.declared.server.ServerState.TheVariants as states;
ghost use Rattle.talking.specs.Said.{Counts, fails_said};
ghost use Rattle.dispatch_pool.specs.Lanes.{AreOf};
ghost use Rattle.dispatch_pool.specs.Handled.{unasked};
ghost use Rattle.dispatch_pool.specs.Parts.{Handling, said_by};

use crate::dispatching::dispatch;
use crate::gate::Gate;
use crate::lanes::{LanePasses, Lanes};
use crate::saying::reply;
use ice_messages::Call;
use ice_ports::Link;
use retry_core::{Server, ServerEvent};
use std::alloc::{AllocError, Global};
use std::sync::Wait;

/// What sessions are served with.
#[derive(Drop)]
pub(crate) struct Service<'a, R: Wait, G: Gate> {
    pub(crate) rt: &'a R,
    pub(crate) alloc: Global,
    pub(crate) lanes: &'a Lanes,
    pub(crate) gate: &'a G,
}

/// Has the call of a request answered, and writes its reply where one is asked for. False where a write failed.
pub(crate) fn serve_request<R: Wait, L: Link, G: Gate>(
    service: &Service<'_, R, G>,
    passes: &mut LanePasses,
    link: &mut L,
    server: &mut Server,
    id: i32,
    call: &Call,
) -> Result<bool, AllocError>
    requires of { AreOf service.now.lanes.now passes.old }
    requires came { (bytes : List ℕ) × SpellsMessage bytes (Request id call.now) }
    requires dispatched { (asked : Bool) × (server.old ≡ states.Dispatched 0 asked) }
    ensures of { AreOf service.now.lanes.now passes.new }
    ensures did { (t : Talk) × (L.talk link.new ≡ adds (L.talk link.old) t)
        × Handling service.now.lanes.now.keys passes.old.passes.items passes.new.passes.items
        (record { id = id; call = call.now } ∷ []) t result }
    ensures counts { Counts (fails_said result) (L.Source.failures link.old, L.Sink.failures link.old)
        (L.Source.failures link.new, L.Sink.failures link.new) }
    ensures state { IfOk result (λ went. went ≡ true → server.new ≡ states.Reading) }
{
    let answer = dispatch(
        service.rt,
        service.alloc,
        service.lanes,
        passes,
        service.gate,
        call,
    )?;
    server.step(ServerEvent::Answered);
    let went = reply(service.alloc, link, id, answer)?;
    if !went {
        server.step(ServerEvent::Lost);
    }
    Ok(went)
}

/// Has each call of a batch answered, in order.
pub(crate) fn serve_batch<R: Wait, G: Gate>(
    service: &Service<'_, R, G>,
    passes: &mut LanePasses,
    server: &mut Server,
    calls: &[Call],
) -> Result<(), AllocError>
    requires of { AreOf service.now.lanes.now passes.old }
    requires reading { server.old ≡ states.Reading }
    requires few { length calls.now < 2 ^ 31 }
    ensures of { AreOf service.now.lanes.now passes.new }
    ensures did { Handling service.now.lanes.now.keys passes.old.passes.items passes.new.passes.items
        (unasked calls.now) silent (said_by result) }
    ensures state { OnOk result (server.new ≡ states.Reading) }
{
    server.step(ServerEvent::Request {
        calls: calls.len() as u32,
        reply: false,
    });
    for call in calls {
        let answer = dispatch(
            service.rt,
            service.alloc,
            service.lanes,
            passes,
            service.gate,
            call,
        )?;
        drop(answer);
        server.step(ServerEvent::Answered);
    }
    Ok(())
}
