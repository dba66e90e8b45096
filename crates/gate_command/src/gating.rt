//! Listening, and forwarding.

ghost use Rattle.std.specs.Prelude.{ℕ, ◌≡◌, List, Option};
ghost use Rattle.ice_types.specs.Object.{object_tables};
ghost use Rattle.ice_gateway.specs.Runs.{net_seen};
ghost use Rattle.node_commands.specs.Outside.{counts, outside};
ghost use Rattle.node_commands.specs.Ends.{end_of};
ghost use Rattle.gate_command.specs.Words.{IsWithin, seen};
ghost use Rattle.gate_command.specs.Gated.{Comes, Gated};
ghost use Rattle.gate_command.specs.Steps.{Asks, Listens, Serves, gate_of};

use crate::plan::{Plan, plan_of};
use crate::words::GateCommand;
use ice_gateway::{Gateway, gate_all};
use ice_ports::{Failed, Listener, Net, Shelf, Sink};
use node_commands::{Ending, MOST_MESSAGES, Outcome, end_with, report_ending, tell};
use std::alloc::Global;

/// Takes calls where the words say and forwards them, each once, to the servers of PROXY; answers the status to end
/// with. (Ice manual, "Automatic Retries".)
pub fn gate<H: Shelf, K: Sink, E: Sink, N: Net>(
    alloc: Global,
    command: GateCommand<'_>,
    shelf: &mut H,
    sink: &mut K,
    errors: &mut E,
    net: &mut N,
) -> u8
    requires { IsWithin (seen command) }
    ensures { (input : Option (List ℕ)) (source : ℕ) → Gated (seen command.entry)
        (outside (H.files shelf.old) input (K.taken sink.old) (E.taken errors.old)
        (counts (H.failures shelf.old) source (K.failures sink.old)) (E.failures errors.old))
        (outside (H.files shelf.new) input (K.taken sink.new) (E.taken errors.new)
        (counts (H.failures shelf.new) source (K.failures sink.new)) (E.failures errors.new))
        (net_seen (N.told net.old) (N.failures net.old) (N.listen_failures net.old))
        (net_seen (N.told net.new) (N.failures net.new) (N.listen_failures net.new)) result }
{
    let ending = end_of(alloc, command, shelf, sink, net);
    report_ending(ending, errors)
}

/// Does all of it, up to the line on why there is no success.
fn end_of<'a, H: Shelf, K: Sink, N: Net>(
    alloc: Global,
    command: GateCommand<'a>,
    shelf: &mut H,
    sink: &mut K,
    net: &mut N,
) -> Ending<'a>
    requires { IsWithin (seen command) }
    ensures { (input before after : Option (List ℕ)) (source error later : ℕ)
        → (bytes : List ℕ) × Comes (seen command.entry)
        (outside (H.files shelf.old) input (K.taken sink.old) before
        (counts (H.failures shelf.old) source (K.failures sink.old)) error)
        (outside (H.files shelf.new) input (K.taken sink.new) after
        (counts (H.failures shelf.new) source (K.failures sink.new)) later)
        (net_seen (N.told net.old) (N.failures net.old) (N.listen_failures net.old))
        (net_seen (N.told net.new) (N.failures net.new) (N.listen_failures net.new)) (end_of result bytes) }
{
    match plan_of(alloc, command, shelf) {
        Ok(plan) => {
            let ending = listen(alloc, command, &plan, sink, net);
            drop(plan);
            ending
        }
        Err(outcome) => Ending::Known(outcome),
    }
}

/// Listens where the words say, and serves there.
fn listen<K: Sink, N: Net>(
    alloc: Global,
    command: GateCommand<'_>,
    plan: &Plan,
    sink: &mut K,
    net: &mut N,
) -> Ending<'static>
    requires { plan.now.object ≡ object_tables }
    ensures { Asks (seen command.entry) (gate_of plan.now)
        (K.taken sink.old) (K.taken sink.new) (K.failures sink.old) (K.failures sink.new)
        (net_seen (N.told net.old) (N.failures net.old) (N.listen_failures net.old))
        (net_seen (N.told net.new) (N.failures net.new) (N.listen_failures net.new)) result }
{
    match net.listen(command.host, command.port) {
        Ok(listener) => gate_at(alloc, command, plan, listener, sink, net),
        Err(Failed) => Ending::NetworkFailed,
    }
}

/// Tells where the listener listens, and serves its links. A line that cannot be written takes no link.
fn gate_at<K: Sink, N: Net>(
    alloc: Global,
    command: GateCommand<'_>,
    plan: &Plan,
    listener: N::Listener,
    sink: &mut K,
    net: &mut N,
) -> Ending<'static>
    requires object { plan.now.object ≡ object_tables }
    requires new { (N.Listener.failures listener ≡ 0) }
    ensures { Listens (seen command.entry) (gate_of plan.now) (N.Listener.told listener) (N.Listener.port listener)
        (K.taken sink.old) (K.taken sink.new) (K.failures sink.old) (K.failures sink.new)
        (net_seen (N.told net.old) (N.failures net.old) (N.listen_failures net.old))
        (net_seen (N.told net.new) (N.failures net.new) (N.listen_failures net.new)) result }
{
    if tell(sink, "listening ", u64::from(listener.port())) {
        return gate_links(alloc, command, plan, listener, sink, net);
    }
    net.retire(listener);
    Ending::Known(Outcome::WriteFailed)
}

/// Serves the links of the listener, one after the other, and tells how many.
fn gate_links<K: Sink, N: Net>(
    alloc: Global,
    command: GateCommand<'_>,
    plan: &Plan,
    listener: N::Listener,
    sink: &mut K,
    net: &mut N,
) -> Ending<'static>
    requires object { plan.now.object ≡ object_tables }
    requires new { (N.Listener.failures listener ≡ 0) }
    ensures { Serves (seen command.entry) (gate_of plan.now) (N.Listener.told listener)
        (K.taken sink.old) (K.taken sink.new) (K.failures sink.old) (K.failures sink.new)
        (net_seen (N.told net.old) (N.failures net.old) (N.listen_failures net.old))
        (net_seen (N.told net.new) (N.failures net.new) (N.listen_failures net.new)) result }
{
    let gateway = Gateway {
        alloc,
        object: &plan.object,
        schema: &plan.schema,
        interface: plan.interface,
        upstream: &plan.upstream,
        retries: plan.retries,
    };
    let gated = gate_all(
        &gateway,
        net,
        listener,
        u64::from(command.connections),
        MOST_MESSAGES,
    );
    let ice_gateway::Gated {
        door,
        accepted,
        failed,
        starved,
    } = gated;
    net.retire(door);
    end_with(accepted, failed, starved, sink)
}
