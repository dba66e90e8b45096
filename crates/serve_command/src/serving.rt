//! Listening, and serving.

ghost use Rattle.std.specs.Prelude.{ℕ, ◌≡◌, ◌<◌, List, Option};
ghost use Rattle.dispatch_pool.specs.Lanes.{AreOf, AreWhole};
ghost use Rattle.node_commands.specs.Outside.{counts, outside};
ghost use Rattle.node_commands.specs.Words.{Word};
ghost use Rattle.node_commands.specs.Ends.{end_of};
ghost use Rattle.serve_command.specs.Served.{Comes, Served, network};
ghost use Rattle.serve_command.specs.Steps.{Asks, Listens, Serves};
ghost use Rattle.serve_command.specs.Words.{ServeForm, command_of};

use crate::adapters::lanes_of;
use crate::words::ServeCommand;
use dispatch_pool::{LanePasses, Lanes, OpenGate, serve_all};
use ice_ports::{Failed, Listener, Net, Shelf, Sink};
use node_commands::{Ending, MOST_MESSAGES, Outcome, end_with, report_ending, tell};
use std::alloc::Global;
use std::sync::Wait;
use std::thread::Threads;

/// Serves the objects of the words, and answers the status to end with.
pub fn serve<R: Threads + Wait + Sync, H: Shelf, K: Sink, E: Sink, N: Net>(
    rt: &R,
    alloc: Global,
    command: ServeCommand<'_>,
    shelf: &mut H,
    sink: &mut K,
    errors: &mut E,
    net: &mut N,
) -> u8
    requires { (words : List Word) × ServeForm words (command_of command) }
    ensures { (input : Option (List ℕ)) (source : ℕ) → Served (command_of command.entry)
        (outside (H.files shelf.old) input (K.taken sink.old) (E.taken errors.old)
        (counts (H.failures shelf.old) source (K.failures sink.old)) (E.failures errors.old))
        (outside (H.files shelf.new) input (K.taken sink.new) (E.taken errors.new)
        (counts (H.failures shelf.new) source (K.failures sink.new)) (E.failures errors.new))
        (network (N.told net.old) (N.listen_failures net.old))
        (network (N.told net.new) (N.listen_failures net.new)) result }
{
    let ending = end_of(rt, alloc, &command, shelf, sink, net);
    drop(command);
    report_ending(ending, errors)
}

/// Serves the objects of the words.
fn end_of<'a, R: Threads + Wait + Sync, H: Shelf, K: Sink, N: Net>(
    rt: &R,
    alloc: Global,
    command: &ServeCommand<'a>,
    shelf: &mut H,
    sink: &mut K,
    net: &mut N,
) -> Ending<'a>
    requires { (words : List Word) × ServeForm words (command_of command.now) }
    ensures { (input before after : Option (List ℕ)) (source error later : ℕ)
        → (bytes : List ℕ) × Comes (command_of command.now)
        (outside (H.files shelf.old) input (K.taken sink.old) before
        (counts (H.failures shelf.old) source (K.failures sink.old)) error)
        (outside (H.files shelf.new) input (K.taken sink.new) after
        (counts (H.failures shelf.new) source (K.failures sink.new)) later)
        (network (N.told net.old) (N.listen_failures net.old))
        (network (N.told net.new) (N.listen_failures net.new)) (end_of result bytes) }
{
    match lanes_of(alloc, command, shelf) {
        Ok((lanes, passes)) => {
            let ending = listen(rt, alloc, command, &lanes, passes, sink, net);
            drop(lanes);
            ending
        }
        Err(outcome) => Ending::Known(outcome),
    }
}

/// Listens where the words say, and serves there.
fn listen<R: Threads + Wait + Sync, K: Sink, N: Net>(
    rt: &R,
    alloc: Global,
    command: &ServeCommand<'_>,
    lanes: &Lanes,
    passes: LanePasses,
    sink: &mut K,
    net: &mut N,
) -> Ending<'static>
    requires of { AreOf lanes.now passes }
    requires whole { AreWhole passes }
    requires workers { 0 < command.now.workers }
    ensures { Asks (command_of command.now) lanes.now passes
        (K.taken sink.old) (K.taken sink.new) (K.failures sink.old) (K.failures sink.new)
        (network (N.told net.old) (N.listen_failures net.old))
        (network (N.told net.new) (N.listen_failures net.new)) result }
{
    match net.listen(command.host, command.port) {
        Ok(listener) => serve_at(rt, alloc, command, lanes, passes, listener, sink, net),
        Err(Failed) => {
            drop(passes);
            Ending::NetworkFailed
        }
    }
}

/// Tells where the listener listens, and serves its links. A line that cannot be written takes no link.
fn serve_at<R: Threads + Wait + Sync, K: Sink, N: Net>(
    rt: &R,
    alloc: Global,
    command: &ServeCommand<'_>,
    lanes: &Lanes,
    passes: LanePasses,
    listener: N::Listener,
    sink: &mut K,
    net: &mut N,
) -> Ending<'static>
    requires of { AreOf lanes.now passes }
    requires whole { AreWhole passes }
    requires workers { 0 < command.now.workers }
    requires new { (N.Listener.failures listener ≡ 0) }
    ensures { Listens (command_of command.now) lanes.now passes (N.Listener.told listener) (N.Listener.port listener)
        (K.taken sink.old) (K.taken sink.new) (K.failures sink.old) (K.failures sink.new)
        (network (N.told net.old) (N.listen_failures net.old))
        (network (N.told net.new) (N.listen_failures net.new)) result }
{
    if tell(sink, "listening ", u64::from(listener.port())) {
        return serve_links(rt, alloc, command, lanes, passes, listener, sink, net);
    }
    drop(passes);
    net.retire(listener);
    Ending::Known(Outcome::WriteFailed)
}

/// Serves the links of the listener, and tells how many.
fn serve_links<R: Threads + Wait + Sync, K: Sink, N: Net>(
    rt: &R,
    alloc: Global,
    command: &ServeCommand<'_>,
    lanes: &Lanes,
    passes: LanePasses,
    listener: N::Listener,
    sink: &mut K,
    net: &mut N,
) -> Ending<'static>
    requires of { AreOf lanes.now passes }
    requires whole { AreWhole passes }
    requires workers { 0 < command.now.workers }
    requires new { (N.Listener.failures listener ≡ 0) }
    ensures { Serves (command_of command.now) lanes.now passes (N.Listener.told listener)
        (K.taken sink.old) (K.taken sink.new) (K.failures sink.old) (K.failures sink.new)
        (network (N.told net.old) (N.listen_failures net.old))
        (network (N.told net.new) (N.listen_failures net.new)) result }
{
    let served = serve_all(
        rt,
        alloc,
        lanes,
        passes,
        &OpenGate,
        listener,
        command.workers,
        u64::from(command.connections),
        MOST_MESSAGES,
    );
    let dispatch_pool::Served {
        door,
        passes,
        accepted,
        failed,
        starved,
    } = served;
    drop(passes);
    net.retire(door);
    end_with(accepted, failed, starved, sink)
}
