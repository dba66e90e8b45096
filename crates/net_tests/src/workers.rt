//! Two objects of a server are served at once: under one lock for all, or by one thread, the first call would wait in
//! vain. And an accept that fails ends the accepting.

ghost use Rattle.std.specs.Prelude.{◌<◌};
ghost use Rattle.dispatch_pool.specs.Lanes.{AreOf};

use crate::serving::{COUNTER, lanes_of, plan, stores};
use dispatch_pool::{Gate, LanePasses, Lanes, OpenGate, Served, serve_all};
use ice_messages::Call;
use ice_ports::{Listener, MemNet, Net};
use ice_types::List;
use object_adapter::Adapter;
use std::alloc::Global;
use std::process::Abort;
use std::sync::Wait;
use std::sync::atomic::{AtomicBool, AtomicU64, Ordering};
use std::test::Fail;
use std::thread::{Threads, yield_now};

/// The call on `a` waits until the call on `b` has been answered, or for so many looks.
#[derive(Drop)]
struct OneAfterTheOther {
    answered: AtomicBool,
    seen: AtomicU64,
}

impl Gate for OneAfterTheOther {
    fn before(&self, call: &Call) {
        if call.identity.name.as_str() == "a" {
            for _ in 0..1_000_000_000u32 {
                if self.answered.load(Ordering::SeqCst) {
                    self.seen.fetch_add(1, Ordering::SeqCst);
                    return;
                }
                yield_now();
            }
        }
    }

    fn after(&self, call: &Call) {
        if call.identity.name.as_str() == "b" {
            self.answered.store(true, Ordering::SeqCst);
        }
    }
}

/// `add` of 1 with id 1, on `a` and on `b`.
const ADD_TO_A: &str =
    "496365500100010000002600000001000000016100000361646400000a000000010101000000";

const ADD_TO_B: &str =
    "496365500100010000002600000001000000016200000361646400000a000000010101000000";

/// A net with two links to come, whose accepts with these numbers fail.
fn net_of(alloc: Global, fails: &[u64]) -> Result<MemNet, Fail> {
    let mut incoming = List::new(alloc);
    incoming.push(plan(alloc, ADD_TO_A)?)?;
    incoming.push(plan(alloc, ADD_TO_B)?)?;
    let fails = List::from_vec(Vec::from_slice(alloc, fails)?);
    Ok(MemNet::new(alloc, List::new(alloc), incoming, fails, false)?)
}

/// Serves what comes by the door, and closes the lanes. The door, how many links were accepted, whether an accept
/// failed, and whether the lanes were closed.
fn serve_door<D: Listener, G: Gate, R: Threads + Wait + Sync>(
    rt: &R,
    alloc: Global,
    lanes: Lanes,
    passes: LanePasses,
    gate: &G,
    door: D,
    workers: u32,
    connections: u64,
) -> (D, u64, bool, bool)
    requires of { AreOf lanes passes }
    requires workers { 0 < workers }
{
    let Served {
        door,
        passes,
        accepted,
        failed,
        starved,
    } = serve_all(
        rt,
        alloc,
        &lanes,
        passes,
        gate,
        door,
        workers,
        connections,
        9,
    );
    let closed = lanes.close(alloc, passes).is_ok();
    (door, accepted, failed, closed && !starved)
}

/// The same of what comes by the net, with lanes of these objects.
fn serve_net<R: Threads + Wait + Sync, G: Gate>(
    rt: &R,
    alloc: Global,
    objects: Adapter,
    gate: &G,
    workers: u32,
    connections: u64,
    net: &mut MemNet,
) -> Result<(u64, bool), Fail>
    requires { 0 < workers }
{
    let door = net.listen("localhost", 4100)?;
    let (lanes, passes) = lanes_of(alloc, objects)?;
    let (door, accepted, failed, closed) = serve_door(
        rt,
        alloc,
        lanes,
        passes,
        gate,
        door,
        workers,
        connections,
    );
    net.retire(door);
    if !closed {
        return Err(Fail::from("no memory, or a stray"));
    }
    Ok((accepted, failed))
}

/// How many talks are over and have a reply.
fn replied(net: &MemNet) -> usize {
    net.talks()
        .iter()
        .filter(|talk| talk.ended && talk.taken.len() == 43)
        .count()
}

/// How many links were accepted, whether an accept failed, and how many talks are over and have a reply, when so many
/// workers serve at most so many links, of which there are two, where these accepts fail.
fn serve_both<R: Threads + Wait + Sync, G: Gate>(
    rt: &R,
    alloc: Global,
    gate: &G,
    workers: u32,
    connections: u64,
    fails: &[u64],
) -> Result<(u64, bool, usize), Fail>
    requires { 0 < workers }
{
    let objects = stores(alloc, COUNTER, &["a", "b"])?;
    let mut net = net_of(alloc, fails)?;
    let (accepted, failed) = serve_net(rt, alloc, objects, gate, workers, connections, &mut net)?;
    Ok((accepted, failed, replied(&net)))
}

#[test]
fn gate_two_objects(rt: HostRuntime) -> Result<(), Fail> {
    let gate = OneAfterTheOther {
        answered: AtomicBool::new(false),
        seen: AtomicU64::new(0),
    };
    let served = serve_both(&rt, rt.alloc(), &gate, 2, 2, &[])?;
    assert!(rt; served == (2, false, 2));
    assert!(rt; gate.seen.load(Ordering::SeqCst) == 1);
    Ok(())
}

#[test]
fn a_failed_accept_ends_the_accepting(rt: HostRuntime) -> Result<(), Fail> {
    let served = serve_both(&rt, rt.alloc(), &OpenGate, 4, 2, &[1])?;
    assert!(rt; served == (1, true, 1));
    Ok(())
}
