//! Serving with workers.

ghost use Rattle.std.specs.Prelude.{◌≡◌, ◌⊎◌, ℕ, ◌+◌, ◌<◌, ◌≤◌, [], Some, false, true, length, slice_index_or};
ghost use Rattle.ice_ports.specs.Failures.{count_after};
ghost use Rattle.dispatch_pool.specs.Lanes.{AreOf, AreWhole};
ghost use Rattle.talking.specs.Told.{DoorTells, NoneToCome};
ghost use Rattle.dispatch_pool.specs.Endings.{has_failed, has_run_out};
ghost use Rattle.dispatch_pool.specs.Sessions.{callers, split_off, ServedWith, HasServed};
ghost use Rattle.dispatch_pool.specs.Sessions.{AllServed};
ghost use Rattle.dispatch_pool.specs.Shares.{SameShares, all_parts, parts_at};
ghost use Rattle.dispatch_pool.specs.declared.ending.Ending.TheVariants as endings;

use crate::door::Door;
use crate::ending::Ending;
use crate::gate::Gate;
use crate::lanes::{LanePasses, Lanes};
use crate::opening::Opening;
use crate::worker::Worker;
use ice_ports::Listener;
use std::alloc::Global;
use std::marker::Brand;
use std::sync::ledger::{Blank, Ledger, Share};
use std::sync::{Mutex, Wait};
use std::thread;
use std::thread::Threads;

/// What serving with workers came to.
pub struct Served<D: Listener> {
    /// The listener, with the links of all sessions gathered.
    pub door: D,
    /// The caller's passes, with those of all workers joined.
    pub passes: LanePasses,
    /// How many links were accepted.
    pub accepted: u64,
    /// An accept failed, which ended the accepting.
    pub failed: bool,
    /// Memory lacked.
    pub starved: bool,
}

/// Workers, as many as asked for, each with passes and a tray of its own; and whether memory lacked for so many.
fn hire<D: Listener, L: Ledger, O: Opening>(
    alloc: Global,
    lanes: &Lanes,
    passes: &mut LanePasses,
    listener: &D,
    rest: &mut Share<L>,
    count: usize,
    messages: u64,
) -> (Vec<Worker<D, L>>, bool)
    requires of { AreOf lanes.now passes.old }
    requires from { ServedWith callers O.passes passes.old [] }
    requires tells { DoorTells O.first 0 (D.told listener.now) [] }
    requires parts { (count < rest.old.parts) × (rest.old.amount ≡ 0) }
    ensures of { AreOf lanes.now passes.new }
    ensures from { ServedWith callers O.passes passes.new [] }
    ensures parts { rest.new.parts + length result.0.items ≡ rest.old.parts }
    ensures amount { rest.new.amount ≡ 0 }
    ensures some { 0 < rest.new.parts }
    ensures all { result.1 ≡ false → length result.0.items ≡ count }
    ensures shares { (i k : ℕ) → parts_at passes.new i k + all_parts result.0.items (λ w. w.passes) i k
        ≡ parts_at passes.old i k }
    ensures each { (i : ℕ) (d : _) → i < length result.0.items
        → HasServed split_off lanes.now messages O.first O.passes
        (D.Tray.told (slice_index_or result.0.items i d).tray) (slice_index_or result.0.items i d).passes
        (slice_index_or result.0.items i d).mine.amount (slice_index_or result.0.items i d).starved }
    ensures parts_each { (i : ℕ) (d : _) → i < length result.0.items
        → (slice_index_or result.0.items i d).mine.parts ≡ 1 }
{
    let mut workers = Vec::new(alloc);
    if workers.reserve(count).is_err() {
        return (workers, true);
    }
    for i in 0..count {
        match lanes.split(alloc, passes) {
            Ok(theirs) => workers.push_reserved(Worker {
                tray: listener.tray(),
                passes: theirs,
                mine: rest.split_off(1, 0),
                starved: false,
            }),
            Err(_) => return (workers, true),
        }
    }
    (workers, false)
}

/// All workers serve.
fn serve_many<
    D: Listener,
    A: Ledger + Send + Sync,
    L: Ledger + Send + Sync,
    O: Opening + Send + Sync,
    G: Gate,
    R: Threads + Wait + Sync,
>(
    rt: &R,
    alloc: Global,
    lanes: &Lanes,
    gate: &G,
    door: &Mutex<Door<D, A, L, O>>,
    workers: &mut [Worker<D, L>],
    count: usize,
    messages: u64,
)
    requires count { 0 < count }
    requires each { (i : ℕ) (d : _) → i < length workers.old
        → HasServed split_off lanes.now messages O.first O.passes
        (D.Tray.told (slice_index_or workers.old i d).tray) (slice_index_or workers.old i d).passes
        (slice_index_or workers.old i d).mine.amount (slice_index_or workers.old i d).starved }
    ensures each { (i : ℕ) (d : _) → i < length workers.old
        → HasServed split_off lanes.now messages O.first O.passes
        (D.Tray.told (slice_index_or workers.new i d).tray) (slice_index_or workers.new i d).passes
        (slice_index_or workers.new i d).mine.amount (slice_index_or workers.new i d).starved }
    ensures parts_each { (i : ℕ) (d : _) → i < length workers.old
        → (slice_index_or workers.new i d).mine.parts ≡ (slice_index_or workers.old i d).mine.parts }
    ensures shares_each { (i : ℕ) (d : _) → i < length workers.old
        → SameShares (slice_index_or workers.old i d).passes (slice_index_or workers.new i d).passes }
{
    thread::for_each_mut(
        rt,
        workers,
        count,
        &|_, worker|
            requires { HasServed split_off lanes.now messages O.first O.passes
                (D.Tray.told worker.now.tray) worker.now.passes worker.now.mine.amount worker.now.starved }
            ensures { HasServed split_off lanes.entry.now messages O.first O.passes
                (D.Tray.told worker.exit.now.tray) worker.exit.now.passes
                worker.exit.now.mine.amount worker.exit.now.starved
                × (worker.exit.now.mine.parts ≡ worker.entry.now.mine.parts)
                × SameShares worker.entry.now.passes worker.exit.now.passes }
        { worker.work(rt, alloc, lanes, gate, door, messages) },
    );
}

/// Gathers the trays of all workers, and joins their passes. Says whether memory lacked.
fn gather_all<D: Listener, L: Ledger, O: Opening>(
    lanes: &Lanes,
    listener: &mut D,
    passes: &mut LanePasses,
    mine: &mut Share<L>,
    workers: Vec<Worker<D, L>>,
    starved: bool,
    messages: u64,
) -> bool
    requires done { (given : ℕ) × AllServed lanes.now messages O.first O.passes given (D.told listener.old) passes.old
        mine.old.amount starved }
    requires each { (i : ℕ) (d : _) → i < length workers.items
        → HasServed split_off lanes.now messages O.first O.passes
        (D.Tray.told (slice_index_or workers.items i d).tray) (slice_index_or workers.items i d).passes
        (slice_index_or workers.items i d).mine.amount (slice_index_or workers.items i d).starved }
    requires parts_each { (i : ℕ) (d : _) → i < length workers.items
        → (slice_index_or workers.items i d).mine.parts ≡ 1 }
    ensures done { (given : ℕ)
        → AllServed lanes.now messages O.first O.passes given (D.told listener.old) passes.old mine.old.amount starved
        → AllServed lanes.now messages O.first O.passes given (D.told listener.new) passes.new mine.new.amount result }
    ensures of { AreOf lanes.now passes.new }
    ensures parts { mine.new.parts ≡ mine.old.parts + length workers.items }
    ensures shares { (i k : ℕ) → parts_at passes.new i k
        ≡ parts_at passes.old i k + all_parts workers.items (λ w. w.passes) i k }
    ensures failures { D.failures listener.new ≡ D.failures listener.old }
    ensures nones { D.nones listener.new ≡ D.nones listener.old }
    ensures to_come { NoneToCome (D.told listener.old) → NoneToCome (D.told listener.new) }
    ensures starved { result ≡ false → starved ≡ false }
{
    let mut starved = starved;
    let mut workers = workers;
    while let Some(worker) = workers.pop() {
        let Worker {
            tray,
            passes: theirs,
            mine: share,
            starved: lacked,
        } = worker;
        mine.merge(share);
        lanes.join(passes, theirs);
        listener.gather(tray);
        starved = starved | lacked;
    }
    workers.destroy_empty();
    starved
}

fn has_failed(ending: Ending) -> bool
    ensures { result ≡ has_failed ending }
{
    match ending {
        Ending::Failed => true,
        Ending::Open | Ending::Reached | Ending::NoMore => false,
    }
}

/// Gathers all trays, and joins all passes into the caller's.
fn finish<D: Listener, A: Ledger, L: Ledger, O: Opening>(
    lanes: &Lanes,
    door: Door<D, A, L, O>,
    caller: Worker<D, L>,
    workers: Vec<Worker<D, L>>,
    whole: Share<A>,
    messages: u64,
) -> Served<D>
    requires served { HasServed callers lanes.now messages O.first O.passes
        (D.Tray.told caller.tray) caller.passes caller.mine.amount caller.starved }
    requires parts { caller.mine.parts + length workers.items ≡ L.parts }
    requires whole { whole.parts ≡ A.parts }
    requires each { (i : ℕ) (d : _) → i < length workers.items
        → HasServed split_off lanes.now messages O.first O.passes
        (D.Tray.told (slice_index_or workers.items i d).tray) (slice_index_or workers.items i d).passes
        (slice_index_or workers.items i d).mine.amount (slice_index_or workers.items i d).starved }
    requires parts_each { (i : ℕ) (d : _) → i < length workers.items
        → (slice_index_or workers.items i d).mine.parts ≡ 1 }
    ensures done { AllServed lanes.now messages O.first O.passes result.accepted (D.told result.door) result.passes
        result.accepted result.starved }
    ensures shares { (i k : ℕ) → parts_at result.passes i k
        ≡ parts_at caller.passes i k + all_parts workers.items (λ w. w.passes) i k }
    ensures few { result.accepted ≤ whole.amount }
    ensures failed { result.failed ≡ has_failed door.ending }
    ensures failures { D.failures result.door ≡ count_after O.failures result.failed }
    ensures nones { D.nones result.door ≡ count_after O.nones (has_run_out door.ending) }
    ensures reached { door.ending ≡ endings.Reached → result.accepted ≡ whole.amount }
    ensures no_more { door.ending ≡ endings.NoMore → NoneToCome (D.told result.door) }
    ensures starved { result.starved ≡ false → caller.starved ≡ false }
{
    let Door {
        mut listener,
        wanted: _,
        accepted,
        ending,
        mut asked,
        mut taken,
        opening: _,
    } = door;
    let Worker {
        tray,
        mut passes,
        mut mine,
        starved,
    } = caller;
    let mut whole = whole;
    listener.gather(tray);
    let starved = gather_all::<D, L, O>(
        lanes,
        &mut listener,
        &mut passes,
        &mut mine,
        workers,
        starved,
        messages,
    );
    asked.audit(&mut whole);
    taken.audit(&mut mine);
    Served {
        door: listener,
        passes,
        accepted,
        failed: has_failed(ending),
        starved,
    }
}

/// Serves, where ledgers and what stood at the beginning have names.
fn serve_under<
    D: Listener,
    A: Ledger + Send + Sync,
    L: Ledger + Send + Sync,
    O: Opening + Send + Sync,
    G: Gate,
    R: Threads + Wait + Sync,
>(
    rt: &R,
    alloc: Global,
    lanes: &Lanes,
    passes: LanePasses,
    gate: &G,
    door: D,
    workers: u32,
    connections: u64,
    messages: u64,
    asks: Blank,
    takes: Blank,
) -> Served<D>
    requires of { AreOf lanes.now passes }
    requires workers { 0 < workers }
    requires asks { (asks.name ≡ A.name) × (asks.parts ≡ A.parts) }
    requires takes { (takes.name ≡ L.name) × (takes.parts ≡ L.parts) × (takes.parts ≡ workers + 1) }
    requires asked { asks.parts ≡ 1 }
    requires opening { (O.first ≡ D.told door) × (O.passes ≡ Some passes)
        × (O.failures ≡ D.failures door) × (O.nones ≡ D.nones door) }
    ensures done { AllServed lanes.now messages (D.told door) (Some passes) result.accepted (D.told result.door)
        result.passes result.accepted result.starved }
    ensures shares { SameShares passes result.passes }
    ensures few { result.accepted ≤ connections }
    ensures failures { D.failures result.door ≡ count_after (D.failures door) result.failed }
    ensures ended { result.failed ≡ false → result.starved ≡ false
        → ((result.accepted ≡ connections) × (D.nones result.door ≡ D.nones door))
        ⊎ ((D.nones result.door ≡ count_after (D.nones door) true) × NoneToCome (D.told result.door)) }
{
    let mut passes = passes;
    let (mut asked, mut whole) = asks.open::<A>();
    asked.add(&mut whole, connections);
    let (taken, mut rest) = takes.open::<L>();
    let (mut hired, lacked) = hire::<D, L, O>(
        alloc,
        lanes,
        &mut passes,
        &door,
        &mut rest,
        workers as usize,
        messages,
    );
    let tray = door.tray();
    let lock = Mutex::new(Door::<D, A, L, O>::new(door, connections, asked, taken));
    let threads = workers as usize;
    serve_many(
        rt,
        alloc,
        lanes,
        gate,
        &lock,
        hired.as_mut_slice(),
        threads,
        messages,
    );
    let mut door = lock.into_inner();
    let mut caller = Worker {
        tray,
        passes,
        mine: rest,
        starved: lacked,
    };
    caller.work_alone(rt, alloc, lanes, gate, &mut door, messages);
    finish(lanes, door, caller, hired, whole, messages)
}

/// Serves connections with so many workers, each of which takes one link after the other, until so many links were
/// accepted, the listener has no more, an accept fails, or memory lacks. The gate stands round the answers of objects,
/// and a connection ends after so many messages.
///
/// Each link that the listener gave was served and taken back, and the passes have the share that was handed in: with
/// the whole share `Lanes::close` leaves no stray. `failed` says that an accept failed, which the listener
/// counted; `starved`, that memory lacked: a worker that lacked it took no more links. Without both, as many links were
/// accepted as were asked for, or the listener had no more. A connection that stays open holds its worker.
pub fn serve_all<D: Listener, G: Gate, R: Threads + Wait + Sync>(
    rt: &R,
    alloc: Global,
    lanes: &Lanes,
    passes: LanePasses,
    gate: &G,
    door: D,
    workers: u32,
    connections: u64,
    messages: u64,
) -> Served<D>
    requires of { AreOf lanes.now passes }
    requires workers { 0 < workers }
    ensures done { AllServed lanes.now messages (D.told door) (Some passes) result.accepted (D.told result.door)
        result.passes result.accepted result.starved }
    ensures shares { SameShares passes result.passes }
    ensures whole { AreWhole passes → AreWhole result.passes }
    ensures few { result.accepted ≤ connections }
    ensures failures { D.failures result.door ≡ count_after (D.failures door) result.failed }
    ensures ended { result.failed ≡ false → result.starved ≡ false
        → ((result.accepted ≡ connections) × (D.nones result.door ≡ D.nones door))
        ⊎ ((D.nones result.door ≡ count_after (D.nones door) true) × NoneToCome (D.told result.door)) }
{
    serve_under::<D, Brand, Brand, Brand, G, R>(
        rt,
        alloc,
        lanes,
        passes,
        gate,
        door,
        workers,
        connections,
        messages,
        Blank::new(1),
        Blank::new(u64::from(workers) + 1),
    )
}
