//! Callers of a counter, in one thread and in two.
ghost use Rattle.std.specs.Prelude.{◌<◌, IfOk};
ghost use Rattle.turnstile.specs.Passes.{IsPassOf};

use std::alloc::AllocError;
use std::process::Abort;
use std::sync::Wait;
use std::sync::atomic::{AtomicU64, Ordering};
use std::test::Fail;
use std::thread::{Threads, join};
use turnstile::{Around, Pass, Stray, Turned, Turnstile};

#[derive(Drop)]
struct Counter {
    count: u64,
}

#[derive(Clone, Copy)]
enum Ask {
    Add(u64),
    Total,
    /// Finds no memory.
    Starve,
}

impl Turned for Counter {
    type Call = Ask;

    type Reply = u64;

    ghost turns = { λ before call reply after. Unit {0} };

    fn turned(&mut self, call: &Ask) -> Result<u64, AllocError> {
        match call {
            Ask::Add(more) => self.count = self.count.wrapping_add(*more),
            Ask::Total => {}
            Ask::Starve => return Err(AllocError),
        }
        Ok(self.count)
    }
}

type Counters = Turnstile<Counter>;

fn see_reply(
    rt: &(impl Wait + Abort),
    stile: &Counters,
    pass: &mut Pass<Counter>,
    ask: Ask,
    wanted: Option<u64>,
)
    requires { IsPassOf stile.now pass.old }
    ensures { IsPassOf stile.now pass.new }
{
    let reply = stile.turn(rt, pass, &ask).ok();
    assert!(rt; reply == wanted);
}

/// What is counted once the turnstile is closed with this pass.
fn closed(stile: Counters, all: Pass<Counter>) -> Result<u64, Stray>
    requires { IsPassOf stile all }
{
    stile.close(all).map(|counter| counter.count)
}

/// Five turns of two callers, one of whom finds no memory once. The count is 6 then.
fn five_turns(
    rt: &(impl Wait + Abort),
    stile: &Counters,
    mut a: Pass<Counter>,
) -> Result<Pass<Counter>, AllocError>
    requires { IsPassOf stile.now a }
    ensures { IfOk result (IsPassOf stile.now) }
{
    see_reply(rt, stile, &mut a, Ask::Add(1), Some(1));
    see_reply(rt, stile, &mut a, Ask::Total, Some(1));
    let mut b = stile.split(&mut a)?;
    see_reply(rt, stile, &mut b, Ask::Add(2), Some(3));
    see_reply(rt, stile, &mut a, Ask::Starve, None);
    see_reply(rt, stile, &mut a, Ask::Add(3), Some(6));
    see_reply(rt, stile, &mut b, Ask::Total, Some(6));
    stile.join(&mut a, b);
    Ok(a)
}

#[test]
fn two_callers_take_turns(rt: HostRuntime) -> Result<(), Fail> {
    let (stile, a) = Turnstile::new(rt.alloc(), Counter { count: 0 })?;
    let all = five_turns(&rt, &stile, a)?;
    assert!(rt; closed(stile, all) == Ok(6));
    Ok(())
}

fn add_ones<R: Wait>(
    rt: &R,
    stile: &Counters,
    mut pass: Pass<Counter>,
    times: u32,
) -> Result<Pass<Counter>, AllocError>
    requires { IsPassOf stile.now pass }
    ensures { IfOk result (IsPassOf stile.now) }
{
    for _ in 0..times {
        stile.turn(rt, &mut pass, &Ask::Add(1))?;
    }
    Ok(pass)
}

/// A thousand turns of two threads.
fn thousand_turns<R: Threads + Wait + Sync>(
    rt: &R,
    stile: &Counters,
    mut first: Pass<Counter>,
) -> Result<Pass<Counter>, AllocError>
    requires { IsPassOf stile.now first }
    ensures { IfOk result (IsPassOf stile.now) }
{
    let second = stile.split(&mut first)?;
    let (first, second) = join(
        rt,
        || -> Result<Pass<Counter>, AllocError>
            requires { IsPassOf stile.now first }
            ensures { IfOk result (IsPassOf stile.entry.now) }
        { add_ones(rt, stile, first, 500) },
        || -> Result<Pass<Counter>, AllocError>
            requires { IsPassOf stile.now second }
            ensures { IfOk result (IsPassOf stile.entry.now) }
        { add_ones(rt, stile, second, 500) },
    );
    let mut all = first?;
    stile.join(&mut all, second?);
    Ok(all)
}

#[test]
fn two_threads_add(rt: HostRuntime) -> Result<(), Fail> {
    let (stile, first) = Turnstile::new(rt.alloc(), Counter { count: 0 })?;
    let all = thousand_turns(&rt, &stile, first)?;
    assert!(rt; closed(stile, all) == Ok(1000));
    Ok(())
}

/// A further pass asks for the total and is dropped.
fn see_total(
    rt: &(impl Wait + Abort),
    stile: &Counters,
    all: &mut Pass<Counter>,
    total: u64,
) -> Result<(), AllocError>
    requires { IsPassOf stile.now all.old }
    ensures { IsPassOf stile.now all.new }
{
    let mut other = stile.split(all)?;
    see_reply(rt, stile, &mut other, Ask::Total, Some(total));
    Ok(())
}

#[test]
fn joined_calls_are_counted(rt: HostRuntime) -> Result<(), Fail> {
    let (stile, a) = Turnstile::new(rt.alloc(), Counter { count: 0 })?;
    let mut all = five_turns(&rt, &stile, a)?;
    see_total(&rt, &stile, &mut all, 6)?;
    let lost = Stray::Others { entries: 6, own: 5 };
    assert!(rt; closed(stile, all) == Err(lost));
    Ok(())
}

#[test]
fn joined_calls_of_threads_are_counted(rt: HostRuntime) -> Result<(), Fail> {
    let (stile, a) = Turnstile::new(rt.alloc(), Counter { count: 0 })?;
    let mut all = thousand_turns(&rt, &stile, a)?;
    see_total(&rt, &stile, &mut all, 1000)?;
    let lost = Stray::Others {
        entries: 1001,
        own: 1000,
    };
    assert!(rt; closed(stile, all) == Err(lost));
    Ok(())
}

#[test]
fn a_dropped_pass_leaves_its_calls(rt: HostRuntime) -> Result<(), Fail> {
    let (stile, mut a) = Turnstile::new(rt.alloc(), Counter { count: 0 })?;
    let mut b = stile.split(&mut a)?;
    see_reply(&rt, &stile, &mut b, Ask::Add(1), Some(1));
    drop(b);
    see_reply(&rt, &stile, &mut a, Ask::Starve, None);
    let lost = Stray::Others { entries: 1, own: 0 };
    assert!(rt; closed(stile, a) == Err(lost));
    Ok(())
}

/// The calls of both methods, a digit each.
#[derive(Drop)]
struct Watch {
    calls: AtomicU64,
}

impl Watch {
    fn note(&self, digit: u64) {
        let before = self.calls.load(Ordering::SeqCst);
        self.calls.store(
            before.wrapping_mul(10).wrapping_add(digit),
            Ordering::SeqCst,
        );
    }
}

impl Around<Ask> for Watch {
    fn before(&self, _call: &Ask) {
        self.note(1);
    }

    fn after(&self, _call: &Ask) {
        self.note(2);
    }
}

#[test]
fn around_stands_round_each_answer(rt: HostRuntime) -> Result<(), Fail> {
    let watch = Watch {
        calls: AtomicU64::new(0),
    };
    let (stile, mut pass) = Turnstile::new(rt.alloc(), Counter { count: 0 })?;
    let added = stile.turn_around(&rt, &mut pass, &Ask::Add(1), &watch).ok();
    let starved = stile.turn_around(&rt, &mut pass, &Ask::Starve, &watch).ok();
    assert!(rt; added == Some(1) && starved == None);
    assert!(rt; watch.calls.load(Ordering::SeqCst) == 1212);
    Ok(())
}
