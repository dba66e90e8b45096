//! A counter that threads share, under a turnstile or under a mutex of std.
ghost use Rattle.std.specs.Prelude.{◌≡◌, ◌+◌, ◌%◌, ◌^◌, IfOk, OnErr};
ghost use Rattle.std.specs.Arc.{arc_value};
ghost use Rattle.turnstile.specs.Passes.{IsPassOf};

use std::alloc::{AllocError, Global};
use std::sync::{Arc, Mutex, Wait};
use turnstile::{Pass, Turned, Turnstile};

/// One thread's hold on a shared counter.
pub trait Shared: Drop + Send {
    /// A counter at 0.
    fn new(alloc: Global) -> Result<Self, AllocError>;

    /// The hold of a further thread.
    fn again(&mut self) -> Result<Self, AllocError>;

    /// Adds to the count, modulo 2 ^ 64, and answers it.
    fn add<R: Wait>(&mut self, rt: &R, more: u64) -> Result<u64, AllocError>;
}

#[derive(Drop)]
pub struct Counter {
    count: u64,
}

impl Turned for Counter {
    type Call = u64;

    type Reply = u64;

    ghost turns = { λ before more reply after. (after.count ≡ (before.count + more) % 2 ^ 64) × (reply ≡ after.count) };

    fn turned(&mut self, more: &u64) -> Result<u64, AllocError> {
        self.count = self.count.wrapping_add(*more);
        Ok(self.count)
    }
}

#[derive(Drop)]
pub struct ByTurnstile {
    stile: Arc<Turnstile<Counter>, Global>,
    pass: Pass<Counter>,
    ghost of: { IsPassOf (arc_value stile) pass },
}

impl Shared for ByTurnstile {
    fn new(alloc: Global) -> Result<ByTurnstile, AllocError> {
        let (stile, pass) = Turnstile::new(alloc, Counter { count: 0 })?;
        let stile = Arc::new(alloc, stile)?;
        Ok(ByTurnstile { stile, pass })
    }

    fn again(&mut self) -> Result<ByTurnstile, AllocError> {
        let stile = Arc::try_clone(&self.stile)?;
        let pass = self.stile.split(&mut self.pass)?;
        Ok(ByTurnstile { stile, pass })
    }

    fn add<R: Wait>(&mut self, rt: &R, more: u64) -> Result<u64, AllocError> {
        self.stile.turn(rt, &mut self.pass, &more)
    }
}

#[derive(Drop)]
pub struct ByMutex {
    counter: Arc<Mutex<Counter>, Global>,
}

impl Shared for ByMutex {
    fn new(alloc: Global) -> Result<ByMutex, AllocError> {
        let counter = Arc::new(alloc, Mutex::new(Counter { count: 0 }))?;
        Ok(ByMutex { counter })
    }

    fn again(&mut self) -> Result<ByMutex, AllocError> {
        let counter = Arc::try_clone(&self.counter)?;
        Ok(ByMutex { counter })
    }

    fn add<R: Wait>(&mut self, rt: &R, more: u64) -> Result<u64, AllocError> {
        self.counter.lock(rt).turned(&more)
    }
}
