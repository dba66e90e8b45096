//! Threads that add at the same time.
use crate::shared::Shared;
use std::alloc::{AllocError, Global};
use std::io;
use std::rt::Clock;
use std::sync::Wait;
use std::thread::{Threads, for_each_mut};
use std::time::{Duration, Instant};

/// So many threads add 1 so many times each, the first on the first counter, and so on, round and round.
#[derive(Clone, Copy, Debug)]
pub struct Race {
    pub threads: u32,
    pub counters: u32,
    pub times: u32,
}

/// Stops where there is no memory: the sum is then too small.
fn add_often<S: Shared, R: Wait>(rt: &R, hold: &mut S, times: u32) {
    for _ in 0..times {
        if hold.add(rt, 1).is_err() {
            return;
        }
    }
}

fn counters_at_zero<S: Shared>(alloc: Global, count: u32) -> Result<Vec<S>, AllocError> {
    let mut counters = Vec::new(alloc);
    for _ in 0..count {
        counters.push(S::new(alloc)?)?;
    }
    Ok(counters)
}

/// A hold for each thread, on one counter after the other.
fn holds_on<S: Shared>(
    alloc: Global,
    counters: &mut [S],
    count: u32,
) -> Result<Vec<S>, AllocError> {
    let mut holds = Vec::new(alloc);
    let mut next = 0;
    for _ in 0..count {
        if next >= counters.len() {
            next = 0;
        }
        if let Some(counter) = counters.get_mut(next) {
            holds.push(counter.again()?)?;
            next += 1;
        }
    }
    Ok(holds)
}

/// The sum of the counters, modulo 2 ^ 64.
fn sum_of<S: Shared, R: Wait>(rt: &R, counters: &mut [S]) -> Result<u64, AllocError> {
    let mut sum: u64 = 0;
    for counter in counters.iter_mut() {
        sum = sum.wrapping_add(counter.add(rt, 0)?);
    }
    Ok(sum)
}

impl Race {
    /// Runs it. Answers the sum of the counters, and how long the adding took.
    pub fn run<S: Shared, R: Threads + Wait + Sync + Clock>(
        &self,
        rt: &R,
        alloc: Global,
    ) -> io::Result<(u64, Duration)> {
        let mut counters: Vec<S> = counters_at_zero(alloc, self.counters)?;
        let mut holds = holds_on(alloc, counters.as_mut_slice(), self.threads)?;
        let threads = holds.len().max(1);
        let times = self.times;
        let start = Instant::now(rt)?;
        for_each_mut(
            rt,
            holds.as_mut_slice(),
            threads,
            &|_, hold| { add_often(rt, hold, times) },
        );
        let took = start.elapsed(rt)?;
        Ok((sum_of(rt, counters.as_mut_slice())?, took))
    }
}
