//! Threads that add on shared counters, under turnstiles or under mutexes, for bench/turnstile.
//!
//! usage: workbench turns [turnstile|mutex THREADS COUNTERS TIMES]
//!
//! Each thread adds 1 so many times, on a counter of its own where there are as many. The line has the sum of the
//! counters and the nanoseconds that the adding took. Without words, small races are run, and their sums printed.

use crate::race::Race;
use crate::shared::{ByMutex, ByTurnstile};
use std::alloc::Global;
use std::io;
use std::rt::Clock;
use std::sync::Wait;
use std::thread::Threads;

/// The races that are run without words.
const SMALL: &[Race] = &[
    Race {
        threads: 1,
        counters: 1,
        times: 1000,
    },
    Race {
        threads: 2,
        counters: 1,
        times: 500,
    },
    Race {
        threads: 4,
        counters: 4,
        times: 250,
    },
];

fn print_sums<R: Threads + Wait + Sync + Clock + Print>(rt: &R, alloc: Global) -> io::Result<()> {
    for race in SMALL {
        let (turns, _) = race.run::<ByTurnstile, R>(rt, alloc)?;
        let (locks, _) = race.run::<ByMutex, R>(rt, alloc)?;
        let Race {
            threads,
            counters,
            times,
        } = *race;
        println!(rt;
            "{threads} threads, {counters} counters, {times} times: turnstile {turns}, mutex {locks}"
        )?;
    }
    Ok(())
}

/// The race that the words ask for.
fn race_of(words: &[String]) -> Option<Race> {
    let [threads, counters, times] = words else {
        return None;
    };
    Some(Race {
        threads: threads.as_str().parse::<u32>().ok()?,
        counters: counters.as_str().parse::<u32>().ok()?,
        times: times.as_str().parse::<u32>().ok()?,
    })
}

/// Runs the race that the words ask for.
pub fn race<R: Threads + Wait + Sync + Clock + Print>(
    rt: &R,
    alloc: Global,
    words: &[String],
) -> io::Result<()> {
    let Some((kind, numbers)) = words.split_first() else {
        return print_sums(rt, alloc);
    };
    let Some(race) = race_of(numbers) else {
        return println!(rt; "usage: workbench turns [turnstile|mutex THREADS COUNTERS TIMES]");
    };
    let (sum, took) = match kind.as_str() {
        "mutex" => race.run::<ByMutex, _>(rt, alloc)?,
        _ => race.run::<ByTurnstile, _>(rt, alloc)?,
    };
    let nanoseconds = took.as_nanos();
    println!(rt; "sum {sum} nanoseconds {nanoseconds}")
}
