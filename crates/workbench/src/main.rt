//! A program for `cases/` and `bench/`: what no command of `ice` shows or times.
//!
//! usage: workbench slice [--tokens | --tree] FILE..
//!        workbench exception [--compact] FILE
//!        workbench calls
//!        workbench lookups [LOOKUPS]
//!        workbench turns [turnstile|mutex THREADS COUNTERS TIMES]
//!
//! What each does is said at the head of its file. Other words are answered by these lines, and status 2.
#![tactic(auto)]

mod calls;
mod event;
mod exception;
mod lookups;
mod race;
mod refusal;
mod shared;
mod slices;
mod told;
mod tree;
mod turns;
mod world;

use std::process::ExitCode;
use std::{env, io};

/// What the program can do.
const USAGE: &str = "usage: workbench slice|exception|calls|lookups|turns WORD..";

fn main(rt: HostRuntime) -> io::Result<ExitCode> {
    let alloc = rt.alloc();
    let words: Vec<String> = env::args(&rt)?.collect(alloc)?;
    let Some((job, rest)) = words
        .as_slice()
        .get(1..)
        .and_then(|words| words.split_first())
    else {
        println!(rt; "{USAGE}")?;
        return Ok(ExitCode::from(2));
    };
    match job.as_str() {
        "slice" => slices::read(&rt, alloc, rest)?,
        "exception" => return Ok(exception::relay(&rt, alloc, rest)),
        "calls" => return calls::play(&rt, alloc),
        "lookups" => lookups::time(&rt, alloc, rest)?,
        "turns" => turns::race(&rt, alloc, rest)?,
        _ => {
            println!(rt; "{USAGE}")?;
            return Ok(ExitCode::from(2));
        }
    }
    Ok(ExitCode::from(0))
}
