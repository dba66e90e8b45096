//! Plays what can become of calls: reads events, one a line, and prints what both ends do at each of them,
//! so that a loss, a retry or a close can be followed step by step. `event.rt` has the lines, `world.rt` what
//! they do. The clients and servers are those of `retry_core`; the net between them is played.
//!
//! usage: workbench calls
//!
//! A line that is no event, and an event that cannot come, is refused with its reason and changes nothing. The
//! status is 1 where a line was refused, else 0.

use crate::event::event_of;
use crate::refusal::Refusal;
use crate::told::Told;
use crate::world::World;
use std::alloc::Global;
use std::io;
use std::process::ExitCode;

/// Plays one line. Blank lines, and what stands after a `#`, are passed over: None.
fn played(alloc: Global, world: &mut World, line: &str) -> Result<Option<Told>, Refusal> {
    match event_of(line)? {
        Some(event) => Ok(Some(world.play(alloc, event)?)),
        None => Ok(None),
    }
}

/// Plays the lines of standard input.
pub fn play(rt: &HostRuntime, alloc: Global) -> io::Result<ExitCode> {
    let mut world = World::new(alloc);
    let mut is_refused = false;
    for line in rt.lines(alloc) {
        let line = line?;
        println!(rt; "{line}")?;
        match played(alloc, &mut world, line.as_str()) {
            Ok(Some(told)) => println!(rt; "    {told}")?,
            Ok(None) => {}
            Err(refusal) => {
                println!(rt; "    refused: {refusal}")?;
                is_refused = true;
            }
        }
    }
    for (number, call) in world.calls().iter().enumerate() {
        let kind = if call.form.is_idempotent {
            "idempotent"
        } else {
            "not idempotent"
        };
        let attempts = call.client.attempts();
        let dispatches = call.dispatches;
        println!(rt; "call {number}, {kind}: attempts {attempts:?}, dispatches {dispatches}")?;
    }
    Ok(ExitCode::from(u8::from(is_refused)))
}
