//! `drill START COUNT`: a graph that is drawn from a number, relayed, and the line that tells what came of it.

ghost use Rattle.std.specs.Prelude.{◌<◌, ◌≤◌, ℕ, List, Option};
ghost use Rattle.ice_relay.specs.declared.drilling.TheConstants.{MOST_NODES};
ghost use Rattle.node_commands.specs.Words.{drill as wanted};
ghost use Rattle.node_commands.specs.Outside.{Files, Failures};
ghost use Rattle.node_commands.specs.Outcomes.{FindsBytes, text_found};

use crate::outcome::Outcome;
use std::alloc::Global;

/// The line on the graph of so many nodes that is drawn from the number, or why there is none.
pub fn drill(alloc: Global, start: u32, count: u32) -> Result<String, Outcome<'static>>
    requires some { 0 < count }
    requires few { count ≤ MOST_NODES }
    ensures { (files : Option Files) (input : Option (List ℕ)) (counts : Failures)
        → FindsBytes (wanted start count) files input counts counts (text_found result) }
{
    Ok(ice_relay::drill(alloc, start, count)?)
}
