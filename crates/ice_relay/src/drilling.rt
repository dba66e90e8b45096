//! A drill: a graph that is drawn from a number, and the line that tells what came of it.

ghost use Rattle.std.specs.Prelude.{◌≡◌, ◌<◌, ◌≤◌};
ghost use Rattle.ice_relay.specs.declared.drilling.TheConstants.{MOST_NODES};
ghost use Rattle.ice_relay.specs.Nodes.{drill_tables};
ghost use Rattle.ice_relay.specs.Telling.{Drills};

use crate::drawing::drawn;
use crate::drill_fault::DrillFault;
use crate::node_schema::{node_schema, root};
use crate::telling::tell;
use ice_types::Schema;
use std::alloc::Global;
use value_parts::DeclaredMembers;

/// How many nodes a graph has at most.
pub const MOST_NODES: u32 = 50_000;

/// The line that tells what came of the graph of so many nodes that is drawn from the number: how many nodes
/// the root reaches, how long the graph is in compact format and, relayed from there, in sliced format, and
/// that relaying it again gives the same bytes. Or the length of the first of these encapsulations that has
/// more than 1,048,576 bytes, which cannot be relayed.
/// (Ice manual, "Data Encoding for Class and Exception Types".)
pub fn drill(alloc: Global, start: u32, count: u32) -> Result<String, DrillFault>
    requires some { 0 < count }
    requires few { count ≤ MOST_NODES }
    ensures { Drills start count result }
{
    let schema = node_schema(alloc)?;
    let line = drill_under(alloc, &schema, start, count);
    drop(schema);
    line
}

/// The same, by the schema of the nodes.
fn drill_under(alloc: Global, schema: &Schema, start: u32, count: u32) -> Result<String, DrillFault>
    requires schema { schema.now ≡ drill_tables }
    requires some { 0 < count }
    requires few { count ≤ MOST_NODES }
    ensures { Drills start count result }
{
    let root = [root(alloc)?];
    let fields = DeclaredMembers {
        required: &root,
        optional: &[],
    };
    let graph = drawn(alloc, start, count)?;
    tell(alloc, schema, fields, count, graph)
}
