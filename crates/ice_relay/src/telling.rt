//! What comes of a graph that is written, and relayed twice.

ghost use Rattle.std.specs.Prelude.{◌≡◌, ◌≤◌, Ok, IfOk, length, string_bytes};
ghost use Rattle.ice_prims.specs.Rest.{whole};
ghost use Rattle.ice_encoding.specs.Graph as graphs;
ghost use Rattle.ice_encoding.specs.Flags.{all_slices};
ghost use Rattle.ice_encoding.specs.Instances.{most_instances, numbered_at};
ghost use Rattle.ice_encoding.specs.SameGraph.{Spells};
ghost use Rattle.ice_encoding.specs.TypedGraph.{OfType};
ghost use Rattle.ice_encoding.specs.CanonicalGraph.{IsWritable, compact, sliced};
ghost use Rattle.value_parts.specs.Shapes.{shape_seen};
ghost use Rattle.instance_writing.specs.Formats.{view_format};
ghost use Rattle.ice_relay.specs.Telling.{EncodesDrawn, Tells, line, yes_or_no};

use crate::drill_fault::DrillFault;
use class_slices::{Format, WriteFault, decode, encode_typed};
use graph_arena::Graph;
use ice_encoding::LARGEST;
use ice_prims::ReadFault;
use ice_types::Schema;
use std::alloc::{AllocError, Global};
use value_parts::DeclaredMembers;

/// The line of a graph of so many nodes: how many its roots reach, how long it is in compact format and,
/// relayed from there, in sliced format, and whether that, relayed again, is the same.
pub(crate) fn tell(
    alloc: Global,
    schema: &Schema,
    fields: DeclaredMembers<'_>,
    nodes: u32,
    graph: Graph,
) -> Result<String, DrillFault>
    requires typed { OfType schema.now (shape_seen fields) graph }
    requires writable { IsWritable compact graph }
    requires few { length graph.instances ≤ most_instances }
    ensures { Tells schema.now (shape_seen fields.entry) nodes graph result }
{
    // Their contracts say what every schema and every graph keeps.
    schema.rules();
    graph.len();
    let reached = graph.first_visit()?.len();
    let compact = encoded(alloc, schema, fields, graph, Format::Compact)?;
    let sliced = relayed(alloc, schema, fields, compact.as_slice())?;
    let again = relayed(alloc, schema, fields, sliced.as_slice())?;
    let same = sliced.as_slice() == again.as_slice();
    Ok(line(alloc, nodes, reached, compact.len(), sliced.len(), same)?)
}

/// The encapsulation of the graph that the input holds, in sliced format.
fn relayed(
    alloc: Global,
    schema: &Schema,
    fields: DeclaredMembers<'_>,
    input: &[u8],
) -> Result<Vec<u8>, DrillFault>
    requires { (graph : graphs.Graph) × Spells schema.now all_slices (shape_seen fields) input.now graph }
    ensures { (graph : graphs.Graph) → Spells schema.now all_slices (shape_seen fields.entry) input.now graph
        → EncodesDrawn schema.now (shape_seen fields.entry) sliced graph result }
{
    let graph = read(alloc, schema, fields, input)?;
    encoded(alloc, schema, fields, graph, Format::Sliced)
}

/// The graph that the whole input holds.
fn read(
    alloc: Global,
    schema: &Schema,
    fields: DeclaredMembers<'_>,
    input: &[u8],
) -> Result<Graph, AllocError>
    requires { (graph : graphs.Graph)
        × (numbered_at schema.now all_slices (shape_seen fields) (whole input.now) ≡ Ok graph) }
    ensures held { IfOk result (λ graph.
        numbered_at schema.now all_slices (shape_seen fields.entry) (whole input.now) ≡ Ok graph) }
    ensures typed { IfOk result (λ graph. OfType schema.now (shape_seen fields.entry) graph) }
{
    match decode(alloc, schema, fields, input) {
        Ok(graph) => Ok(graph),
        Err(ReadFault::Memory) => Err(AllocError),
        Err(ReadFault::Broken(_)) => unreachable!(),
    }
}

/// The canonical encapsulation of a graph that the format can carry, or its length, where that is more
/// than 1,048,576.
fn encoded(
    alloc: Global,
    schema: &Schema,
    fields: DeclaredMembers<'_>,
    graph: Graph,
    format: Format,
) -> Result<Vec<u8>, DrillFault>
    requires typed { OfType schema.now (shape_seen fields) graph }
    requires writable { IsWritable (view_format format) graph }
    ensures { EncodesDrawn schema.now (shape_seen fields.entry) (view_format format) graph result }
{
    match encode_typed(alloc, schema, fields, graph, format, LARGEST as u32) {
        Ok(bytes) => Ok(bytes),
        Err(WriteFault::TooLong(length)) => Err(DrillFault::TooLong(length)),
        Err(WriteFault::Memory) => Err(DrillFault::Memory),
        Err(WriteFault::UnknownNeedsSliced(_)) => unreachable!(),
    }
}

/// The line that tells these numbers.
fn line(
    alloc: Global,
    nodes: u32,
    reached: usize,
    compact: usize,
    sliced: usize,
    same: bool,
) -> Result<String, AllocError>
    ensures { IfOk result (λ text. string_bytes text ≡ line nodes reached compact sliced same) }
{
    let same = yes_or_no(same);
    format!(in alloc;
        "nodes {nodes} reached {reached} compact {compact} sliced {sliced} same {same}\n"
    )
}

/// The word for it.
fn yes_or_no(same: bool) -> &'static str
    ensures { result.now ≡ yes_or_no same }
{
    if same { "yes" } else { "no" }
}
