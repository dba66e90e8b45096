//! The first part of a graph that is not of its type. (Ice manual, "Classes".)

ghost use Rattle.std.specs.Prelude.{◌≡◌, ◌<◌, ◌↔◌, IfOk, IfSome, None, OnErr, length};
ghost use Rattle.ice_encoding.specs.TypedGraph.{AreMembers, OfType, RefersIn};
ghost use Rattle.graph_arena.specs.Arena.{AreBelow};
ghost use Rattle.graph_arena.specs.Listing.{Marks};
ghost use Rattle.value_parts.specs.Shapes.{shape_seen};
ghost use Rattle.value_checks.specs.First.{AreMarkedFine, IsFirstIll, IsFirstInstance, IsFirstOf, IsLeast};

use crate::instances::is_fine;
use crate::members::are_members;
use graph_arena::Graph;
use ice_types::Schema;
use std::alloc::{AllocError, Global};
use value_parts::DeclaredMembers;

/// The first part of a graph that is not of its type: the roots, which are None, of these members; then
/// the instances that they lead to, in the order of their first visits; then the others, by rising place.
/// None where the graph is of the type. It is refused where there is no memory for the order, and never where the
/// roots are not of these members.
/// (Ice manual, "Classes".)
pub fn first_ill_typed(
    alloc: Global,
    schema: &Schema,
    fields: DeclaredMembers<'_>,
    graph: &Graph,
) -> Result<Option<Option<u32>>, AllocError>
    ensures typed { IfOk result (λ found. (found ≡ None) ↔ OfType schema.now (shape_seen fields.entry) graph.now) }
    ensures first { IfOk result (λ found. IfSome found (IsFirstIll schema.now graph.now (shape_seen fields.entry))) }
    ensures memory { OnErr result (AreMembers schema.now (RefersIn schema.now graph.now.instances)
        (shape_seen fields.entry) graph.now.roots) }
{
    if !are_members(schema, graph, fields, graph.roots()) {
        return Ok(Some(None));
    }
    match first_ill_instance(alloc, schema, graph)? {
        Some(place) => Ok(Some(Some(place))),
        None => Ok(None),
    }
}

/// The first instance that is not of its class: those that the roots lead to, in the order of their first
/// visits; then the others, by rising place. None where each is. It is refused where there is no memory for
/// the order. (Ice manual, "Classes".)
pub fn first_ill_instance(
    alloc: Global,
    schema: &Schema,
    graph: &Graph,
) -> Result<Option<u32>, AllocError>
    ensures { IfOk result (IsFirstInstance schema.now graph.now) }
{
    let count = graph.len();
    let order = graph.first_visit()?;
    if let Some(place) = first_of(schema, graph, order.as_slice()) {
        return Ok(Some(place));
    }
    let reached = marks_of(alloc, count, order.as_slice())?;
    Ok(least_unmarked(schema, graph, &reached))
}

/// The first of these places whose instance is not of its class.
fn first_of(schema: &Schema, graph: &Graph, places: &[u32]) -> Option<u32>
    requires { AreBelow (length graph.now.instances) places.now }
    ensures { IsFirstOf schema.now graph.now places.now result }
{
    for place in places {
        if !is_fine(schema, graph, *place) {
            return Some(*place);
        }
    }
    None
}

/// The least place whose instance is not of its class. Those at the places that are marked are.
fn least_unmarked(schema: &Schema, graph: &Graph, marks: &[bool]) -> Option<u32>
    requires size { length marks.now ≡ length graph.now.instances }
    requires fine { AreMarkedFine schema.now graph.now marks.now }
    ensures { IsLeast schema.now graph.now result }
{
    for at in 0..graph.len() {
        if !marks[at as usize] && !is_fine(schema, graph, at) {
            return Some(at);
        }
    }
    None
}

/// Marks for so many places, at which these are set.
fn marks_of(alloc: Global, count: u32, places: &[u32]) -> Result<Vec<bool>, AllocError>
    requires { AreBelow count places.now }
    ensures size { IfOk result (λ marks. length marks.items ≡ count) }
    ensures marks { IfOk result (λ marks. Marks marks.items places.now) }
{
    let mut marks = vec![in alloc; false; count as usize]?;
    for place in places {
        marks[*place as usize] = true;
    }
    Ok(marks)
}
