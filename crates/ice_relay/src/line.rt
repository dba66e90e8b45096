//! The line of a graph, instance by instance.

ghost use Rattle.std.specs.Prelude.{◌≡◌, ◌++◌, IfOk, codes, false};
ghost use Rattle.serde_json.specs.Written.{comma_if, compact_text, items_text};
ghost use Rattle.graph_arena.specs.Seen.{view_content, view_slices};
ghost use Rattle.value_parts.specs.Shapes.{shape_seen};
ghost use Rattle.graph_json.specs.Canonical.{graph_noted, instance_noted, items_noted};
ghost use Rattle.graph_json.specs.Contents.{content_noted};
ghost use Rattle.ice_relay.specs.Pages.{Tells, TellsAll, roots_text};

use crate::page::{ended, turned};
use graph_arena::{Graph, Members, Slice};
use graph_json::{push_content, push_instance};
use ice_ports::{PortFault, Sink};
use ice_types::Schema;
use std::alloc::{AllocError, Global};
use value_parts::DeclaredMembers;

/// Tells the line of a graph, with its instances as they stand.
pub(crate) fn tell_graph<K: Sink>(
    alloc: Global,
    schema: &Schema,
    fields: DeclaredMembers<'_>,
    graph: &Graph,
    sink: &mut K,
) -> Result<(), PortFault>
    ensures { TellsAll (compact_text (graph_noted schema.now (shape_seen fields.entry) graph.now) ++ codes "\n")
        (K.taken sink.old) (K.taken sink.new) (K.failures sink.old) (K.failures sink.new) result }
{
    let page = with_text(Vec::new(alloc), "{\"instances\":[")?;
    let page = tell_instances(page, alloc, schema, graph, sink)?;
    ended(
        with_roots(page, alloc, schema, fields, graph.roots())?,
        sink,
    )
}

/// Tells the instances behind what stands on the page, one after the other, and the end of their array.
fn tell_instances<K: Sink>(
    page: Vec<u8>,
    alloc: Global,
    schema: &Schema,
    graph: &Graph,
    sink: &mut K,
) -> Result<Vec<u8>, PortFault>
    ensures { Tells (page.items ++ items_text false (items_noted (instance_noted schema.now) graph.now.instances))
        (K.taken sink.old) (K.taken sink.new) (K.failures sink.old) (K.failures sink.new) result }
{
    let mut page = page;
    for at in 0..graph.len() {
        let slices = graph.instance(at).slices.as_slice();
        let longer = with_instance(page, alloc, schema, at > 0, slices)?;
        page = turned(longer, sink)?;
    }
    Ok(with_text(page, "]")?)
}

/// The page with an instance of these slices, behind a comma where one stands before it.
fn with_instance(
    page: Vec<u8>,
    alloc: Global,
    schema: &Schema,
    later: bool,
    slices: &[Slice],
) -> Result<Vec<u8>, AllocError>
    ensures { IfOk result (λ longer. longer.items ≡ page.items
        ++ (comma_if later ++ compact_text (instance_noted schema.now (view_slices slices.now)))) }
{
    push_instance(with_comma(page, later)?, alloc, schema, slices)
}

/// The page with a comma, where something stands before.
pub(crate) fn with_comma(page: Vec<u8>, later: bool) -> Result<Vec<u8>, AllocError>
    ensures { IfOk result (λ longer. longer.items ≡ page.items ++ comma_if later) }
{
    with_text(page, if later { "," } else { "" })
}

/// The page with this text.
pub(crate) fn with_text(page: Vec<u8>, text: &str) -> Result<Vec<u8>, AllocError>
    ensures { IfOk result (λ longer. longer.items ≡ page.items ++ text.now) }
{
    let mut page = page;
    page.extend_from_slice(text.as_bytes())?;
    Ok(page)
}

/// The page with the roots, and the end of the line.
fn with_roots(
    page: Vec<u8>,
    alloc: Global,
    schema: &Schema,
    fields: DeclaredMembers<'_>,
    roots: &Members,
) -> Result<Vec<u8>, AllocError>
    ensures { IfOk result (λ longer. longer.items ≡ page.items
        ++ roots_text (content_noted schema.now (shape_seen fields.entry) (view_content roots.now))) }
{
    let page = with_text(page, ",\"roots\":")?;
    let page = push_content(page, alloc, schema, fields, roots)?;
    with_text(page, "}\n")
}
