//! The encapsulation of any graph, or why there is none.

ghost use Rattle.value_parts.specs.Shapes.{shape_seen};
ghost use Rattle.instance_writing.specs.Formats.{view_format};
ghost use Rattle.class_slices.specs.Encoding.{EncodesGraph};

use crate::encode_fault::EncodeFault;
use crate::writing::encode_typed;
use graph_arena::Graph;
use ice_types::Schema;
use instance_writing::Format;
use std::alloc::Global;
use value_checks::first_ill_typed;
use value_parts::DeclaredMembers;

/// The canonical encapsulation of the graph in the format, where the graph is of the type, the format can
/// carry it, and the encapsulation is not longer than the limit; else the first part that is not of its type,
/// the first instance that compact format cannot carry, or the length, in this order.
/// (Ice manual, "Data Encoding for Class and Exception Types".)
pub fn encode(
    alloc: Global,
    schema: &Schema,
    fields: DeclaredMembers<'_>,
    graph: Graph,
    format: Format,
    limit: u32,
) -> Result<Vec<u8>, EncodeFault>
    ensures { EncodesGraph schema.now (shape_seen fields.entry) (view_format format) graph limit result }
{
    match first_ill_typed(alloc, schema, fields, &graph) {
        Ok(None) => Ok(encode_typed(alloc, schema, fields, graph, format, limit)?),
        Ok(Some(at)) => {
            drop(graph);
            Err(EncodeFault::IllTyped(at))
        }
        Err(error) => {
            drop(graph);
            Err(EncodeFault::from(error))
        }
    }
}
