//! The graph in an encapsulation.

ghost use Rattle.std.specs.Prelude.{IfOk};
ghost use Rattle.ice_prims.specs.Rest.{whole};
ghost use Rattle.ice_prims.specs.Taking.{GivesUnlessMemory, TakesUnlessMemory};
ghost use Rattle.ice_encoding.specs.Encapsulation.{encapsulated_at};
ghost use Rattle.ice_encoding.specs.Flags.{all_slices};
ghost use Rattle.ice_encoding.specs.Instances.{graph_at, numbered_at};
ghost use Rattle.ice_encoding.specs.TypedGraph.{OfType};
ghost use Rattle.value_parts.specs.Shapes.{shape_seen};

use crate::enclosing::left_are_bytes;
use encaps_optionals::{end, open_encaps};
use graph_arena::Graph;
use ice_prims::{Cursor, ReadFault};
use ice_types::Schema;
use instance_reading::read_content;
use std::alloc::Global;
use value_parts::DeclaredMembers;

/// The graph that the whole input holds in one encapsulation, or the first fault: slices of known classes,
/// with sizes or without, and each instance named by the order in which it begins. Nothing may follow the
/// members, or the encapsulation. (Ice manual, "Data Encoding for Class and Exception Types".)
pub fn decode(
    alloc: Global,
    schema: &Schema,
    fields: DeclaredMembers<'_>,
    input: &[u8],
) -> Result<Graph, ReadFault>
    ensures reads { GivesUnlessMemory (λ graph. graph) result
        (numbered_at schema.now all_slices (shape_seen fields.entry) (whole input.now)) }
    ensures typed { IfOk result (λ graph. OfType schema.now (shape_seen fields.entry) graph) }
{
    decode_rest(alloc, schema, fields, Cursor::new(input))
}

/// The same of all that is left of an input, with places that count as the cursor's do.
pub fn decode_rest(
    alloc: Global,
    schema: &Schema,
    fields: DeclaredMembers<'_>,
    mut cursor: Cursor<'_>,
) -> Result<Graph, ReadFault>
    ensures reads { GivesUnlessMemory (λ graph. graph) result
        (numbered_at schema.now all_slices (shape_seen fields.entry) cursor.entry) }
    ensures typed { IfOk result (λ graph. OfType schema.now (shape_seen fields.entry) graph) }
{
    let graph = take_graph(alloc, schema, fields, &mut cursor)?;
    match end(&cursor) {
        Ok(()) => Ok(graph),
        Err(fault) => {
            drop(graph);
            Err(ReadFault::Broken(fault))
        }
    }
}

/// The same of the encapsulation that begins here, whatever follows it. The cursor goes on after it; a
/// fault, whose place counts as the cursor's do, leaves the cursor as it was.
pub fn take_graph(
    alloc: Global,
    schema: &Schema,
    fields: DeclaredMembers<'_>,
    cursor: &mut Cursor<'_>,
) -> Result<Graph, ReadFault>
    ensures reads { TakesUnlessMemory (λ graph. graph) result cursor.old cursor.new
        (encapsulated_at (graph_at schema.now all_slices (shape_seen fields.entry)) cursor.old) }
    ensures typed { IfOk result (λ graph. OfType schema.now (shape_seen fields.entry) graph) }
{
    // A text is of its type since what is read are bytes.
    left_are_bytes(cursor);
    let mut ahead = cursor.fork();
    let mut inside = open_encaps(&mut ahead)?;
    let content = read_content(alloc, schema, fields, &mut inside)?;
    match end(&inside) {
        Ok(()) => {
            schema.rules();
            *cursor = ahead;
            Ok(Graph::of(content.roots, content.instances))
        }
        Err(fault) => {
            drop(content);
            Err(ReadFault::Broken(fault))
        }
    }
}
