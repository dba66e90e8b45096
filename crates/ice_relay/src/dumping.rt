//! The line that tells a value.

ghost use Rattle.ice_relay.specs.Dumping.{DumpsTo};

use crate::dump_fault::DumpFault;
use crate::items::{canonical_sequence, tell_sequence};
use crate::line::tell_graph;
use crate::relay::root_of;
use class_slices::decode;
use ice_ports::Sink;
use ice_types::{Schema, TypeRef};
use std::alloc::Global;
use value_parts::DeclaredMembers;

/// Writes the line of JSON that tells the value that the whole input holds, with all instances that it leads to; or
/// answers the first fault from the left, or what failed, with what the sink got by then. No more of the line is held
/// than a page and the text of one instance, or that of the value; and where the input is canonical already, and a
/// sequence of structs, sequences or dictionaries, no more than one item of it and its text.
/// (Ice manual, "Data Encoding for Class and Exception Types".)
pub fn dump_to<K: Sink>(
    alloc: Global,
    schema: &Schema,
    kind: TypeRef,
    input: &[u8],
    sink: &mut K,
) -> Result<(), DumpFault>
    ensures { DumpsTo schema.now kind input.now (K.taken sink.old) (K.taken sink.new)
        (K.failures sink.old) (K.failures sink.new) result }
{
    // The proof of the line of a sequence needs what every schema keeps.
    schema.rules();
    match canonical_sequence(alloc, schema, kind, input) {
        Some((element, content)) => Ok(tell_sequence(alloc, schema, element, content, sink)?),
        None => dump_graph(alloc, schema, kind, input, sink),
    }
}

/// The same, by way of the graph.
fn dump_graph<K: Sink>(
    alloc: Global,
    schema: &Schema,
    kind: TypeRef,
    input: &[u8],
    sink: &mut K,
) -> Result<(), DumpFault>
    ensures { DumpsTo schema.now kind input.now (K.taken sink.old) (K.taken sink.new)
        (K.failures sink.old) (K.failures sink.new) result }
{
    let root = [root_of(alloc, kind)?];
    let fields = DeclaredMembers {
        required: &root,
        optional: &[],
    };
    let graph = decode(alloc, schema, fields, input)?.renumbered()?;
    let told = tell_graph(alloc, schema, fields, &graph, sink);
    drop(graph);
    Ok(told?)
}
