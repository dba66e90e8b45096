//! Whether compact format can carry a graph: it has no place for slices of classes that are not known.

ghost use Rattle.std.specs.Prelude.{◌↔◌, IsTrue, IfOk, length};
ghost use Rattle.graph_arena.specs.Arena.{AreBelow};
ghost use Rattle.graph_arena.specs.Seen.{view_slices};
ghost use Rattle.ice_encoding.specs.CanonicalGraph.{compact};
ghost use Rattle.instance_writing.specs.Formats.{view_format};
ghost use Rattle.class_slices.specs.Encoding.{BeginsUnknown};
ghost use Rattle.class_slices.specs.Unknown.{Allows, FindsFirstUnknown, IsFirstUnknownOf};

use crate::write_fault::WriteFault;
use graph_arena::{Graph, Slice};
use instance_writing::Format;
use std::alloc::AllocError;

/// Refuses a graph that the format cannot carry, by the first instance with an unknown slice. In compact format it
/// is refused too where there is no memory to look. (Ice manual, "Data Encoding for Class and Exception Types".)
pub(crate) fn allow(graph: &Graph, format: Format) -> Result<(), WriteFault>
    ensures { Allows (view_format format) graph.now result }
{
    match format {
        Format::Sliced => Ok(()),
        Format::Compact => allow_compact(graph),
    }
}

/// The same of compact format.
fn allow_compact(graph: &Graph) -> Result<(), WriteFault>
    ensures { Allows compact graph.now result }
{
    match first_unknown(graph)? {
        Some(place) => Err(WriteFault::UnknownNeedsSliced(place)),
        None => Ok(()),
    }
}

/// The first instance that has an unknown slice, of those that the roots lead to, in the order of their first
/// visits. None where there is none. It is refused where there is no memory for the order.
/// (Ice manual, "Data Encoding for Class and Exception Types".)
pub fn first_unknown(graph: &Graph) -> Result<Option<u32>, AllocError>
    ensures { IfOk result (FindsFirstUnknown graph.now) }
{
    // Its contract says what every graph keeps.
    graph.len();
    let order = graph.first_visit()?;
    Ok(first_of(graph, order.as_slice()))
}

/// The first of these places whose instance has an unknown slice.
fn first_of(graph: &Graph, places: &[u32]) -> Option<u32>
    requires { AreBelow (length graph.now.instances) places.now }
    ensures { IsFirstUnknownOf graph.now places.now result }
{
    for place in places {
        if begins_unknown(graph.instance(*place).slices.as_slice()) {
            return Some(*place);
        }
    }
    None
}

/// Whether the first slice is kept; in an instance no unknown slice stands behind a known one.
/// (Ice manual, "Data Encoding for Class and Exception Types".)
pub fn begins_unknown(slices: &[Slice]) -> bool
    ensures { IsTrue result ↔ BeginsUnknown (view_slices slices.now) }
{
    match slices.first() {
        Some(Slice::Unknown(_)) => true,
        Some(Slice::Known { .. }) => false,
        None => false,
    }
}
