//! Whether compact format can carry an exception: it has no place for slices that are not known.

ghost use Rattle.ice_encoding.specs.CanonicalGraph.{compact};
ghost use Rattle.instance_writing.specs.Formats.{view_format};
ghost use Rattle.graph_arena.specs.Seen.{view_slices};
ghost use Rattle.class_slices.specs.ExceptionUnknown.{Allows};

use crate::unknown::{begins_unknown, first_unknown};
use crate::user_exception_fault::UserExceptionFault;
use graph_arena::{Graph, Slice};
use instance_writing::Format;

/// Refuses an exception with these slices that the format cannot carry, by the first part of it that has a
/// unknown slice: its own slices, or an instance of the graph whose roots they stand for. It is refused too where
/// there is no memory to look. (Ice manual, "Data Encoding for Class and Exception Types".)
pub(crate) fn allow(
    slices: &[Slice],
    graph: &Graph,
    format: Format,
) -> Result<(), UserExceptionFault>
    ensures { Allows (view_format format) (view_slices slices.now) graph.now result }
{
    match format {
        Format::Sliced => Ok(()),
        Format::Compact => allow_compact(slices, graph),
    }
}

/// The same of compact format.
fn allow_compact(slices: &[Slice], graph: &Graph) -> Result<(), UserExceptionFault>
    ensures { Allows compact (view_slices slices.now) graph.now result }
{
    if begins_unknown(slices) {
        return Err(UserExceptionFault::UnknownNeedsSliced(None));
    }
    match first_unknown(graph)? {
        Some(place) => Err(UserExceptionFault::UnknownNeedsSliced(Some(place))),
        None => Ok(()),
    }
}
