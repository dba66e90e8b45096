//! The encapsulation of a graph.

ghost use Rattle.std.specs.Prelude.{◌≡◌, ◌++◌, [], IfOk};
ghost use Rattle.ice_encoding.specs.CanonicalGraph.{bytes_of};
ghost use Rattle.ice_encoding.specs.TypedGraph.{OfType};
ghost use Rattle.value_parts.specs.Shapes.{shape_seen};
ghost use Rattle.instance_writing.specs.Formats.{view_format};
ghost use Rattle.instance_writing.specs.Remains.{with_options};
ghost use Rattle.instance_writing.specs.Writable.{GraphCanBeWritten};
ghost use Rattle.class_slices.specs.Enclosing.{unsized};
ghost use Rattle.class_slices.specs.Encoding.{Writes};

use crate::enclosing::{begin_encaps, end_encaps};
use crate::unknown::allow;
use crate::write_fault::WriteFault;
use graph_arena::Graph;
use ice_types::{Member, Schema};
use instance_writing::{Format, write_numbered};
use std::alloc::{AllocError, Global};
use value_parts::DeclaredMembers;

/// The canonical encapsulation of a graph of the type, in the format, where it is not longer than the limit.
/// The instances that the roots lead to are named by the order of their first visits; the others are left
/// out. Compact format is refused where one of them has an unknown slice, with the first that has, whatever the
/// limit; an encapsulation that is longer is refused with its length.
/// (Ice manual, "Data Encoding for Class and Exception Types".)
pub fn encode_typed(
    alloc: Global,
    schema: &Schema,
    fields: DeclaredMembers<'_>,
    graph: Graph,
    format: Format,
    limit: u32,
) -> Result<Vec<u8>, WriteFault>
    requires typed { OfType schema.now (shape_seen fields) graph }
    ensures { Writes schema.now (shape_seen fields.entry) (view_format format) graph limit result }
{
    // Its contract says what every graph keeps.
    graph.len();
    match allow(&graph, format) {
        Ok(()) => {}
        Err(fault) => {
            drop(graph);
            return Err(fault);
        }
    }
    let numbered = graph.renumbered()?;
    let begun = begun_with(alloc, schema, fields.optional, format, &numbered);
    drop(numbered);
    let out = begun?;
    match end_encaps(out, limit) {
        Ok(out) => Ok(out),
        Err(length) => Err(WriteFault::TooLong(length)),
    }
}

/// An encapsulation that has begun, with the bytes of a graph whose instances are named by the order of their
/// first visits.
fn begun_with(
    alloc: Global,
    schema: &Schema,
    optional: &[Member],
    format: Format,
    numbered: &Graph,
) -> Result<Vec<u8>, AllocError>
    requires { GraphCanBeWritten schema.now numbered.now }
    ensures { IfOk result (λ out. out.items
        ≡ unsized [] ++ bytes_of schema.now (with_options optional.now) (view_format format) numbered.now) }
{
    let mut out = begin_encaps(alloc)?;
    write_numbered(alloc, schema, optional, format, numbered, &mut out)?;
    Ok(out)
}
