//! A graph in bytes, over an explicit stack of instances that have begun.

ghost use Rattle.std.specs.Prelude.{◌≡◌, ℕ, ◌+◌, ◌-◌, ◌++◌, ◌<◌, ◌≤◌, [], ◌∷◌, length, OnOk};
ghost use Rattle.ice_encoding.specs.Names.{instance_names};
ghost use Rattle.ice_encoding.specs.Instances.{slices_of};
ghost use Rattle.ice_encoding.specs.Visiting.{most};
ghost use Rattle.ice_encoding.specs.CanonicalGraph.{bytes_of};
ghost use Rattle.graph_arena.specs.Arena.{AreBelow};
ghost use Rattle.graph_arena.specs.Seen.{view_slices};
ghost use Rattle.value_writing.specs.Putting.{onto};
ghost use Rattle.instance_writing.specs.Formats.{view_format};
ghost use Rattle.instance_writing.specs.Pens.{room};
ghost use Rattle.instance_writing.specs.Tabling.{no_names};
ghost use Rattle.instance_writing.specs.Remains.{AllFit, inside_at, stack_left, steps_left, with_options};
ghost use Rattle.instance_writing.specs.Writable.{GraphCanBeWritten, SlicesCanBeWritten};

use crate::encoder::Encoder;
use crate::format::Format;
use crate::pen::Pen;
use crate::slice::Desk;
use crate::unfinished::Unfinished;
use graph_arena::{Graph, Slice};
use ice_types::{List, Member, Schema};
use std::alloc::{AllocError, Global};
use value_parts::{Paused, SlicedType};
use value_writing::{Ending, MembersWriter};

/// Puts the canonical bytes, in the format, of a graph whose instances are named by the order of their
/// first visits at the end of the output. Of the shape of its roots the optional members are told. Out of
/// memory may leave a part of them there; so may a slice or an optional value of more bytes than the
/// greatest int, or a table of more entries, which is answered as that is. Slices that were kept of classes
/// that are not known have no place in compact format: of each only the flags and, where it is the first,
/// the type id are written, so ask before whether the graph has any.
/// (Ice manual, "Data Encoding for Class and Exception Types".)
pub fn write_numbered(
    alloc: Global,
    schema: &Schema,
    optional: &[Member],
    format: Format,
    graph: &Graph,
    out: &mut Vec<u8>,
) -> Result<(), AllocError>
    requires { GraphCanBeWritten schema.now graph.now }
    ensures { OnOk result (out.new.items
        ≡ out.old.items ++ bytes_of schema.now (with_options optional.now) (view_format format) graph.now) }
{
    let encoder = Encoder {
        alloc,
        schema,
        format,
    };
    let mut pen = Pen::new(alloc);
    let mut desk = Desk::new(alloc, graph.len())?;
    let mut roots = MembersWriter::new(alloc, graph.roots(), Ending::Bound)?;
    loop {
        match roots.go(alloc, schema, optional, out, &mut pen)? {
            Paused::Done(()) => return Ok(()),
            Paused::Begins(name) => {
                put_instance(&encoder, graph, name, &mut pen, &mut desk, out)?;
            }
        }
    }
}

/// Puts an instance that has just begun, with all that begin in it.
pub(crate) fn put_instance<'a>(
    by: &Encoder<'a>,
    graph: &'a Graph,
    name: u32,
    pen: &mut Pen<'a>,
    desk: &mut Desk,
    out: &mut Vec<u8>,
) -> Result<(), AllocError>
    requires fits { (n : ℕ) → SlicesCanBeWritten by.now.schema.now (slices_of graph.now.instances n) }
    requires few { length graph.now.instances ≤ most }
    requires desk { desk.old.table ≡ no_names (length graph.now.instances) }
    requires begun { room pen.old < most }
    ensures writes { OnOk result ((pen.new, out.new.items)
        ≡ onto (inside_at by.now.schema.now (view_format by.now.format) graph.now most name) (pen.old, out.old.items)) }
    ensures desk { OnOk result (desk.new.table ≡ desk.old.table) }
    ensures room { OnOk result (room pen.new ≤ room pen.old) }
{
    let mut stack = List::new(by.alloc);
    stack.push(Unfinished::new(slices_of(graph, name)))?;
    while let Some(top) = stack.pop() {
        put_more(by, graph, top, &mut stack, pen, desk, out)?;
    }
    Ok(())
}

/// Writes on in the innermost instance, up to its end or to the begin of the next one.
fn put_more<'a>(
    by: &Encoder<'a>,
    graph: &'a Graph,
    mut top: Unfinished<'a>,
    stack: &mut List<Unfinished<'a>>,
    pen: &mut Pen<'a>,
    desk: &mut Desk,
    out: &mut Vec<u8>,
) -> Result<(), AllocError>
    requires can { (n : ℕ) → SlicesCanBeWritten by.now.schema.now (slices_of graph.now.instances n) }
    requires few { length graph.now.instances ≤ most }
    requires desk { desk.old.table ≡ no_names (length graph.now.instances) }
    requires fits { AllFit by.now.schema.now (length graph.now.instances) (stack.old ++ top ∷ []) out.old.items }
    requires deep { length stack.old + 1 + room pen.old ≤ most }
    ensures writes { OnOk result
        (stack_left by.now.schema.now (view_format by.now.format) graph.now (most - 1) (stack.old ++ top.entry ∷ [])
        (pen.old, out.old.items)
        ≡ stack_left by.now.schema.now (view_format by.now.format) graph.now (most - 1) stack.new
        (pen.new, out.new.items)) }
    ensures fits { OnOk result (AllFit by.now.schema.now (length graph.now.instances) stack.new out.new.items) }
    ensures desk { OnOk result (desk.new.table ≡ desk.old.table) }
    ensures deep { OnOk result (length stack.new + room pen.new ≤ most) }
    ensures room { OnOk result (room pen.new ≤ room pen.old) }
    ensures less { OnOk result
        (steps_left (room pen.new) (length stack.new) < steps_left (room pen.old) (length stack.old + 1)) }
{
    match top.go(by, SlicedType::Class, pen, desk, out)? {
        Paused::Done(()) => Ok(()),
        Paused::Begins(name) => {
            stack.push(top)?;
            stack.push(Unfinished::new(slices_of(graph, name)))?;
            Ok(())
        }
    }
}

/// The slices of the instance of this name, none where there is no such instance.
fn slices_of(graph: &Graph, name: u32) -> &[Slice]
    ensures slices { view_slices result.now ≡ slices_of graph.now.instances name }
    ensures names { AreBelow (length graph.now.instances) (instance_names (slices_of graph.now.instances name)) }
{
    if name < graph.len() {
        graph.instance(name).slices.as_slice()
    } else {
        &[]
    }
}
