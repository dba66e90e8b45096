//! The notation of a graph, in the order of its instances, token by token.

ghost use Rattle.std.specs.Prelude.{OnOk};
ghost use Rattle.hex.specs.Hex.{encode_lower};
ghost use Rattle.serde_json.specs.Data.{string};
ghost use Rattle.ice_types.specs.Tables.{Tables};
ghost use Rattle.ice_encoding.specs.Graph.{unknown, known};
ghost use Rattle.graph_arena.specs.Seen.{view_content, view_slice, view_slices};
ghost use Rattle.value_parts.specs.Shapes.{shape_seen};
ghost use Rattle.graph_json.specs.ValueNotation.{name_noted};
ghost use Rattle.graph_json.specs.Contents.{content_noted};
ghost use Rattle.graph_json.specs.Canonical.{graph_noted, instance_noted, items_noted, slice_noted};
ghost use Rattle.graph_json.specs.Printing.{Prints, PrintsItems};

use crate::rows::{Row, put_optional, put_required};
use crate::write::write_object;
use crate::write_leaves::{write_bool, write_name, write_text};
use graph_arena::{Graph, Members, Slice, UnknownSlice};
use ice_types::Schema;
use json::Writer;
use std::alloc::{AllocError, Global};
use value_parts::{DeclaredMembers, SlicedType};

/// The notation of a graph whose roots are of these members: its instances as they stand. Want of memory is
/// the only refusal.
pub(crate) fn write_graph(
    out: &mut Writer,
    alloc: Global,
    schema: &Schema,
    fields: DeclaredMembers<'_>,
    graph: &Graph,
) -> Result<(), AllocError>
    ensures { OnOk result (Prints (graph_noted schema.now (shape_seen fields.entry) graph.now) out.old out.new) }
{
    out.begin_object()?;
    out.key("instances")?;
    out.begin_array()?;
    write_instances(out, alloc, schema, graph)?;
    out.key("roots")?;
    write_content(out, alloc, schema, fields, graph.roots())?;
    out.end_object()
}

/// The instances one after the other, and the end of their array.
fn write_instances(
    out: &mut Writer,
    alloc: Global,
    schema: &Schema,
    graph: &Graph,
) -> Result<(), AllocError>
    ensures { OnOk result (PrintsItems (items_noted (instance_noted schema.now) graph.now.instances) out.old out.new) }
{
    for at in 0..graph.len() {
        write_instance(out, alloc, schema, graph.instance(at).slices.as_slice())?;
    }
    out.end_array()
}

pub(crate) fn write_instance(
    out: &mut Writer,
    alloc: Global,
    schema: &Schema,
    slices: &[Slice],
) -> Result<(), AllocError>
    ensures { OnOk result (Prints (instance_noted schema.now (view_slices slices.now)) out.old out.new) }
{
    out.begin_object()?;
    out.key("slices")?;
    out.begin_array()?;
    write_slices(out, alloc, schema, slices)?;
    out.end_object()
}

/// The slices one after the other, and the end of their array.
fn write_slices(
    out: &mut Writer,
    alloc: Global,
    schema: &Schema,
    slices: &[Slice],
) -> Result<(), AllocError>
    ensures { OnOk result (PrintsItems (items_noted (slice_noted schema.now) (view_slices slices.now))
        out.old out.new) }
{
    for slice in slices {
        write_slice(out, alloc, schema, slice)?;
    }
    out.end_array()
}

fn write_slice(
    out: &mut Writer,
    alloc: Global,
    schema: &Schema,
    slice: &Slice,
) -> Result<(), AllocError>
    ensures { OnOk result (Prints (slice_noted schema.now (view_slice slice.now)) out.old out.new) }
{
    match slice {
        Slice::Known { class, members } => write_known(out, alloc, schema, *class, members),
        Slice::Unknown(kept) => write_unknown(out, alloc, kept),
    }
}

/// A slice of a known class: its type id, none where there is no such class, and the values of its own
/// members by name.
fn write_known(
    out: &mut Writer,
    alloc: Global,
    schema: &Schema,
    class: u32,
    members: &Members,
) -> Result<(), AllocError>
    ensures { OnOk result (Prints (slice_noted schema.now (known class (view_content members.now)))
        out.old out.new) }
{
    let own = SlicedType::Class.own_members(schema, class);
    let fields = DeclaredMembers {
        required: own,
        optional: own,
    };
    out.begin_object()?;
    out.key("class")?;
    write_text(out, SlicedType::Class.id_of(schema, class))?;
    out.key("members")?;
    write_content(out, alloc, schema, fields, members)?;
    out.end_object()
}

/// The values of these members: an object by the members' names, without those of optional members that are
/// absent.
pub(crate) fn write_content(
    out: &mut Writer,
    alloc: Global,
    schema: &Schema,
    fields: DeclaredMembers<'_>,
    members: &Members,
) -> Result<(), AllocError>
    ensures { OnOk result (Prints
        (content_noted schema.now (shape_seen fields.entry) (view_content members.now)) out.old out.new) }
{
    let mut row = Row::new(alloc);
    put_required(&mut row, fields.required, members.required.as_slice())?;
    put_optional(&mut row, fields.optional, members.optional.as_slice())?;
    write_object(out, alloc, schema, &row)
}

/// An unknown slice: its bytes in hexadecimal digits, its type id, and its table.
fn write_unknown(out: &mut Writer, alloc: Global, kept: &UnknownSlice) -> Result<(), AllocError>
    ensures { (t : Tables) → OnOk result (Prints
        (slice_noted t (unknown kept.now.id kept.now.bytes kept.now.optionals kept.now.table)) out.old out.new) }
{
    out.begin_object()?;
    out.key("bytes")?;
    write_hex(out, alloc, kept.bytes.as_slice())?;
    out.key("kept")?;
    write_text(out, kept.id.as_str())?;
    out.key("optionals")?;
    write_bool(out, kept.optionals)?;
    out.key("table")?;
    out.begin_array()?;
    write_names(out, kept.table.as_slice())?;
    out.end_object()
}

/// The bytes in hexadecimal digits.
fn write_hex(out: &mut Writer, alloc: Global, bytes: &[u8]) -> Result<(), AllocError>
    ensures { OnOk result (Prints (string (encode_lower bytes.now)) out.old out.new) }
{
    write_text(out, hex::encode(alloc, bytes)?.as_str())
}

/// The names one after the other, and the end of their array.
fn write_names(out: &mut Writer, names: &[u32]) -> Result<(), AllocError>
    ensures { OnOk result (PrintsItems (items_noted name_noted names.now) out.old out.new) }
{
    for name in names {
        write_name(out, *name)?;
    }
    out.end_array()
}
