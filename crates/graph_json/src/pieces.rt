//! Texts of the parts of a graph, each put behind what stands there, for those that write a long text piece by piece.

ghost use Rattle.std.specs.Prelude.{◌≡◌, ◌++◌, ◌-◌, IfOk};
ghost use Rattle.serde_json.specs.Written.{compact_text};
ghost use Rattle.graph_arena.specs.View.{view};
ghost use Rattle.graph_arena.specs.Seen.{view_content, view_slices};
ghost use Rattle.value_parts.specs.Shapes.{shape_seen};
ghost use Rattle.graph_json.specs.CanonicalValues.{notation_levels};
ghost use Rattle.graph_json.specs.Contents.{content_noted};
ghost use Rattle.graph_json.specs.Canonical.{instance_noted};

use crate::write::write_level;
use crate::writing::{write_content, write_instance};
use graph_arena::{Members, Slice, Value};
use ice_types::{MOST_DEPTH, Schema, TypeRef};
use json::Writer;
use std::alloc::{AllocError, Global};
use value_parts::DeclaredMembers;

/// Puts the text of an instance of these slices behind what stands there. Want of memory is the only refusal, and
/// leaves nothing.
pub fn push_instance(
    text: Vec<u8>,
    alloc: Global,
    schema: &Schema,
    slices: &[Slice],
) -> Result<Vec<u8>, AllocError>
    ensures { IfOk result (λ longer. longer.items
        ≡ text.items ++ compact_text (instance_noted schema.now (view_slices slices.now))) }
{
    let mut out = Writer::new(text);
    write_instance(&mut out, alloc, schema, slices)?;
    Ok(out.into_inner())
}

/// Puts the text of the object of these members' values behind what stands there, likewise.
pub fn push_content(
    text: Vec<u8>,
    alloc: Global,
    schema: &Schema,
    fields: DeclaredMembers<'_>,
    members: &Members,
) -> Result<Vec<u8>, AllocError>
    ensures { IfOk result (λ longer. longer.items ≡ text.items
        ++ compact_text (content_noted schema.now (shape_seen fields.entry) (view_content members.now))) }
{
    let mut out = Writer::new(text);
    write_content(&mut out, alloc, schema, fields, members)?;
    Ok(out.into_inner())
}

/// Puts the text of an item of a sequence behind what stands there, likewise.
pub fn push_item(
    text: Vec<u8>,
    alloc: Global,
    schema: &Schema,
    kind: TypeRef,
    value: &Value,
) -> Result<Vec<u8>, AllocError>
    ensures { IfOk result (λ longer. longer.items
        ≡ text.items ++ compact_text (notation_levels schema.now (MOST_DEPTH - 1) kind (view value.now))) }
{
    let mut out = Writer::new(text);
    write_level(&mut out, alloc, schema, MOST_DEPTH - 1, kind, value)?;
    Ok(out.into_inner())
}
