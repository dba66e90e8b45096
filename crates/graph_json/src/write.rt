//! The canonical notation of a value, token by token.

ghost use Rattle.std.specs.Prelude.{OnOk, if◌then◌else◌, map};
ghost use Rattle.serde_json.specs.Data.{object, number, unsigned, null};
ghost use Rattle.serde_json.specs.View.{items_of};
ghost use Rattle.ice_types.specs.declared.kind.TypeRef.TheVariants as kinds;
ghost use Rattle.ice_encoding.specs.Tree.{dictionary, sequence, struct};
ghost use Rattle.graph_arena.specs.View.{byte_trees, view, view_all, view_pairs};
ghost use Rattle.graph_json.specs.CanonicalValues.{each_noted, notation, notation_levels, notation_step, pairs_noted};
ghost use Rattle.graph_json.specs.Printing.{Prints, PrintsItems, row_noted};

use crate::rows::{Row, put_members};
use crate::write_leaves::{
    write_bool, write_byte, write_enumerator, write_integer, write_null, write_proxy,
    write_reference, write_text, write_unsigned,
};
use graph_arena::Value;
use ice_types::{DictDecl, MOST_DEPTH, Schema, TypeRef};
use json::Writer;
use std::alloc::{AllocError, Global};
use value_checks::is_byte_type;

/// An object of the canonical notations of the values, each at its name: dictionaries in rising order of
/// their keys, and null in the place of a part that is not of its type. Want of memory is the only
/// refusal.
pub(crate) fn write_object(
    out: &mut Writer,
    alloc: Global,
    schema: &Schema,
    row: &Row<'_>,
) -> Result<(), AllocError>
    ensures { OnOk result (Prints (object (row_noted (notation schema.now) row.now.entries)) out.old out.new) }
{
    write_row(out, alloc, schema, MOST_DEPTH, row)
}

#[cycle(notes)]
pub(crate) fn write_level(
    out: &mut Writer,
    alloc: Global,
    schema: &Schema,
    levels: u32,
    kind: TypeRef,
    value: &Value,
) -> Result<(), AllocError>
    ensures { OnOk result (Prints (notation_levels schema.now levels kind (view value.now)) out.old out.new) }
{
    if levels == 0 {
        return write_null(out);
    }
    write_parts(out, alloc, schema, levels - 1, kind, value)
}

#[cycle(notes)]
fn write_parts(
    out: &mut Writer,
    alloc: Global,
    schema: &Schema,
    levels: u32,
    kind: TypeRef,
    value: &Value,
) -> Result<(), AllocError>
    ensures { OnOk result (Prints
        (notation_step schema.now (notation_levels schema.now levels) kind (view value.now)) out.old out.new) }
{
    match (kind, value) {
        (TypeRef::Bool, Value::Bool(b)) => write_bool(out, *b),
        (TypeRef::Byte, Value::Byte(n)) => write_unsigned(out, u64::from(*n)),
        (TypeRef::Short, Value::Short(n)) => write_integer(out, i64::from(*n)),
        (TypeRef::Int, Value::Int(n)) => write_integer(out, i64::from(*n)),
        (TypeRef::Long, Value::Long(n)) => write_integer(out, *n),
        (TypeRef::Text, Value::Text(text)) => write_text(out, text.as_str()),
        (TypeRef::Seq(at), Value::Seq(items)) => {
            write_sequence(out, alloc, schema, levels, at, items.as_slice())
        }
        (TypeRef::Seq(at), Value::Bytes(bytes)) => {
            write_bytes(out, schema, levels, at, bytes.as_slice())
        }
        (TypeRef::Dict(at), Value::Pairs(pairs)) => {
            write_dictionary(out, alloc, schema, levels, at, pairs.as_slice())
        }
        (TypeRef::Struct(at), Value::Members(items)) => {
            write_struct(out, alloc, schema, levels, at, items.as_slice())
        }
        (TypeRef::Enum(at), Value::Enum(number)) => write_enumerator(out, schema, at, *number),
        (TypeRef::Proxy(_), Value::Proxy(proxy)) => write_proxy(out, alloc, proxy),
        (TypeRef::Class(_), Value::Reference(number)) => write_reference(out, *number),
        _ => write_null(out),
    }
}

#[cycle(notes)]
fn write_sequence(
    out: &mut Writer,
    alloc: Global,
    schema: &Schema,
    levels: u32,
    at: u32,
    items: &[Value],
) -> Result<(), AllocError>
    ensures { OnOk result (Prints (notation_step schema.now (notation_levels schema.now levels) (kinds.Seq at)
        (sequence (view_all items.now))) out.old out.new) }
{
    match schema.seqs().get(at as usize) {
        Some(decl) => {
            out.begin_array()?;
            write_each(out, alloc, schema, levels, decl.element, items)
        }
        None => write_null(out),
    }
}

/// The same of bytes.
fn write_bytes(
    out: &mut Writer,
    schema: &Schema,
    levels: u32,
    at: u32,
    bytes: &[u8],
) -> Result<(), AllocError>
    ensures { OnOk result (Prints (notation_step schema.now (notation_levels schema.now levels) (kinds.Seq at)
        (sequence (byte_trees bytes.now))) out.old out.new) }
{
    match schema.seqs().get(at as usize) {
        Some(decl) => {
            out.begin_array()?;
            write_each_byte(out, is_byte_type(levels, decl.element), bytes)
        }
        None => write_null(out),
    }
}

/// The bytes one after the other, each as `write_byte` has it, and the end of their array.
fn write_each_byte(out: &mut Writer, are_of: bool, bytes: &[u8]) -> Result<(), AllocError>
    ensures { OnOk result (PrintsItems
        (items_of (map (λ n. if are_of then number (unsigned n) else null) bytes.now)) out.old out.new) }
{
    for byte in bytes {
        write_byte(out, are_of, *byte)?;
    }
    out.end_array()
}

#[cycle(notes)]
fn write_dictionary(
    out: &mut Writer,
    alloc: Global,
    schema: &Schema,
    levels: u32,
    at: u32,
    pairs: &[(Value, Value)],
) -> Result<(), AllocError>
    ensures { OnOk result (Prints (notation_step schema.now (notation_levels schema.now levels) (kinds.Dict at)
        (dictionary (view_pairs pairs.now))) out.old out.new) }
{
    match schema.dicts().get(at as usize) {
        Some(decl) => {
            out.begin_array()?;
            write_pairs(out, alloc, schema, levels, decl, pairs)
        }
        None => write_null(out),
    }
}

#[cycle(notes)]
fn write_struct(
    out: &mut Writer,
    alloc: Global,
    schema: &Schema,
    levels: u32,
    at: u32,
    items: &[Value],
) -> Result<(), AllocError>
    ensures { OnOk result (Prints (notation_step schema.now (notation_levels schema.now levels) (kinds.Struct at)
        (struct (view_all items.now))) out.old out.new) }
{
    match schema.structs().get(at as usize) {
        Some(decl) => {
            let mut row = Row::new(alloc);
            put_members(&mut row, decl.members.as_slice(), items)?;
            write_row(out, alloc, schema, levels, &row)
        }
        None => write_null(out),
    }
}

/// The values one after the other, and the end of their array.
#[cycle(notes)]
fn write_each(
    out: &mut Writer,
    alloc: Global,
    schema: &Schema,
    levels: u32,
    kind: TypeRef,
    values: &[Value],
) -> Result<(), AllocError>
    ensures { OnOk result (PrintsItems
        (each_noted (notation_levels schema.now levels kind) (view_all values.now)) out.old out.new) }
{
    for value in values {
        write_level(out, alloc, schema, levels, kind, value)?;
    }
    out.end_array()
}

/// The pairs one after the other, and the end of their array.
#[cycle(notes)]
fn write_pairs(
    out: &mut Writer,
    alloc: Global,
    schema: &Schema,
    levels: u32,
    decl: &DictDecl,
    pairs: &[(Value, Value)],
) -> Result<(), AllocError>
    ensures { OnOk result (PrintsItems (pairs_noted (notation_levels schema.now levels decl.now.key)
        (notation_levels schema.now levels decl.now.value) (view_pairs pairs.now)) out.old out.new) }
{
    for (key, value) in pairs {
        out.begin_array()?;
        write_level(out, alloc, schema, levels, decl.key, key)?;
        write_level(out, alloc, schema, levels, decl.value, value)?;
        out.end_array()?;
    }
    out.end_array()
}

/// An object of the values at their names.
#[cycle(notes)]
fn write_row(
    out: &mut Writer,
    alloc: Global,
    schema: &Schema,
    levels: u32,
    row: &Row<'_>,
) -> Result<(), AllocError>
    ensures { OnOk result (Prints (object (row_noted (notation_levels schema.now levels) row.now.entries))
        out.old out.new) }
{
    out.begin_object()?;
    for (name, field) in row.iter() {
        out.key(name)?;
        write_level(out, alloc, schema, levels, field.kind, field.value)?;
    }
    out.end_object()
}
