//! A value of a type from JSON.

ghost use Rattle.std.specs.Prelude.{◌≡◌, length, option_map, IfOk};
ghost use Rattle.graph_json.specs.View.{view as json_view, items_view, members_view};
ghost use Rattle.ice_types.specs.declared.kind.TypeRef.TheVariants as kinds;
ghost use Rattle.ice_encoding.specs.Tree.{no_entry, sequence, dictionary, struct};
ghost use Rattle.graph_arena.specs.View.{view, view_all, view_pair, view_pairs};
ghost use Rattle.graph_json.specs.ReadingValues as spec;
ghost use Rattle.graph_json.specs.ReadingValues.{both_of, each_of, few, members_of, noted_value, pairs_of};
ghost use Rattle.graph_json.specs.ReadingValues.{value_levels, value_step, whole};

use crate::enum_names::EnumNames;
use crate::found::{Found, named, object_in};
use crate::leaves::{
    bool_of, byte_of, enumerator_of, int_of, long_of, proxy_of, reference_of, short_of, text_of,
};
use crate::room::with_room;
use crate::tree::Json;
use graph_arena::{Value, in_order, put};
use ice_types::{DictDecl, List, MOST_DEPTH, Member, Schema, TypeRef};
use std::alloc::{AllocError, Global};
use std::collections::BTreeMap;

/// The value of the type that the JSON notes, or None where it notes none. Want of memory is the only
/// refusal.
pub fn value_of(
    alloc: Global,
    schema: &Schema,
    kind: TypeRef,
    json: &Json<'_>,
) -> Result<Option<Value>, AllocError>
    ensures { IfOk result (λ o. option_map view o ≡ noted_value schema.now kind (json_view json.now)) }
{
    value_with(alloc, schema, &EnumNames::none(alloc), kind, json)
}

/// The same, with hints where the enumerators stand.
pub(crate) fn value_with(
    alloc: Global,
    schema: &Schema,
    names: &EnumNames,
    kind: TypeRef,
    json: &Json<'_>,
) -> Result<Option<Value>, AllocError>
    ensures { IfOk result (λ o. option_map view o ≡ noted_value schema.now kind (json_view json.now)) }
{
    read_level(alloc, schema, names, MOST_DEPTH, kind, json)
}

/// The value of a type that nests at most so deep.
#[cycle(values)]
fn read_level(
    alloc: Global,
    schema: &Schema,
    names: &EnumNames,
    levels: u32,
    kind: TypeRef,
    json: &Json<'_>,
) -> Result<Option<Value>, AllocError>
    ensures { IfOk result (λ o. option_map view o ≡ value_levels schema.now levels kind (json_view json.now)) }
{
    if levels == 0 {
        return Ok(None);
    }
    read_parts(alloc, schema, names, levels - 1, kind, json)
}

/// The value of a type whose parts nest at most so deep.
#[cycle(values)]
fn read_parts(
    alloc: Global,
    schema: &Schema,
    names: &EnumNames,
    levels: u32,
    kind: TypeRef,
    json: &Json<'_>,
) -> Result<Option<Value>, AllocError>
    ensures { IfOk result (λ o. option_map view o
        ≡ value_step schema.now (value_levels schema.now levels) kind (json_view json.now)) }
{
    match kind {
        TypeRef::Bool => Ok(bool_of(json)),
        TypeRef::Byte => Ok(byte_of(json)),
        TypeRef::Short => Ok(short_of(json)),
        TypeRef::Int => Ok(int_of(json)),
        TypeRef::Long => Ok(long_of(json)),
        TypeRef::Text => text_of(alloc, json),
        TypeRef::Seq(at) => read_sequence(alloc, schema, names, levels, at, json),
        TypeRef::Dict(at) => read_dictionary(alloc, schema, names, levels, at, json),
        TypeRef::Struct(at) => read_struct(alloc, schema, names, levels, at, json),
        TypeRef::Enum(at) => Ok(enumerator_of(schema, names, at, json)),
        TypeRef::Proxy(_) => proxy_of(alloc, json),
        TypeRef::Class(_) => Ok(reference_of(json)),
    }
}

/// A value of the sequence at this place of the schema's table.
#[cycle(values)]
fn read_sequence(
    alloc: Global,
    schema: &Schema,
    names: &EnumNames,
    levels: u32,
    at: u32,
    json: &Json<'_>,
) -> Result<Option<Value>, AllocError>
    ensures { IfOk result (λ o. option_map view o
        ≡ value_step schema.now (value_levels schema.now levels) (kinds.Seq at) (json_view json.now)) }
{
    let Some(decl) = schema.seqs().get(at as usize) else {
        return Ok(None);
    };
    let Some(items) = json.as_array() else {
        return Ok(None);
    };
    read_items(alloc, schema, names, levels, decl.element, items)
}

/// A value of the dictionary at this place of the schema's table.
#[cycle(values)]
fn read_dictionary(
    alloc: Global,
    schema: &Schema,
    names: &EnumNames,
    levels: u32,
    at: u32,
    json: &Json<'_>,
) -> Result<Option<Value>, AllocError>
    ensures { IfOk result (λ o. option_map view o
        ≡ value_step schema.now (value_levels schema.now levels) (kinds.Dict at) (json_view json.now)) }
{
    let Some(decl) = schema.dicts().get(at as usize) else {
        return Ok(None);
    };
    let Some(items) = json.as_array() else {
        return Ok(None);
    };
    read_entries(alloc, schema, names, levels, decl, items)
}

/// A value of the struct at this place of the schema's table.
#[cycle(values)]
fn read_struct(
    alloc: Global,
    schema: &Schema,
    names: &EnumNames,
    levels: u32,
    at: u32,
    json: &Json<'_>,
) -> Result<Option<Value>, AllocError>
    ensures { IfOk result (λ o. option_map view o
        ≡ value_step schema.now (value_levels schema.now levels) (kinds.Struct at) (json_view json.now)) }
{
    let Some(decl) = schema.structs().get(at as usize) else {
        return Ok(None);
    };
    let Some(found) = object_in(json) else {
        return Ok(None);
    };
    read_whole(alloc, schema, names, levels, decl.members.as_slice(), found)
}

/// A sequence, where a size can say how many items there are.
#[cycle(values)]
fn read_items(
    alloc: Global,
    schema: &Schema,
    names: &EnumNames,
    levels: u32,
    kind: TypeRef,
    items: &Vec<Json<'_>>,
) -> Result<Option<Value>, AllocError>
    ensures { IfOk result (λ o. option_map view o
        ≡ few (λ ds. option_map sequence (each_of (value_levels schema.now levels kind) ds))
        (items_view items.now.items)) }
{
    if items.len() < 2_147_483_648 {
        match read_each(alloc, schema, names, levels, kind, items.as_slice())? {
            Some(items) => Ok(Some(Value::Seq(items))),
            None => Ok(None),
        }
    } else {
        Ok(None)
    }
}

/// A dictionary, where a size can say how many pairs there are.
#[cycle(values)]
fn read_entries(
    alloc: Global,
    schema: &Schema,
    names: &EnumNames,
    levels: u32,
    decl: &DictDecl,
    items: &Vec<Json<'_>>,
) -> Result<Option<Value>, AllocError>
    ensures { IfOk result (λ o. option_map view o
        ≡ few (λ ds. option_map dictionary
        (pairs_of (value_levels schema.now levels decl.now.key)
        (value_levels schema.now levels decl.now.value) no_entry ds)) (items_view items.now.items)) }
{
    if items.len() < 2_147_483_648 {
        match read_pairs(alloc, schema, names, levels, decl, items.as_slice())? {
            Some(pairs) => Ok(Some(Value::Pairs(pairs))),
            None => Ok(None),
        }
    } else {
        Ok(None)
    }
}

/// A struct, where there are as many names as members.
#[cycle(values)]
fn read_whole(
    alloc: Global,
    schema: &Schema,
    names: &EnumNames,
    levels: u32,
    members: &[Member],
    found: Found<'_, '_>,
) -> Result<Option<Value>, AllocError>
    ensures { IfOk result (λ o. option_map view o
        ≡ whole (length members.now)
        (λ ms. option_map struct (members_of (value_levels schema.now levels) members.now ms))
        (members_view found.entry.entries.now)) }
{
    if found.len() == members.len() {
        match read_members(alloc, schema, names, levels, members, found)? {
            Some(items) => Ok(Some(Value::Members(items))),
            None => Ok(None),
        }
    } else {
        Ok(None)
    }
}

/// The values of one type that the items note.
#[cycle(values)]
fn read_each(
    alloc: Global,
    schema: &Schema,
    names: &EnumNames,
    levels: u32,
    kind: TypeRef,
    items: &[Json<'_>],
) -> Result<Option<List<Value>>, AllocError>
    ensures { IfOk result (λ o. option_map view_all o
        ≡ each_of (value_levels schema.now levels kind) (items_view items.now)) }
{
    let mut values = with_room(alloc, items.len())?;
    for item in items {
        let Some(value) = read_level(alloc, schema, names, levels, kind, item)? else {
            return Ok(None);
        };
        values.push(value)?;
    }
    Ok(Some(values))
}

/// The values that stand at the members' names.
#[cycle(values)]
fn read_members(
    alloc: Global,
    schema: &Schema,
    names: &EnumNames,
    levels: u32,
    members: &[Member],
    found: Found<'_, '_>,
) -> Result<Option<List<Value>>, AllocError>
    ensures { IfOk result (λ o. option_map view_all o
        ≡ members_of (value_levels schema.now levels) members.now (members_view found.entry.entries.now)) }
{
    let mut values = with_room(alloc, members.len())?;
    for member in members {
        let Some(json) = named(found, member.name.as_str()) else {
            return Ok(None);
        };
        let Some(value) = read_level(alloc, schema, names, levels, member.kind, json)? else {
            return Ok(None);
        };
        values.push(value)?;
    }
    Ok(Some(values))
}

/// The pairs that the items note, in the order of their keys.
#[cycle(values)]
fn read_pairs(
    alloc: Global,
    schema: &Schema,
    names: &EnumNames,
    levels: u32,
    decl: &DictDecl,
    items: &[Json<'_>],
) -> Result<Option<List<(Value, Value)>>, AllocError>
    ensures { IfOk result (λ o. option_map view_pairs o
        ≡ pairs_of (value_levels schema.now levels decl.now.key)
        (value_levels schema.now levels decl.now.value) no_entry (items_view items.now)) }
{
    let mut pairs = BTreeMap::new(alloc);
    for item in items {
        let Some((key, value)) = read_pair(alloc, schema, names, levels, decl, item)? else {
            return Ok(None);
        };
        if !put(&mut pairs, key, value)? {
            return Ok(None);
        }
    }
    Ok(Some(in_order(alloc, pairs)?))
}

/// A key and its value.
#[cycle(values)]
fn read_pair(
    alloc: Global,
    schema: &Schema,
    names: &EnumNames,
    levels: u32,
    decl: &DictDecl,
    item: &Json<'_>,
) -> Result<Option<(Value, Value)>, AllocError>
    ensures { IfOk result (λ o. option_map view_pair o
        ≡ both_of (value_levels schema.now levels decl.now.key) (value_levels schema.now levels decl.now.value)
        (json_view item.now)) }
{
    let Some((first, second)) = pair_of(item) else {
        return Ok(None);
    };
    let Some(key) = read_level(alloc, schema, names, levels, decl.key, first)? else {
        return Ok(None);
    };
    let Some(value) = read_level(alloc, schema, names, levels, decl.value, second)? else {
        return Ok(None);
    };
    Ok(Some((key, value)))
}

/// The two items of an array of two.
fn pair_of<'a, 'b>(json: &'a Json<'b>) -> Option<(&'a Json<'b>, &'a Json<'b>)>
    ensures { option_map (λ p. (json_view p.0.now, json_view p.1.now)) result ≡ spec.pair_of (json_view json.now) }
{
    let items = json.as_array()?;
    if items.len() == 2 {
        Some((&items[0], &items[1]))
    } else {
        None
    }
}
