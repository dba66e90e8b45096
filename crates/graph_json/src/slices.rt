//! The slices of an instance from JSON.

ghost use Rattle.std.specs.Prelude.{◌≡◌, IfOk, codes, option_map};
ghost use Rattle.hex.specs.Hex.{decode_of};
ghost use Rattle.serde_json.specs.Find.{as_bool, as_str};
ghost use Rattle.graph_json.specs.View.{view as json_view, items_view, members_view};
ghost use Rattle.graph_arena.specs.Seen.{view_slice, view_slices};
ghost use Rattle.graph_json.specs.ReadingValues as values;
ghost use Rattle.graph_json.specs.Reading as spec;
ghost use Rattle.graph_json.specs.Reading.{at_name, items_of, list_of};

use crate::content_read::content_with;
use crate::enum_names::EnumNames;
use crate::found::{Found, named, object_in};
use crate::leaves::name_of;
use crate::room::with_room;
use crate::tree::Json;
use graph_arena::{Slice, UnknownSlice};
use hex::FromHexError;
use ice_types::{Bytes, List, Name, Schema};
use std::alloc::{AllocError, Global};
use value_parts::{DeclaredMembers, SlicedType};

/// The slices that an array lists, or None where it lists none. Want of memory is the only refusal.
pub(crate) fn slices_of(
    alloc: Global,
    schema: &Schema,
    names: &EnumNames,
    json: &Json<'_>,
) -> Result<Option<List<Slice>>, AllocError>
    ensures { IfOk result (λ o. option_map view_slices o ≡ list_of (spec.slice_of schema.now) (json_view json.now)) }
{
    match json.as_array() {
        Some(items) => each_slice(alloc, schema, names, items.as_slice()),
        None => Ok(None),
    }
}

fn each_slice(
    alloc: Global,
    schema: &Schema,
    names: &EnumNames,
    items: &[Json<'_>],
) -> Result<Option<List<Slice>>, AllocError>
    ensures { IfOk result (λ o. option_map view_slices o ≡ items_of (spec.slice_of schema.now) (items_view items.now)) }
{
    let mut slices = with_room(alloc, items.len())?;
    for item in items {
        let Some(slice) = slice_of(alloc, schema, names, item)? else {
            drop(slices);
            return Ok(None);
        };
        slices.push(slice)?;
    }
    Ok(Some(slices))
}

/// A slice: an object of two names is that of a known class, and one of four is kept.
fn slice_of(
    alloc: Global,
    schema: &Schema,
    names: &EnumNames,
    json: &Json<'_>,
) -> Result<Option<Slice>, AllocError>
    ensures { IfOk result (λ o. option_map view_slice o ≡ spec.slice_of schema.now (json_view json.now)) }
{
    let Some(found) = object_in(json) else {
        return Ok(None);
    };
    let count = found.len();
    if count == 2 {
        known_in(alloc, schema, names, found)
    } else if count == 4 {
        unknown_in(alloc, found)
    } else {
        Ok(None)
    }
}

/// A slice of a known class, from its type id and the values of its own members.
fn known_in(
    alloc: Global,
    schema: &Schema,
    names: &EnumNames,
    found: Found<'_, '_>,
) -> Result<Option<Slice>, AllocError>
    ensures { IfOk result (λ o. option_map view_slice o
        ≡ spec.known_in schema.now (members_view found.entry.entries.now)) }
{
    let Some(class) = class_in(schema, found) else {
        return Ok(None);
    };
    let Some(inside) = named(found, "members") else {
        return Ok(None);
    };
    let own = SlicedType::Class.own_members(schema, class);
    let fields = DeclaredMembers {
        required: own,
        optional: own,
    };
    match content_with(alloc, schema, names, fields, inside)? {
        Some(members) => Ok(Some(Slice::Known { class, members })),
        None => Ok(None),
    }
}

/// The class whose type id stands there.
fn class_in(schema: &Schema, found: Found<'_, '_>) -> Option<u32>
    ensures { result ≡ at_name (codes "class") (spec.class_of schema.now) (members_view found.entry.entries.now) }
{
    let id = named(found, "class")?.as_str()?;
    SlicedType::Class.row_named(schema, id)
}

/// An unknown slice, from its bytes, its type id, whether optional members stand in the bytes, and its table.
fn unknown_in(alloc: Global, found: Found<'_, '_>) -> Result<Option<Slice>, AllocError>
    ensures { IfOk result (λ o. option_map view_slice o ≡ spec.unknown_in (members_view found.entry.entries.now)) }
{
    let Some(bytes) = bytes_in(alloc, found)? else {
        return Ok(None);
    };
    let Some(id) = text_in(found, "kept") else {
        return Ok(None);
    };
    let Some(optionals) = bool_in(found, "optionals") else {
        return Ok(None);
    };
    let Some(table) = table_in(alloc, found)? else {
        return Ok(None);
    };
    let kept = UnknownSlice {
        id: Name::of(alloc, id)?,
        bytes,
        optionals,
        table,
    };
    Ok(Some(Slice::Unknown(Box::new(alloc, kept)?)))
}

/// The text at a name.
fn text_in<'b>(found: Found<'_, 'b>, name: &str) -> Option<&'b str>
    ensures { option_map (λ text. text.now) result ≡ at_name name.now as_str (members_view found.entry.entries.now) }
{
    named(found, name)?.as_str()
}

/// The truth value at a name.
fn bool_in(found: Found<'_, '_>, name: &str) -> Option<bool>
    ensures { result ≡ at_name name.now as_bool (members_view found.entry.entries.now) }
{
    named(found, name)?.as_bool()
}

/// The bytes that stand in hexadecimal digits, in either case of letters.
fn bytes_in(alloc: Global, found: Found<'_, '_>) -> Result<Option<Bytes>, AllocError>
    ensures { IfOk result (λ o. o ≡ at_name (codes "bytes") spec.bytes_of (members_view found.entry.entries.now)) }
{
    match text_in(found, "bytes") {
        Some(digits) => decoded(alloc, digits),
        None => Ok(None),
    }
}

fn decoded(alloc: Global, digits: &str) -> Result<Option<Bytes>, AllocError>
    ensures { IfOk result (λ o. o ≡ spec.decoded (decode_of digits.now)) }
{
    match hex::decode(alloc, digits.as_bytes()) {
        Ok(bytes) => Ok(Some(List::from_vec(bytes))),
        Err(FromHexError::OutOfMemory) => Err(AllocError),
        Err(_) => Ok(None),
    }
}

/// The names of instances in a table.
fn table_in(alloc: Global, found: Found<'_, '_>) -> Result<Option<List<u32>>, AllocError>
    ensures { IfOk result (λ o. o
        ≡ at_name (codes "table") (list_of values.name_of) (members_view found.entry.entries.now)) }
{
    match named(found, "table") {
        Some(json) => names_of(alloc, json),
        None => Ok(None),
    }
}

fn names_of(alloc: Global, json: &Json<'_>) -> Result<Option<List<u32>>, AllocError>
    ensures { IfOk result (λ o. o ≡ list_of values.name_of (json_view json.now)) }
{
    match json.as_array() {
        Some(items) => each_name(alloc, items.as_slice()),
        None => Ok(None),
    }
}

fn each_name(alloc: Global, items: &[Json<'_>]) -> Result<Option<List<u32>>, AllocError>
    ensures { IfOk result (λ o. o ≡ items_of values.name_of (items_view items.now)) }
{
    let mut names = with_room(alloc, items.len())?;
    for item in items {
        let Some(name) = name_of(item) else {
            return Ok(None);
        };
        names.push(name)?;
    }
    Ok(Some(names))
}
