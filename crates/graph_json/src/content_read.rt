//! Members from JSON, by their names.

ghost use Rattle.std.specs.Prelude.{◌≡◌, ◌+◌, ◌==◌, [], IfOk, option_map, option_and_then};
ghost use Rattle.serde_json.specs.Find.{get_member};
ghost use Rattle.graph_json.specs.View.{view as json_view, members_view};
ghost use Rattle.graph_arena.specs.View.{view, view_all};
ghost use Rattle.graph_arena.specs.Seen.{view_content, view_present};
ghost use Rattle.value_parts.specs.Shapes.{shape_seen, with_tag, without_tag};
ghost use Rattle.graph_json.specs.ReadingValues.{members_of, noted_value};
ghost use Rattle.graph_json.specs.Contents.{noted_content, options_of};

use crate::enum_names::EnumNames;
use crate::found::{Found, named, object_in};
use crate::read::value_with;
use crate::tree::Json;
use graph_arena::{Members, ThinList, Value};
use ice_types::{List, Member, Schema};
use std::alloc::{AllocError, Global};
use std::collections::BTreeMap;
use value_parts::DeclaredMembers;

/// The values of these members that the JSON notes, or None where it notes none: an object with the names of
/// the required members, of the optional ones that are present, and no more. Want of memory is the only
/// refusal.
pub fn content_of(
    alloc: Global,
    schema: &Schema,
    fields: DeclaredMembers<'_>,
    json: &Json<'_>,
) -> Result<Option<Members>, AllocError>
    ensures { IfOk result (λ o. option_map view_content o
        ≡ noted_content schema.now (shape_seen fields.entry) (json_view json.now)) }
{
    content_with(alloc, schema, &EnumNames::none(alloc), fields, json)
}

/// The same, with hints where the enumerators stand.
pub(crate) fn content_with(
    alloc: Global,
    schema: &Schema,
    names: &EnumNames,
    fields: DeclaredMembers<'_>,
    json: &Json<'_>,
) -> Result<Option<Members>, AllocError>
    ensures { IfOk result (λ o. option_map view_content o
        ≡ noted_content schema.now (shape_seen fields.entry) (json_view json.now)) }
{
    let Some(found) = object_in(json) else {
        return Ok(None);
    };
    let Some(required) = required_of(alloc, schema, names, fields.required, found)? else {
        return Ok(None);
    };
    let Some(optional) = optional_of(alloc, schema, names, fields.optional, found)? else {
        drop(required);
        return Ok(None);
    };
    if is_sum(found.len(), required.len(), optional.len()) {
        let optional = ThinList::of(alloc, optional)?;
        Ok(Some(Members { required, optional }))
    } else {
        drop(required);
        drop(optional);
        Ok(None)
    }
}

/// Whether the whole is the sum of the two.
fn is_sum(whole: usize, a: usize, b: usize) -> bool
    ensures { result ≡ (whole == a + b) }
{
    a <= whole && whole - a == b
}

/// The values of the members without a tag, in order.
fn required_of(
    alloc: Global,
    schema: &Schema,
    names: &EnumNames,
    members: &[Member],
    found: Found<'_, '_>,
) -> Result<Option<List<Value>>, AllocError>
    ensures { IfOk result (λ o. option_map view_all o
        ≡ members_of (noted_value schema.now) (without_tag members.now) (members_view found.entry.entries.now)) }
{
    let mut values = List::new(alloc);
    for member in members {
        if member.tag.is_some() {
            continue;
        }
        let Some(value) = member_of(alloc, schema, names, member, found)? else {
            drop(values);
            return Ok(None);
        };
        values.push(value)?;
    }
    Ok(Some(values))
}

/// The value that stands at the member's name.
fn member_of(
    alloc: Global,
    schema: &Schema,
    names: &EnumNames,
    member: &Member,
    found: Found<'_, '_>,
) -> Result<Option<Value>, AllocError>
    ensures { IfOk result (λ o. option_map view o
        ≡ option_and_then (noted_value schema.now member.now.kind)
        (get_member member.now.name (members_view found.entry.entries.now))) }
{
    match named(found, member.name.as_str()) {
        Some(json) => value_with(alloc, schema, names, member.kind, json),
        None => Ok(None),
    }
}

/// The values of the members with a tag that are present, by rising tag.
fn optional_of(
    alloc: Global,
    schema: &Schema,
    names: &EnumNames,
    members: &[Member],
    found: Found<'_, '_>,
) -> Result<Option<List<(u32, Value)>>, AllocError>
    ensures { IfOk result (λ o. option_map view_present o
        ≡ options_of (noted_value schema.now) (with_tag members.now) (members_view found.entry.entries.now) []) }
{
    let mut values = BTreeMap::new(alloc);
    for member in members {
        let Some(tag) = member.tag else {
            continue;
        };
        let Some(json) = named(found, member.name.as_str()) else {
            continue;
        };
        let Some(value) = value_with(alloc, schema, names, member.kind, json)? else {
            drop(values);
            return Ok(None);
        };
        drop(values.insert(tag, value)?);
    }
    Ok(Some(by_tag(alloc, values)?))
}

/// The values of a map, in the order of their tags.
fn by_tag(alloc: Global, mut map: BTreeMap<u32, Value>) -> Result<List<(u32, Value)>, AllocError>
    ensures { IfOk result (λ values. values ≡ map.entries) }
{
    let mut values = List::new(alloc);
    while let Some(value) = map.pop_first() {
        values.push(value)?;
    }
    Ok(values)
}
