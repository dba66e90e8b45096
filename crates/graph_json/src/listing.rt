//! The graph that JSON lists, before it is known whether its names are those of instances.

ghost use Rattle.std.specs.Prelude.{◌≡◌, IfOk, codes, map, option_map};
ghost use Rattle.graph_json.specs.View.{view as json_view, items_view, members_view};
ghost use Rattle.graph_arena.specs.Seen.{view_instance};
ghost use Rattle.value_parts.specs.Shapes.{shape_seen};
ghost use Rattle.graph_json.specs.ReadingValues.{some};
ghost use Rattle.graph_json.specs.Reading as spec;
ghost use Rattle.graph_json.specs.Reading.{at_name, items_of, list_of, listed_graph};
ghost use Rattle.graph_json.specs.Listed.{view_listed};

use crate::content_read::content_with;
use crate::enum_names::EnumNames;
use crate::found::{Found, named, object_in};
use crate::slices::slices_of;
use crate::tree::Json;
use graph_arena::{Instance, Members};
use ice_types::Schema;
use std::alloc::{AllocError, Global};
use value_parts::DeclaredMembers;

/// The values of the roots, and the instances in the order of the list.
#[derive(Drop)]
pub(crate) struct Listed {
    pub(crate) roots: Members,
    pub(crate) instances: Vec<Instance>,
}

/// The graph that JSON lists for roots of these members, or None where it lists none. Want of memory is the
/// only refusal.
pub(crate) fn listed_of(
    alloc: Global,
    schema: &Schema,
    names: &EnumNames,
    fields: DeclaredMembers<'_>,
    json: &Json<'_>,
) -> Result<Option<Listed>, AllocError>
    ensures { IfOk result (λ o. option_map view_listed o
        ≡ listed_graph schema.now (shape_seen fields.entry) (json_view json.now)) }
{
    let Some(found) = object_of(json, 2) else {
        return Ok(None);
    };
    let Some(instances) = instances_in(alloc, schema, names, found)? else {
        return Ok(None);
    };
    let Some(inside) = named(found, "roots") else {
        drop(instances);
        return Ok(None);
    };
    match content_with(alloc, schema, names, fields, inside) {
        Ok(Some(roots)) => Ok(Some(Listed { roots, instances })),
        Ok(None) => {
            drop(instances);
            Ok(None)
        }
        Err(AllocError) => {
            drop(instances);
            Err(AllocError)
        }
    }
}

/// The object, where it has so many names.
fn object_of<'a, 'b>(json: &'a Json<'b>, count: usize) -> Option<Found<'a, 'b>>
    ensures { option_map (λ found. members_view found.entries.now) result
        ≡ spec.of_object count some (json_view json.now) }
{
    let found = object_in(json)?;
    if found.len() == count {
        Some(found)
    } else {
        None
    }
}

/// The instances that stand there.
fn instances_in(
    alloc: Global,
    schema: &Schema,
    names: &EnumNames,
    found: Found<'_, '_>,
) -> Result<Option<Vec<Instance>>, AllocError>
    ensures { IfOk result (λ o. option_map (λ l. map view_instance l.items) o
        ≡ at_name (codes "instances") (list_of (spec.instance_of schema.now)) (members_view found.entry.entries.now)) }
{
    match named(found, "instances") {
        Some(json) => instances_of(alloc, schema, names, json),
        None => Ok(None),
    }
}

fn instances_of(
    alloc: Global,
    schema: &Schema,
    names: &EnumNames,
    json: &Json<'_>,
) -> Result<Option<Vec<Instance>>, AllocError>
    ensures { IfOk result (λ o. option_map (λ l. map view_instance l.items) o
        ≡ list_of (spec.instance_of schema.now) (json_view json.now)) }
{
    match json.as_array() {
        Some(items) => each_instance(alloc, schema, names, items.as_slice()),
        None => Ok(None),
    }
}

fn each_instance(
    alloc: Global,
    schema: &Schema,
    names: &EnumNames,
    items: &[Json<'_>],
) -> Result<Option<Vec<Instance>>, AllocError>
    ensures { IfOk result (λ o. option_map (λ l. map view_instance l.items) o
        ≡ items_of (spec.instance_of schema.now) (items_view items.now)) }
{
    let mut instances = Vec::with_capacity(alloc, items.len())?;
    for item in items {
        let Some(instance) = instance_of(alloc, schema, names, item)? else {
            drop(instances);
            return Ok(None);
        };
        instances.push(instance)?;
    }
    Ok(Some(instances))
}

/// An instance: an object whose one name has its slices.
fn instance_of(
    alloc: Global,
    schema: &Schema,
    names: &EnumNames,
    json: &Json<'_>,
) -> Result<Option<Instance>, AllocError>
    ensures { IfOk result (λ o. option_map view_instance o ≡ spec.instance_of schema.now (json_view json.now)) }
{
    let Some(found) = object_of(json, 1) else {
        return Ok(None);
    };
    let Some(inside) = named(found, "slices") else {
        return Ok(None);
    };
    match slices_of(alloc, schema, names, inside)? {
        Some(slices) => Ok(Some(Instance { slices })),
        None => Ok(None),
    }
}
