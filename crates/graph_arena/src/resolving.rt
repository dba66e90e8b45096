//! The references of a slice that has a table: each is a place in the table until that is read.

ghost use Rattle.std.specs.Prelude.{◌≡◌, map};
ghost use Rattle.ice_encoding.specs.Names.{renamed, renamed_each, renamed_members, renamed_name, renamed_pairs};
ghost use Rattle.ice_encoding.specs.Names.{renamed_present};
ghost use Rattle.ice_encoding.specs.References.{entry_in};
ghost use Rattle.graph_arena.specs.View.{view, view_all, view_pairs};
ghost use Rattle.graph_arena.specs.Seen.{view_content, view_present};

use crate::instance::Members;
use crate::value::Value;

/// Puts for each place of the table in the members the name that stands there.
pub fn resolve_members(members: &mut Members, table: &[u32])
    ensures { view_content members.new ≡ renamed_members (entry_in table.now) (view_content members.old) }
{
    resolve_each(members.required.as_mut_slice(), table);
    if let Some(optional) = &mut members.optional.items {
        resolve_present(optional.as_mut_slice(), table);
    }
}

fn resolve_present(optional: &mut [(u32, Value)], table: &[u32])
    ensures { view_present optional.new ≡ renamed_present (entry_in table.now) (view_present optional.old) }
{
    for member in optional.iter_mut() {
        resolve(&mut member.1, table);
    }
}

/// Puts for each place of the table in the value the name that stands there; a place past its end
/// becomes 0. Keys have no references.
#[cycle(resolving)]
pub fn resolve(value: &mut Value, table: &[u32])
    ensures { view value.new ≡ renamed (entry_in table.now) (view value.old) }
{
    match value {
        Value::Bool(_)
        | Value::Byte(_)
        | Value::Short(_)
        | Value::Int(_)
        | Value::Long(_)
        | Value::Text(_)
        | Value::Bytes(_)
        | Value::Enum(_)
        | Value::Proxy(_) => {}
        Value::Reference(place) => *place = entry(table, *place),
        Value::Seq(items) => resolve_each(items.as_mut_slice(), table),
        Value::Members(items) => resolve_each(items.as_mut_slice(), table),
        Value::Pairs(pairs) => resolve_pairs(pairs.as_mut_slice(), table),
    }
}

/// Puts for each of these places the name that stands there.
pub(crate) fn resolve_names(names: &mut [u32], table: &[u32])
    ensures { names.new ≡ map (entry_in table.now) names.old }
{
    for name in names.iter_mut() {
        *name = name_at(table, *name);
    }
}

/// What the table has at a place, null for null.
fn entry(table: &[u32], place: Option<u32>) -> Option<u32>
    ensures { result ≡ renamed_name (entry_in table.now) place }
{
    Some(name_at(table, place?))
}

/// What the table has at a place.
fn name_at(table: &[u32], place: u32) -> u32
    ensures { result ≡ entry_in table.now place }
{
    table.get(place as usize).copied().unwrap_or(0)
}

#[cycle(resolving)]
fn resolve_each(items: &mut [Value], table: &[u32])
    ensures { view_all items.new ≡ renamed_each (entry_in table.now) (view_all items.old) }
{
    for item in items.iter_mut() {
        resolve(item, table);
    }
}

#[cycle(resolving)]
fn resolve_pairs(pairs: &mut [(Value, Value)], table: &[u32])
    ensures { view_pairs pairs.new ≡ renamed_pairs (entry_in table.now) (view_pairs pairs.old) }
{
    for pair in pairs.iter_mut() {
        resolve(&mut pair.1, table);
    }
}
