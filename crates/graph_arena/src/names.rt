//! The instances that values name.

ghost use Rattle.std.specs.Prelude.{◌≡◌, ◌++◌, OnOk};
ghost use Rattle.ice_encoding.specs.Names.{instance_names, listed_name, names, names_each, names_of, names_pairs};
ghost use Rattle.ice_encoding.specs.Names.{names_present, slice_names};
ghost use Rattle.graph_arena.specs.View.{view, view_all, view_pairs};
ghost use Rattle.graph_arena.specs.Seen.{view_content, view_present, view_slice, view_slices};

use crate::instance::{Members, Slice};
use crate::value::Value;
use ice_types::List;
use std::alloc::AllocError;

/// Puts the names that occur in the values last, in order. Out of memory leaves some of them put.
pub(crate) fn push_members(names: &mut List<u32>, members: &Members) -> Result<(), AllocError>
    ensures { OnOk result (names.new ≡ names.old ++ names_of (view_content members.now)) }
{
    push_each(names, members.required.as_slice())?;
    push_present(names, members.optional.as_slice())
}

/// Puts the names that occur in slices last, slice by slice in order. Out of memory leaves some of them put.
pub fn push_slices(names: &mut List<u32>, slices: &[Slice]) -> Result<(), AllocError>
    ensures { OnOk result (names.new ≡ names.old ++ instance_names (view_slices slices.now)) }
{
    for slice in slices {
        push_slice(names, slice)?;
    }
    Ok(())
}

fn push_slice(names: &mut List<u32>, slice: &Slice) -> Result<(), AllocError>
    ensures { OnOk result (names.new ≡ names.old ++ slice_names (view_slice slice.now)) }
{
    match slice {
        Slice::Known { members, .. } => push_members(names, members),
        Slice::Unknown(kept) => push_table(names, kept.table.as_slice()),
    }
}

/// Those in the table of a slice that is kept.
fn push_table(names: &mut List<u32>, table: &[u32]) -> Result<(), AllocError>
    ensures { OnOk result (names.new ≡ names.old ++ table.now) }
{
    for name in table {
        names.push(*name)?;
    }
    Ok(())
}

fn push_present(names: &mut List<u32>, optional: &[(u32, Value)]) -> Result<(), AllocError>
    ensures { OnOk result (names.new ≡ names.old ++ names_present (view_present optional.now)) }
{
    for member in optional {
        push_names(names, &member.1)?;
    }
    Ok(())
}

#[cycle(names)]
fn push_names(out: &mut List<u32>, value: &Value) -> Result<(), AllocError>
    ensures { OnOk result (out.new ≡ out.old ++ names (view value.now)) }
{
    match value {
        Value::Bool(_)
        | Value::Byte(_)
        | Value::Short(_)
        | Value::Int(_)
        | Value::Long(_)
        | Value::Text(_)
        | Value::Bytes(_)
        | Value::Enum(_)
        | Value::Proxy(_) => Ok(()),
        Value::Reference(name) => push_some(out, *name),
        Value::Seq(items) | Value::Members(items) => push_each(out, items.as_slice()),
        Value::Pairs(pairs) => push_pairs(out, pairs.as_slice()),
    }
}

fn push_some(names: &mut List<u32>, name: Option<u32>) -> Result<(), AllocError>
    ensures { OnOk result (names.new ≡ names.old ++ listed_name name) }
{
    match name {
        Some(name) => names.push(name),
        None => Ok(()),
    }
}

#[cycle(names)]
fn push_each(names: &mut List<u32>, items: &[Value]) -> Result<(), AllocError>
    ensures { OnOk result (names.new ≡ names.old ++ names_each (view_all items.now)) }
{
    for item in items {
        push_names(names, item)?;
    }
    Ok(())
}

#[cycle(names)]
fn push_pairs(names: &mut List<u32>, pairs: &[(Value, Value)]) -> Result<(), AllocError>
    ensures { OnOk result (names.new ≡ names.old ++ names_pairs (view_pairs pairs.now)) }
{
    for pair in pairs {
        push_names(names, &pair.1)?;
    }
    Ok(())
}
