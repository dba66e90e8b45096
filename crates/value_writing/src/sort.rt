//! Dictionaries put into order.

ghost use Rattle.std.specs.Prelude.{◌≡◌, true, Ok, IfOk};
ghost use Rattle.ice_encoding.specs.Order.{IsOrdered};
ghost use Rattle.graph_arena.specs.View.{view, view_all, view_pairs};
ghost use Rattle.value_writing.specs.Sorted.{sorted, has_equal_keys};
ghost use Rattle.value_writing.specs.Sorting.{Sorts, SortsEach, SortsPairs, UnlessEqual};

use crate::proxy_copy::copy_some;
use graph_arena::{Value, in_order, is_sorted, put};
use ice_types::{Bytes, List, Name};
use std::alloc::{AllocError, Global};
use std::collections::BTreeMap;

/// Puts the pairs of every dictionary inside the value into rising key order. False, with the value
/// as it was, where two keys of one dictionary are equal. Out of memory leaves the value as it was;
/// a value in order takes none.
pub fn sort_pairs(alloc: Global, value: &mut Value) -> Result<bool, AllocError>
    ensures sorts { Sorts value.old value.new result }
    ensures ordered { IsOrdered (view value.old) → result ≡ Ok true }
{
    if is_sorted(value) {
        return Ok(true);
    }
    match sorted_copy(alloc, value)? {
        Some(copy) => {
            *value = copy;
            Ok(true)
        }
        None => Ok(false),
    }
}

/// The value with its dictionaries in order, or None where keys are equal.
#[cycle(copies)]
fn sorted_copy(alloc: Global, value: &Value) -> Result<Option<Value>, AllocError>
    ensures { IfOk result (UnlessEqual view (has_equal_keys (view value.now)) (sorted (view value.now))) }
{
    match value {
        Value::Bool(b) => Ok(Some(Value::Bool(*b))),
        Value::Byte(n) => Ok(Some(Value::Byte(*n))),
        Value::Short(n) => Ok(Some(Value::Short(*n))),
        Value::Int(n) => Ok(Some(Value::Int(*n))),
        Value::Long(n) => Ok(Some(Value::Long(*n))),
        Value::Text(text) => Ok(Some(Value::Text(Name::of(alloc, text.as_str())?))),
        Value::Bytes(bytes) => Ok(Some(Value::Bytes(Bytes::from_vec(Vec::from_slice(
            alloc,
            bytes.as_slice(),
        )?)))),
        Value::Enum(number) => Ok(Some(Value::Enum(*number))),
        Value::Proxy(proxy) => Ok(Some(Value::Proxy(copy_some(alloc, proxy)?))),
        Value::Reference(number) => Ok(Some(Value::Reference(*number))),
        Value::Seq(items) => match sorted_items(alloc, items.as_slice())? {
            Some(items) => Ok(Some(Value::Seq(items))),
            None => Ok(None),
        },
        Value::Members(items) => match sorted_items(alloc, items.as_slice())? {
            Some(items) => Ok(Some(Value::Members(items))),
            None => Ok(None),
        },
        Value::Pairs(pairs) => match by_key(alloc, pairs.as_slice())? {
            Some(map) => Ok(Some(Value::Pairs(in_order(alloc, map)?))),
            None => Ok(None),
        },
    }
}

/// The items, each with its dictionaries in order, or None where keys are equal.
#[cycle(copies)]
fn sorted_items(alloc: Global, items: &[Value]) -> Result<Option<List<Value>>, AllocError>
    ensures { IfOk result (SortsEach (view_all items.now)) }
{
    let mut copies = List::new(alloc);
    for item in items {
        let Some(copy) = sorted_copy(alloc, item)? else {
            return Ok(None);
        };
        copies.push(copy)?;
    }
    Ok(Some(copies))
}

/// The values by their keys, each with its dictionaries in order, or None where keys are equal.
#[cycle(copies)]
fn by_key(
    alloc: Global,
    pairs: &[(Value, Value)],
) -> Result<Option<BTreeMap<Value, Value>>, AllocError>
    ensures { IfOk result (SortsPairs (view_pairs pairs.now)) }
{
    let mut map = BTreeMap::new(alloc);
    for pair in pairs {
        let Some(key) = sorted_copy(alloc, &pair.0)? else {
            return Ok(None);
        };
        let Some(value) = sorted_copy(alloc, &pair.1)? else {
            return Ok(None);
        };
        if !put(&mut map, key, value)? {
            return Ok(None);
        }
    }
    Ok(Some(map))
}
