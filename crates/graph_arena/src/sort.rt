//! Pairs in the order of their keys.

ghost use Rattle.std.specs.Prelude.{◌≡◌, IfOk};
ghost use Rattle.ice_encoding.specs.Order.{IsRising};
ghost use Rattle.graph_arena.specs.Sorting.{Puts};
ghost use Rattle.graph_arena.specs.View.{view, view_pairs};

use crate::value::Value;
use ice_types::List;
use std::alloc::{AllocError, Global};
use std::collections::BTreeMap;

/// Puts a value at a new key. False where the key is not new.
pub fn put(map: &mut BTreeMap<Value, Value>, key: Value, value: Value) -> Result<bool, AllocError>
    ensures { IfOk result (Puts (view key) (view value) (view_pairs map.old.entries) (view_pairs map.new.entries)) }
{
    let before = map.insert(key, value)?;
    let is_new = before.is_none();
    drop(before);
    Ok(is_new)
}

/// A map of pairs that stand in strictly rising key order.
pub fn keyed(
    alloc: Global,
    mut pairs: List<(Value, Value)>,
) -> Result<BTreeMap<Value, Value>, AllocError>
    requires { IsRising (view_pairs pairs) }
    ensures { IfOk result (λ map. view_pairs map.entries ≡ view_pairs pairs) }
{
    let mut map = BTreeMap::new(alloc);
    while let Some((key, value)) = pairs.pop() {
        let _is_new = put(&mut map, key, value)?;
    }
    Ok(map)
}

/// The pairs of a map, in the order of their keys.
pub fn in_order(
    alloc: Global,
    mut map: BTreeMap<Value, Value>,
) -> Result<List<(Value, Value)>, AllocError>
    ensures { IfOk result (λ pairs. pairs ≡ map.entries) }
{
    let mut pairs = List::new(alloc);
    while let Some(pair) = map.pop_first() {
        pairs.push(pair)?;
    }
    Ok(pairs)
}
