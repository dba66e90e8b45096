//! Whether dictionaries stand in order.

ghost use Rattle.std.specs.Prelude.{IsTrue, ◌↔◌};
ghost use Rattle.ice_encoding.specs.Order.{IsRising, KeysRise, IsOrdered, AreBelow};
ghost use Rattle.ice_encoding.specs.Tree.{InEach, InPairs};
ghost use Rattle.graph_arena.specs.View.{view, view_all, view_pairs};

use crate::value::Value;

/// Whether the pairs of every dictionary inside the value stand in strictly rising key order.
#[cycle(sorted)]
pub fn is_sorted(value: &Value) -> bool
    ensures { IsTrue result ↔ IsOrdered (view value.now) }
{
    match value {
        Value::Bool(_)
        | Value::Byte(_)
        | Value::Short(_)
        | Value::Int(_)
        | Value::Long(_)
        | Value::Text(_)
        | Value::Bytes(_)
        | Value::Enum(_)
        | Value::Proxy(_)
        | Value::Reference(_) => true,
        Value::Seq(items) | Value::Members(items) => are_sorted(items.as_slice()),
        Value::Pairs(pairs) => {
            let pairs = pairs.as_slice();
            is_rising(pairs) && have_sorted_parts(pairs)
        }
    }
}

/// Whether each item is sorted.
#[cycle(sorted)]
fn are_sorted(items: &[Value]) -> bool
    ensures { IsTrue result ↔ InEach KeysRise (view_all items.now) }
{
    for item in items {
        if !is_sorted(item) {
            return false;
        }
    }
    true
}

/// Whether each pair's key and value are sorted.
#[cycle(sorted)]
fn have_sorted_parts(pairs: &[(Value, Value)]) -> bool
    ensures { IsTrue result ↔ InPairs KeysRise (view_pairs pairs.now) }
{
    for pair in pairs {
        if !is_sorted(&pair.0) || !is_sorted(&pair.1) {
            return false;
        }
    }
    true
}

/// Whether each key is below the next.
pub fn is_rising(pairs: &[(Value, Value)]) -> bool
    ensures { IsTrue result ↔ IsRising (view_pairs pairs.now) }
{
    let mut last: Option<&Value> = None;
    for pair in pairs {
        if let Some(before) = last
            && before.cmp(&pair.0).is_ge()
        {
            return false;
        }
        last = Some(&pair.0);
    }
    true
}

/// Whether the key is above those of all pairs, which stand in strictly rising key order. It is
/// compared with the last one alone.
pub fn is_above(pairs: &[(Value, Value)], key: &Value) -> bool
    requires { IsRising (view_pairs pairs.now) }
    ensures { IsTrue result ↔ AreBelow (view_pairs pairs.now) (view key.now) }
{
    match pairs.last() {
        Some(last) => last.0.cmp(key).is_lt(),
        None => true,
    }
}
