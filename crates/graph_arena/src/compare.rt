//! The order of values, which is that of dictionary keys: false before true, numbers by value, texts
//! by their bytes, structs member by member, enumerators by their numbers. Values of two sorts stand
//! in the order of their sorts.

ghost use Rattle.std.specs.Prelude.{◌≡◌, Some, refl};
ghost use Rattle.std.specs.Ordering.{eq_by_cmp, on};
ghost use Rattle.ice_encoding.specs.Order.{rank, tree_cmp, trees_cmp, entries_cmp};
ghost use Rattle.ice_encoding.specs.Port.{size_of};
ghost use Rattle.ice_encoding.specs.Tree.{byte};
ghost use Rattle.graph_arena.specs.View.{byte_trees, view, view_all, view_pairs};
ghost use Rattle.graph_arena.specs.Comparing.{values_alike, values_equal, values_partial, values_total};

use crate::proxy_order::compare_some;
use crate::value::Value;
use std::cmp::Ordering;

impl PartialEq for Value {
    ghost eq = { eq_by_cmp (on view tree_cmp) };

    ghost laws = { values_alike };

    fn eq(&self, other: &Value) -> bool {
        compare(self, other).is_eq()
    }
}

impl Eq for Value {
    ghost laws = { values_equal };
}

impl PartialOrd for Value {
    ghost partial_cmp = { λ a b. Some (on view tree_cmp a b) };

    ghost laws = { values_partial };

    fn partial_cmp(&self, other: &Value) -> Option<Ordering> {
        Some(compare(self, other))
    }
}

impl Ord for Value {
    ghost cmp = { on view tree_cmp };

    ghost total = { values_total };

    ghost matches_partial_cmp = { λ a b. refl };

    ghost matches_eq = { λ a b. refl };

    fn cmp(&self, other: &Value) -> Ordering {
        compare(self, other)
    }
}

#[cycle(order)]
fn compare(a: &Value, b: &Value) -> Ordering
    ensures { result ≡ tree_cmp (view a.now) (view b.now) }
{
    match (a, b) {
        (Value::Bool(a), Value::Bool(b)) => a.cmp(b),
        (Value::Byte(a), Value::Byte(b)) => a.cmp(b),
        (Value::Short(a), Value::Short(b)) => a.cmp(b),
        (Value::Int(a), Value::Int(b)) => a.cmp(b),
        (Value::Long(a), Value::Long(b)) => a.cmp(b),
        (Value::Text(a), Value::Text(b)) => a.as_str().cmp(b.as_str()),
        (Value::Seq(a), Value::Seq(b)) => compare_each(a.as_slice(), b.as_slice()),
        (Value::Bytes(a), Value::Bytes(b)) => a.as_slice().cmp(b.as_slice()),
        (Value::Bytes(a), Value::Seq(b)) => compare_bytes(a.as_slice(), b.as_slice()),
        (Value::Seq(a), Value::Bytes(b)) => compare_bytes(b.as_slice(), a.as_slice()).reverse(),
        (Value::Pairs(a), Value::Pairs(b)) => compare_pairs(a.as_slice(), b.as_slice()),
        (Value::Members(a), Value::Members(b)) => compare_each(a.as_slice(), b.as_slice()),
        (Value::Enum(a), Value::Enum(b)) => a.cmp(b),
        (Value::Proxy(a), Value::Proxy(b)) => compare_some(a, b),
        (Value::Reference(a), Value::Reference(b)) => size_of(*a).cmp(&size_of(*b)),
        _ => rank(a).cmp(&rank(b)),
    }
}

/// The place of the value's sort among the sorts.
fn rank(value: &Value) -> u8
    ensures { result ≡ rank (view value.now) }
{
    match value {
        Value::Bool(_) => 0,
        Value::Byte(_) => 1,
        Value::Short(_) => 2,
        Value::Int(_) => 3,
        Value::Long(_) => 4,
        Value::Text(_) => 5,
        Value::Seq(_) | Value::Bytes(_) => 6,
        Value::Pairs(_) => 7,
        Value::Members(_) => 8,
        Value::Enum(_) => 9,
        Value::Proxy(_) => 10,
        Value::Reference(_) => 11,
    }
}

/// A reference as a size: 0 for null, else one more than the number.
fn size_of(reference: Option<u32>) -> u64
    ensures { result ≡ size_of reference }
{
    match reference {
        Some(number) => number as u64 + 1,
        None => 0,
    }
}

/// Bytes as the items of a sequence, beside the items of another.
fn compare_bytes(bytes: &[u8], items: &[Value]) -> Ordering
    ensures { result ≡ trees_cmp (byte_trees bytes.now) (view_all items.now) }
{
    for (at, byte) in bytes.iter().enumerate() {
        let Some(item) = items.get(at) else {
            return Ordering::Greater;
        };
        match compare_byte(*byte, item) {
            Ordering::Equal => {}
            order => return order,
        }
    }
    bytes.len().cmp(&items.len())
}

fn compare_byte(number: u8, other: &Value) -> Ordering
    ensures { result ≡ tree_cmp (byte number) (view other.now) }
{
    match other {
        Value::Byte(other) => number.cmp(other),
        _ => 1.cmp(&rank(other)),
    }
}

#[cycle(order)]
fn compare_each(a: &[Value], b: &[Value]) -> Ordering
    ensures { result ≡ trees_cmp (view_all a.now) (view_all b.now) }
{
    for (at, first) in a.iter().enumerate() {
        let Some(other) = b.get(at) else {
            return Ordering::Greater;
        };
        match compare(first, other) {
            Ordering::Equal => {}
            order => return order,
        }
    }
    a.len().cmp(&b.len())
}

#[cycle(order)]
fn compare_pairs(a: &[(Value, Value)], b: &[(Value, Value)]) -> Ordering
    ensures { result ≡ entries_cmp (view_pairs a.now) (view_pairs b.now) }
{
    for (at, first) in a.iter().enumerate() {
        let Some(other) = b.get(at) else {
            return Ordering::Greater;
        };
        match compare(&first.0, &other.0) {
            Ordering::Equal => {}
            order => return order,
        }
        match compare(&first.1, &other.1) {
            Ordering::Equal => {}
            order => return order,
        }
    }
    a.len().cmp(&b.len())
}
