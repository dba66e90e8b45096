use graph_arena::{Value, is_sorted};
use ice_proxy::parse_text;
use ice_types::{Bytes, List, Name};
use std::alloc::{AllocError, Global};
use std::test::Fail;
use value_writing::sort_pairs;

/// A key, as a table can hold it.
#[derive(Clone, Copy)]
enum Key {
    Bool(bool),
    Byte(u8),
    Short(i16),
    Int(i32),
    Long(i64),
    Text(&'static str),
    /// A sequence of bytes, as `Value::Bytes`.
    Packed(&'static [u8]),
    /// A sequence of bytes, as `Value::Seq`.
    Items(&'static [u8]),
    Enum(u32),
    /// The proxy of this text, or null.
    Proxy(Option<&'static str>),
    /// A struct of a text and a number.
    Both(&'static str, i32),
}

use Key::{Bool, Both, Byte, Enum, Int, Items, Long, Packed, Proxy, Short, Text};

/// Proxies of two names, with an endpoint of each sort.
const PROXY_A: &str = "a -f f -t -p 1.0 -e 1.1\
    :tcp -h host -p 10000 -t infinite:opaque -t 3 -e 1.0 -x 0708";

const PROXY_B: &str = "b -f f -t -p 1.0 -e 1.1\
    :tcp -h host -p 10000 -t infinite:opaque -t 3 -e 1.0 -x 0708";

/// Keys as they stand, and in rising order, or none where two are equal.
const ORDERS: &[(&[Key], Option<&[Key]>)] = &[
    (&[], Some(&[])),
    (&[Bool(true), Bool(false)], Some(&[Bool(false), Bool(true)])),
    (&[Byte(200), Byte(7)], Some(&[Byte(7), Byte(200)])),
    (&[Short(1), Short(-1)], Some(&[Short(-1), Short(1)])),
    (
        &[Int(5), Int(-2147483648)],
        Some(&[Int(-2147483648), Int(5)]),
    ),
    (
        &[Long(4294967296), Long(-1)],
        Some(&[Long(-1), Long(4294967296)]),
    ),
    (
        &[
            Text("\u{10000}"),
            Text("\u{fffd}"),
            Text("ab"),
            Text("Z"),
            Text("abc"),
        ],
        Some(&[
            Text("Z"),
            Text("ab"),
            Text("abc"),
            Text("\u{fffd}"),
            Text("\u{10000}"),
        ]),
    ),
    (
        &[Packed(&[9]), Items(&[7, 0]), Packed(&[7]), Packed(&[])],
        Some(&[Packed(&[]), Packed(&[7]), Items(&[7, 0]), Packed(&[9])]),
    ),
    (
        &[Items(&[9]), Packed(&[200]), Packed(&[7, 0]), Items(&[7])],
        Some(&[Items(&[7]), Packed(&[7, 0]), Items(&[9]), Packed(&[200])]),
    ),
    (&[Enum(300), Enum(1)], Some(&[Enum(1), Enum(300)])),
    (
        &[Proxy(Some(PROXY_B)), Proxy(Some(PROXY_A)), Proxy(None)],
        Some(&[Proxy(None), Proxy(Some(PROXY_A)), Proxy(Some(PROXY_B))]),
    ),
    (
        &[Both("ab", 1), Both("a", 2), Both("a", -1)],
        Some(&[Both("a", -1), Both("a", 2), Both("ab", 1)]),
    ),
    (&[Int(1), Int(2), Int(2), Int(3)], None),
    (&[Both("a", 1), Both("b", 1), Both("a", 1)], None),
    (&[Packed(&[7, 8]), Items(&[7, 8])], None),
    (&[Enum(0), Enum(1), Enum(0)], None),
    (&[Proxy(Some(PROXY_A)), Proxy(Some(PROXY_A))], None),
];

fn value_of(alloc: Global, key: Key) -> Result<Value, AllocError> {
    match key {
        Bool(b) => Ok(Value::Bool(b)),
        Byte(n) => Ok(Value::Byte(n)),
        Short(n) => Ok(Value::Short(n)),
        Int(n) => Ok(Value::Int(n)),
        Long(n) => Ok(Value::Long(n)),
        Text(text) => Ok(Value::Text(Name::of(alloc, text)?)),
        Packed(bytes) => Ok(Value::Bytes(Bytes::from_vec(Vec::from_slice(alloc, bytes)?))),
        Items(bytes) => items_of(alloc, bytes),
        Enum(n) => Ok(Value::Enum(n)),
        Proxy(None) => Ok(Value::Proxy(None)),
        Proxy(Some(text)) => proxy_of(alloc, text),
        Both(text, n) => both(alloc, text, n),
    }
}

/// A struct of the two.
fn both(alloc: Global, text: &str, n: i32) -> Result<Value, AllocError> {
    let members = [Value::Text(Name::of(alloc, text)?), Value::Int(n)];
    Ok(Value::Members(List::from_vec(Vec::from_array(alloc, members)?)))
}

/// Puts in the bytes as so many items.
fn put_items(items: &mut List<Value>, bytes: &[u8]) -> Result<(), AllocError> {
    for byte in bytes {
        items.push(Value::Byte(*byte))?;
    }
    Ok(())
}

/// The bytes as so many items.
fn items_of(alloc: Global, bytes: &[u8]) -> Result<Value, AllocError> {
    let mut items = List::new(alloc);
    put_items(&mut items, bytes)?;
    Ok(Value::Seq(items))
}

/// The proxy of a short text.
fn proxy_of(alloc: Global, text: &str) -> Result<Value, AllocError> {
    if text.len() > 1000 {
        return Err(AllocError);
    }
    match parse_text(alloc, text) {
        Ok(proxy) => Ok(Value::Proxy(Some(Box::new(alloc, proxy)?))),
        Err(_) => Err(AllocError),
    }
}

/// A key with itself as its value.
fn pair_of(alloc: Global, key: Key) -> Result<(Value, Value), AllocError> {
    let first = value_of(alloc, key)?;
    Ok((first, value_of(alloc, key)?))
}

/// Puts in these keys.
fn put_pairs(
    alloc: Global,
    pairs: &mut List<(Value, Value)>,
    keys: &[Key],
) -> Result<(), AllocError> {
    for key in keys {
        pairs.push(pair_of(alloc, *key)?)?;
    }
    Ok(())
}

/// A dictionary of these keys.
fn pairs_of(alloc: Global, keys: &[Key]) -> Result<Value, AllocError> {
    let mut pairs = List::new(alloc);
    put_pairs(alloc, &mut pairs, keys)?;
    Ok(Value::Pairs(pairs))
}

/// The value as that of a dictionary's one key.
fn in_pairs(alloc: Global, value: Value) -> Result<Value, AllocError> {
    let pairs = Vec::from_array(alloc, [(Value::Byte(0), value)])?;
    Ok(Value::Pairs(List::from_vec(pairs)))
}

/// The values as a list's.
fn listed(alloc: Global, value: Value) -> Result<List<Value>, AllocError> {
    Ok(List::from_vec(Vec::from_array(alloc, [value])?))
}

/// The dictionary inside a dictionary's value inside a struct inside a sequence.
fn nested(alloc: Global, keys: &[Key]) -> Result<Value, AllocError> {
    let inner = in_pairs(alloc, pairs_of(alloc, keys)?)?;
    let members = Value::Members(listed(alloc, inner)?);
    Ok(Value::Seq(listed(alloc, members)?))
}

/// Whether it is sorted, what sorting answers, and whether it leaves the other value.
fn sorted(
    alloc: Global,
    value: &mut Value,
    wanted: &Value,
) -> Result<(bool, bool, bool), AllocError> {
    let before = is_sorted(value);
    let sorted = sort_pairs(alloc, value)?;
    Ok((before, sorted, &*value == wanted))
}

/// The same of the dictionary of these keys.
fn sorted_of(
    alloc: Global,
    keys: &[Key],
    wanted: &[Key],
) -> Result<(bool, bool, bool), AllocError> {
    let mut value = nested(alloc, keys)?;
    let wanted = nested(alloc, wanted)?;
    sorted(alloc, &mut value, &wanted)
}

/// Whether the value is sorted so, or is as it was where two keys are equal.
fn is_put_in_order(
    alloc: Global,
    keys: &[Key],
    rising: Option<&[Key]>,
) -> Result<bool, AllocError> {
    let (before, sorted, found) = sorted_of(alloc, keys, rising.unwrap_or(keys))?;
    Ok((before == keys.is_empty()) & (sorted == rising.is_some()) & found)
}

#[test]
fn keys_in_order(rt: HostRuntime) -> Result<(), Fail> {
    for (at, (keys, rising)) in ORDERS.iter().enumerate() {
        assert!(rt; is_put_in_order(rt.alloc(), keys, *rising)?, "in row {at}");
    }
    Ok(())
}
