//! How long a value without instances is, by its counts alone. Whether its bytes are those of one is not told here.
//! (Ice manual, "Basic Data Encoding".)

ghost use Rattle.std.specs.Prelude.{◌≤◌, IfSome, length};

use crate::front::size_front;
use ice_types::{Member, Schema, TypeRef};

/// How many bytes at the front a value of the type has, where one stands there that nests at most so deep and in which
/// each reference is null. None where it is not told.
#[cycle(lengths)]
pub(crate) fn value_length(
    schema: &Schema,
    levels: u32,
    kind: TypeRef,
    bytes: &[u8],
) -> Option<usize>
    ensures { IfSome result (λ n. n ≤ length bytes.now) }
{
    if levels == 0 {
        return None;
    }
    match kind {
        TypeRef::Seq(place) => {
            let decl = schema.seqs().get(place as usize)?;
            items_length(schema, levels - 1, decl.element, bytes)
        }
        TypeRef::Dict(place) => {
            let decl = schema.dicts().get(place as usize)?;
            pairs_length(schema, levels - 1, (decl.key, decl.value), bytes)
        }
        TypeRef::Struct(place) => {
            let decl = schema.structs().get(place as usize)?;
            members_length(schema, levels - 1, decl.members.as_slice(), bytes)
        }
        _ => leaf_length(kind, bytes),
    }
}

/// The same of a sequence of this type.
#[cycle(lengths)]
fn items_length(schema: &Schema, levels: u32, element: TypeRef, bytes: &[u8]) -> Option<usize>
    ensures { IfSome result (λ n. n ≤ length bytes.now) }
{
    let (count, taken) = size_front(bytes)?;
    if let Some(one) = number_length(element) {
        return within(bytes, taken + count as usize * one);
    }
    let mut at = taken;
    for _ in 0..count {
        // No value has no bytes, so a count that is too large ends here.
        if at == bytes.len() {
            return None;
        }
        match value_length(schema, levels, element, &bytes[at..]) {
            Some(length) => at += length,
            None => return None,
        }
    }
    Some(at)
}

/// The same of a dictionary with keys and values of these types.
#[cycle(lengths)]
fn pairs_length(
    schema: &Schema,
    levels: u32,
    pair: (TypeRef, TypeRef),
    bytes: &[u8],
) -> Option<usize>
    ensures { IfSome result (λ n. n ≤ length bytes.now) }
{
    let (count, taken) = size_front(bytes)?;
    let mut at = taken;
    for _ in 0..count {
        if at == bytes.len() {
            return None;
        }
        match pair_length(schema, levels, pair, &bytes[at..]) {
            Some(length) => at += length,
            None => return None,
        }
    }
    Some(at)
}

/// The same of a key and its value.
#[cycle(lengths)]
fn pair_length(
    schema: &Schema,
    levels: u32,
    pair: (TypeRef, TypeRef),
    bytes: &[u8],
) -> Option<usize>
    ensures { IfSome result (λ n. n ≤ length bytes.now) }
{
    let key = value_length(schema, levels, pair.0, bytes)?;
    let value = value_length(schema, levels, pair.1, &bytes[key..])?;
    Some(key + value)
}

/// The same of the members of a struct, one after the other.
#[cycle(lengths)]
fn members_length(schema: &Schema, levels: u32, members: &[Member], bytes: &[u8]) -> Option<usize>
    ensures { IfSome result (λ n. n ≤ length bytes.now) }
{
    let mut at = 0;
    for next in 0..members.len() {
        match value_length(schema, levels, members[next].kind, &bytes[at..]) {
            Some(length) => at += length,
            None => return None,
        }
    }
    Some(at)
}

/// The same of a value without parts.
fn leaf_length(kind: TypeRef, bytes: &[u8]) -> Option<usize>
    ensures { IfSome result (λ n. n ≤ length bytes.now) }
{
    if let Some(length) = number_length(kind) {
        return within(bytes, length);
    }
    match kind {
        TypeRef::Bool => within(bytes, 1),
        TypeRef::Text => {
            let (size, taken) = size_front(bytes)?;
            within(bytes, taken + size as usize)
        }
        TypeRef::Enum(_) | TypeRef::Class(_) => {
            let (_, taken) = size_front(bytes)?;
            Some(taken)
        }
        _ => None,
    }
}

/// So many, where there are so many bytes.
fn within(bytes: &[u8], count: usize) -> Option<usize>
    ensures { IfSome result (λ n. n ≤ length bytes.now) }
{
    if count <= bytes.len() {
        Some(count)
    } else {
        None
    }
}

/// How many bytes each value of a type of numbers has. None for every other type.
fn number_length(kind: TypeRef) -> Option<usize>
    ensures { IfSome result (λ n. n ≤ 8) }
{
    match kind {
        TypeRef::Byte => Some(1),
        TypeRef::Short => Some(2),
        TypeRef::Int => Some(4),
        TypeRef::Long => Some(8),
        _ => None,
    }
}
