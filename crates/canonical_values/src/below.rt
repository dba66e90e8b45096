//! Keys of dictionaries in order, by their bytes: structs member by member.

ghost use Rattle.std.specs.Prelude.{IsTrue};
ghost use Rattle.canonical_values.specs.Standing.{kinds_of};
ghost use Rattle.canonical_values.specs.Keys.{AreRising, EachRising, HaveFront};

use crate::key::key_length;
use crate::order::is_simple_below;
use ice_types::{Member, Schema, TypeRef};

/// Whether the key at the front of the first is below the one at the front of the second. Where the answer is
/// `false`, it may be so all the same.
#[cycle(order)]
pub(crate) fn is_below(
    schema: &Schema,
    levels: u32,
    kind: TypeRef,
    first: &[u8],
    second: &[u8],
) -> bool
    ensures { IsTrue result → AreRising schema.now levels kind first.now second.now }
{
    match kind {
        TypeRef::Struct(place) if levels > 0 => match schema.structs().get(place as usize) {
            Some(decl) => { are_below(schema, levels - 1, decl.members.as_slice(), first, second) }
            None => false,
        },
        _ => is_simple_below(kind, first, second),
    }
}

/// The same of the members of a struct, one after the other: the first that differ decide.
#[cycle(order)]
fn are_below(schema: &Schema, levels: u32, members: &[Member], first: &[u8], second: &[u8]) -> bool
    ensures { IsTrue result → EachRising schema.now levels (kinds_of members.now) first.now second.now }
{
    let mut at = 0;
    for next in 0..members.len() {
        let kind = members[next].kind;
        if is_below(schema, levels, kind, &first[at..], &second[at..]) {
            return true;
        }
        match key_length(schema, levels, kind, &second[at..]) {
            Some(length) if have_front(&first[at..], &second[at..], length) => at += length,
            _ => return false,
        }
    }
    false
}

/// Whether so many bytes at the front of both are the same.
fn have_front(first: &[u8], second: &[u8], length: usize) -> bool
    ensures { IsTrue result → HaveFront length first.now second.now }
{
    first.len() >= length && second.len() >= length && first[..length] == second[..length]
}
