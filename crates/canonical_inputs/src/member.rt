//! The members of a slice, in which a reference is a place in the slice's table. (Ice manual, "Data Encoding for Class
//! and Exception Types".)

ghost use Rattle.std.specs.Prelude.{ℕ, suc, ◌≤◌, IfSome, length, replicate, take};
ghost use Rattle.ice_types.specs.declared.kind.TypeRef.TheVariants as kinds;
ghost use Rattle.ice_types.specs.declared.schema.TheConstants.{MOST_DEPTH};
ghost use Rattle.canonical_values.specs.Standing.{IsCanonical};
ghost use Rattle.canonical_inputs.specs.Places.{IsSeqOf, MemberPut, MembersPut, ValuePut, ValuesPut};

use crate::front::size_front;
use crate::length::value_length;
use canonical_values::is_canonical;
use ice_types::{MOST_DEPTH, Member, Schema, TypeRef};
use std::alloc::Global;

/// How many bytes at the front are those of the members that are always there, where no other is. To the classes that
/// are declared at the places so far come those at the next places, each where it is used first. None where it is not
/// told.
pub(crate) fn pass_members(
    alloc: Global,
    schema: &Schema,
    members: &[Member],
    bytes: &[u8],
    needs: &mut Vec<Option<u32>>,
) -> Option<usize>
    ensures within { IfSome result (λ n. n ≤ length bytes.now) }
    ensures put { IfSome result (λ n. MembersPut schema.now members.now needs.old.items needs.new.items
        (take n bytes.now)) }
{
    let mut at = 0;
    for next in 0..members.len() {
        match pass_member(alloc, schema, &members[next], &bytes[at..], needs) {
            Some(length) => at += length,
            None => return None,
        }
    }
    Some(at)
}

/// The same of a member: one that may be absent is.
fn pass_member(
    alloc: Global,
    schema: &Schema,
    member: &Member,
    bytes: &[u8],
    needs: &mut Vec<Option<u32>>,
) -> Option<usize>
    ensures within { IfSome result (λ n. n ≤ length bytes.now) }
    ensures put { IfSome result (λ n. MemberPut schema.now member.now needs.old.items needs.new.items
        (take n bytes.now)) }
{
    match member.tag {
        Some(_) => Some(0),
        None => pass_value(alloc, schema, member.kind, bytes, needs),
    }
}

/// The same of a value.
fn pass_value(
    alloc: Global,
    schema: &Schema,
    kind: TypeRef,
    bytes: &[u8],
    needs: &mut Vec<Option<u32>>,
) -> Option<usize>
    ensures within { IfSome result (λ n. n ≤ length bytes.now) }
    ensures put { IfSome result (λ n. ValuePut schema.now MOST_DEPTH kind needs.old.items needs.new.items
        (take n bytes.now)) }
{
    match kind {
        TypeRef::Class(declared) => pass_place(schema, declared, bytes, needs),
        TypeRef::Seq(place) => {
            let decl = schema.seqs().get(place as usize)?;
            match decl.element {
                TypeRef::Class(declared) => pass_places(schema, place, declared, bytes, needs),
                _ => pass_plain(alloc, schema, kind, bytes),
            }
        }
        _ => pass_plain(alloc, schema, kind, bytes),
    }
}

/// The same of a value in which each reference is null.
fn pass_plain(alloc: Global, schema: &Schema, kind: TypeRef, bytes: &[u8]) -> Option<usize>
    ensures within { IfSome result (λ n. n ≤ length bytes.now) }
    ensures canonical { IfSome result (λ n. IsCanonical schema.now kind (take n bytes.now)) }
{
    let length = value_length(schema, MOST_DEPTH, kind, bytes)?;
    if is_canonical(alloc, schema, kind, &bytes[..length]) {
        Some(length)
    } else {
        None
    }
}

/// The same of a sequence of references.
fn pass_places(
    schema: &Schema,
    at: u32,
    declared: Option<u32>,
    bytes: &[u8],
    needs: &mut Vec<Option<u32>>,
) -> Option<usize>
    requires { IsSeqOf schema.now at (kinds.Class declared) }
    ensures within { IfSome result (λ n. n ≤ length bytes.now) }
    ensures put { IfSome result (λ n. ValuePut schema.now MOST_DEPTH (kinds.Seq at) needs.old.items needs.new.items
        (take n bytes.now)) }
{
    let (count, taken) = size_front(bytes)?;
    let length = pass_each(schema, declared, count, &bytes[taken..], needs)?;
    Some(taken + length)
}

/// The same of so many references.
fn pass_each(
    schema: &Schema,
    declared: Option<u32>,
    count: u32,
    bytes: &[u8],
    needs: &mut Vec<Option<u32>>,
) -> Option<usize>
    ensures within { IfSome result (λ n. n ≤ length bytes.now) }
    ensures put { IfSome result (λ n. (levels : ℕ) → ValuesPut schema.now (suc levels)
        (replicate count (kinds.Class declared)) needs.old.items needs.new.items (take n bytes.now)) }
{
    let mut at = 0;
    for _ in 0..count {
        match pass_place(schema, declared, &bytes[at..], needs) {
            Some(length) => at += length,
            None => return None,
        }
    }
    Some(at)
}

/// The same of a reference.
fn pass_place(
    schema: &Schema,
    declared: Option<u32>,
    bytes: &[u8],
    needs: &mut Vec<Option<u32>>,
) -> Option<usize>
    ensures within { IfSome result (λ n. n ≤ length bytes.now) }
    ensures put { IfSome result (λ n. (levels : ℕ) → ValuePut schema.now (suc levels) (kinds.Class declared)
        needs.old.items needs.new.items (take n bytes.now)) }
{
    let (size, taken) = size_front(bytes)?;
    if size == 0 {
        return Some(taken);
    }
    let place = size as usize - 1;
    if place == needs.len() {
        return match needs.push(declared) {
            Ok(()) => Some(taken),
            Err(_) => None,
        };
    }
    match needs.get(place) {
        Some(need) if *need == declared => Some(taken),
        _ => None,
    }
}
