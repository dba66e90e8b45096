//! Members of a struct, one after the other.

ghost use Rattle.std.specs.Prelude.{◌≤◌, ◌<◌, ◌+◌, ◌^◌, length, drop, slice_get, IfSome};
ghost use Rattle.canonical_values.specs.declared.frame.Left.TheVariants.{Members};
ghost use Rattle.canonical_values.specs.Standing.{kinds_of, members_of};
ghost use Rattle.canonical_values.specs.Frames.{Steps, NextKind, MembersPassed};

use crate::frame::{Frame, Left, Step, as_step};
use crate::leaf::leaf_length;
use crate::part::pass_part;
use ice_types::{Member, Schema, TypeRef};

/// The next members of the struct at the place of the schema, from this one on, or their end.
pub(crate) fn pass_member(
    schema: &Schema,
    input: &[u8],
    at: usize,
    levels: u32,
    place: u32,
    next: usize,
) -> Step
    requires { at ≤ length input.now }
    ensures { Steps schema.now input.now at (record { levels = levels; left = Members place next }) result }
{
    if levels > 0 {
        let (behind, end) = pass_members(schema, input, at, place, next);
        if behind > next {
            let left = Left::Members(place, behind);
            return Step::On(end, Frame { levels, left });
        }
    }
    match member_kind(schema, place, next) {
        None => Step::Stop,
        Some(None) => Step::Done,
        Some(Some(kind)) => {
            let left = Left::Members(place, next + 1);
            let part = pass_part(schema, input, at, levels, kind);
            as_step(part, Frame { levels, left })
        }
    }
}

/// From which on the members of the struct are left, and where those without parts end that stand here.
fn pass_members(
    schema: &Schema,
    input: &[u8],
    start: usize,
    place: u32,
    first: usize,
) -> (usize, usize)
    requires { start ≤ length input.now }
    ensures { MembersPassed schema.now input.now (members_of (slice_get schema.now.structs place)) first start
        result.0 result.1 }
{
    match schema.structs().get(place as usize) {
        Some(decl) => pass_leaves(schema, input, start, decl.members.as_slice(), first),
        None => (first, start),
    }
}

/// The same of these members.
fn pass_leaves(
    schema: &Schema,
    input: &[u8],
    start: usize,
    members: &[Member],
    first: usize,
) -> (usize, usize)
    requires { start ≤ length input.now }
    ensures { MembersPassed schema.now input.now (kinds_of members.now) first start result.0 result.1 }
{
    if first >= members.len() {
        return (first, start);
    }
    let mut at = start;
    for next in first..members.len() {
        match leaf_length(schema, members[next].kind, &input[at..]) {
            Some(length) => at += length,
            None => return (next, at),
        }
    }
    (members.len(), at)
}

/// The type of this member of the struct at the place of the schema; inside, None where it has no more members.
fn member_kind(schema: &Schema, place: u32, next: usize) -> Option<Option<TypeRef>>
    ensures kind { IfSome result (λ kind. NextKind (drop next (members_of (slice_get schema.now.structs place))) kind) }
    ensures room { IfSome result (λ kind. IfSome kind (λ _. next + 1 < 2 ^ 64)) }
{
    let decl = schema.structs().get(place as usize)?;
    if next >= decl.members.len() {
        return Some(None);
    }
    let member = decl.members.get(next)?;
    Some(Some(member.kind))
}
