//! Whether the optional members of a class can be read as those of another one, by their tags.

ghost use Rattle.std.specs.Prelude.{ℕ, List, ◌≡◌, ◌+◌, ◌∷◌, ◌↔◌, length, IfOk, OnOk, IsTrue, Some, slice_get};
ghost use Rattle.std.specs.BTreeMap.{get};
ghost use Rattle.std.specs.Ordering.{nat_cmp};
ghost use Rattle.ice_types.specs.declared.declarations.Member.{Member};
ghost use Rattle.slice_compat.specs.Answers.{AreAnswers};
ghost use Rattle.slice_compat.specs.Tagged.{AreKinds, HasKinds, HaveOwnTags, ReadsWhere};
ghost use Rattle.slice_compat.specs.Tests.{IsAtMost, IsLeastUnread};

use crate::answers::Answers;
use crate::reading::reads;
use ice_types::{Member, Schema, TypeRef};
use std::alloc::{AllocError, Global};
use std::collections::BTreeMap;

/// The least tag of the members that cannot be read as the one of their tag, None where each can.
pub(crate) fn least_unread(
    alloc: Global,
    old: &Schema,
    new: &Schema,
    answers: &mut Answers,
    own: &[Member],
    members: &[Member],
) -> Result<Option<u32>, AllocError>
    requires answers { AreAnswers old.now new.now answers.old }
    requires tags { HaveOwnTags members.now }
    ensures least { IfOk result (IsLeastUnread old.now new.now (length own.now) own.now members.now) }
    ensures answers { OnOk result (AreAnswers old.now new.now answers.new) }
{
    let kinds = kinds_of(alloc, members)?;
    let mut least = None;
    for member in own {
        least = least_with(alloc, old, new, answers, &kinds, member, least)?;
    }
    Ok(least)
}

/// The types of the optional members, by their tags.
fn kinds_of(alloc: Global, members: &[Member]) -> Result<BTreeMap<u32, TypeRef>, AllocError>
    ensures { IfOk result (λ kinds. HasKinds kinds members.now) }
{
    let mut kinds = BTreeMap::new(alloc);
    for at in (0..members.len()).rev() {
        put_kind(&mut kinds, &members[at])?;
    }
    Ok(kinds)
}

/// Puts the type of a member under its tag, where it has one.
fn put_kind(kinds: &mut BTreeMap<u32, TypeRef>, member: &Member) -> Result<(), AllocError>
    ensures { (members : List Member) → HasKinds kinds.old members
        → OnOk result (HasKinds kinds.new (member.now ∷ members)) }
{
    if let Some(tag) = member.tag {
        kinds.insert(tag, member.kind)?;
    }
    Ok(())
}

/// The least tag of those up to this member, by that of those before it.
fn least_with(
    alloc: Global,
    old: &Schema,
    new: &Schema,
    answers: &mut Answers,
    kinds: &BTreeMap<u32, TypeRef>,
    member: &Member,
    least: Option<u32>,
) -> Result<Option<u32>, AllocError>
    requires { AreAnswers old.now new.now answers.old }
    ensures least { (own members : List Member) (at : ℕ) → AreKinds kinds.now members
        → slice_get own at ≡ Some member.now → IsLeastUnread old.now new.now at own members least
        → IfOk result (IsLeastUnread old.now new.now (at + 1) own members) }
    ensures answers { OnOk result (AreAnswers old.now new.now answers.new) }
{
    let Some(tag) = member.tag else {
        return Ok(least);
    };
    if is_at_most(least, tag) {
        return Ok(least);
    }
    let other = kind_at(kinds, tag);
    let can_read = reads_where(alloc, old, new, answers, member.kind, other)?;
    if can_read {
        return Ok(least);
    }
    Ok(Some(tag))
}

/// Whether there is a tag already that is not above this one.
fn is_at_most(least: Option<u32>, tag: u32) -> bool
    ensures { IsTrue result ↔ IsAtMost least tag }
{
    match least {
        Some(other) => other <= tag,
        None => false,
    }
}

/// The type under a tag.
fn kind_at(kinds: &BTreeMap<u32, TypeRef>, tag: u32) -> Option<TypeRef>
    ensures { result ≡ get nat_cmp kinds.now tag }
{
    kinds.get(&tag).copied()
}

/// Whether a type can be read as the other one, where there is one.
fn reads_where(
    alloc: Global,
    old: &Schema,
    new: &Schema,
    answers: &mut Answers,
    kind: TypeRef,
    other: Option<TypeRef>,
) -> Result<bool, AllocError>
    requires { AreAnswers old.now new.now answers.old }
    ensures yes { IfOk result (λ yes. IsTrue yes ↔ ReadsWhere old.now new.now kind other) }
    ensures answers { OnOk result (AreAnswers old.now new.now answers.new) }
{
    match other {
        Some(there) => reads(alloc, old, new, answers, kind, there),
        None => Ok(true),
    }
}
