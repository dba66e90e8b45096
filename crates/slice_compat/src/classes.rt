//! Whether what was spelled of a class of one schema can be read under another: its tests, one after the other.

ghost use Rattle.std.specs.Prelude.{◌↔◌, ◌≡◌, length, MatchOption, IfOk, OnOk, IsTrue};
ghost use Rattle.slice_compat.specs.Answers.{AreAnswers};
ghost use Rattle.slice_compat.specs.Tagged.{HaveOwnTags};
ghost use Rattle.slice_compat.specs.Tests.{ClassFails, ClassPasses, ClassReads, Fails, FirstUnread};
ghost use Rattle.slice_compat.specs.Tests.{KeepsBase, KeepsCompactId, KeepsNumber, ReadsAt, ReadsEach, required_of};

use crate::answers::Answers;
use crate::options::least_unread;
use crate::reading::reads;
use crate::same_rows::is_same_class_base;
use crate::verdict::Why;
use ice_types::{ClassDecl, Member, Schema, TypeRef};
use std::alloc::{AllocError, Global};

/// The first test that the class at this place of the old schema fails, None where the new one reads it.
pub(crate) fn class_fault(
    alloc: Global,
    old: &Schema,
    new: &Schema,
    answers: &mut Answers,
    at: u32,
) -> Result<Option<Why>, AllocError>
    requires { AreAnswers old.now new.now answers.old }
    ensures why { IfOk result (λ why.
        MatchOption why (ClassPasses old.now new.now at) (ClassFails old.now new.now at)) }
    ensures answers { OnOk result (AreAnswers old.now new.now answers.new) }
{
    let Some(own) = old.classes().get(at as usize) else {
        return Ok(Some(Why::Missing));
    };
    let Some(place) = new.class(own.id.as_str()) else {
        return Ok(Some(Why::Missing));
    };
    let Some(decl) = new.classes().get(place as usize) else {
        return Ok(Some(Why::Missing));
    };
    new.rules();
    fault_of(alloc, old, new, answers, own, decl)
}

/// The first test that one class fails as the other, None where it stands them all.
fn fault_of(
    alloc: Global,
    old: &Schema,
    new: &Schema,
    answers: &mut Answers,
    own: &ClassDecl,
    decl: &ClassDecl,
) -> Result<Option<Why>, AllocError>
    requires answers { AreAnswers old.now new.now answers.old }
    requires tags { HaveOwnTags decl.now.members }
    ensures why { IfOk result (λ why.
        MatchOption why (ClassReads old.now new.now own.now decl.now) (Fails old.now new.now own.now decl.now)) }
    ensures answers { OnOk result (AreAnswers old.now new.now answers.new) }
{
    if !is_same_class_base(old, new, own.base, decl.base) {
        return Ok(Some(Why::Base));
    }
    if !keeps_number(own.compact, decl.compact) {
        return Ok(Some(Why::CompactId));
    }
    members_fault(alloc, old, new, answers, own, decl)
}

/// The same of classes whose bases and compact ids stand.
fn members_fault(
    alloc: Global,
    old: &Schema,
    new: &Schema,
    answers: &mut Answers,
    own: &ClassDecl,
    decl: &ClassDecl,
) -> Result<Option<Why>, AllocError>
    requires answers { AreAnswers old.now new.now answers.old }
    requires tags { HaveOwnTags decl.now.members }
    requires base { KeepsBase old.now new.now own.now decl.now }
    requires compact { KeepsCompactId old.now new.now own.now decl.now }
    ensures why { IfOk result (λ why.
        MatchOption why (ClassReads old.now new.now own.now decl.now) (Fails old.now new.now own.now decl.now)) }
    ensures answers { OnOk result (AreAnswers old.now new.now answers.new) }
{
    let members = own.members.as_slice();
    let others = decl.members.as_slice();
    let required = required_of(alloc, members)?;
    let wanted = required_of(alloc, others)?;
    let kinds = required.as_slice();
    let other_kinds = wanted.as_slice();
    if !are_as_many(kinds, other_kinds) {
        return Ok(Some(Why::Members));
    }
    let unread = first_unread(alloc, old, new, answers, kinds, other_kinds)?;
    if let Some(place) = unread {
        return Ok(Some(Why::Required(place)));
    }
    let least = least_unread(alloc, old, new, answers, members, others)?;
    match least {
        Some(tag) => Ok(Some(Why::Optional(tag))),
        None => Ok(None),
    }
}

/// Whether the lists have as many types.
fn are_as_many(kinds: &[TypeRef], others: &[TypeRef]) -> bool
    ensures { IsTrue result ↔ (length kinds.now ≡ length others.now) }
{
    kinds.len() == others.len()
}

/// Whether a compact id stays as it is. A class without one may get one.
fn keeps_number(own: Option<u32>, number: Option<u32>) -> bool
    ensures { IsTrue result ↔ KeepsNumber own number }
{
    match own {
        Some(a) => matches!(number, Some(b) if a == b),
        None => true,
    }
}

/// The types of the members that are always there.
fn required_of(alloc: Global, members: &[Member]) -> Result<Vec<TypeRef>, AllocError>
    ensures { IfOk result (λ kinds. kinds.items ≡ required_of members.now) }
{
    members
        .iter()
        .filter(|member| member.tag.is_none())
        .map(|member| member.kind)
        .collect(alloc)
}

/// The first place whose types cannot be read, None where each can.
fn first_unread(
    alloc: Global,
    old: &Schema,
    new: &Schema,
    answers: &mut Answers,
    own: &[TypeRef],
    others: &[TypeRef],
) -> Result<Option<usize>, AllocError>
    requires { AreAnswers old.now new.now answers.old }
    ensures place { IfOk result (λ place.
        MatchOption place (ReadsEach old.now new.now own.now others.now)
        (FirstUnread old.now new.now own.now others.now)) }
    ensures answers { OnOk result (AreAnswers old.now new.now answers.new) }
{
    for at in 0..own.len() {
        let can_read = reads_at(alloc, old, new, answers, own, others, at)?;
        if !can_read {
            return Ok(Some(at));
        }
    }
    Ok(None)
}

/// Whether types stand at this place of both lists, of which the first can be read.
fn reads_at(
    alloc: Global,
    old: &Schema,
    new: &Schema,
    answers: &mut Answers,
    own: &[TypeRef],
    others: &[TypeRef],
    at: usize,
) -> Result<bool, AllocError>
    requires { AreAnswers old.now new.now answers.old }
    ensures yes { IfOk result (λ yes. IsTrue yes ↔ ReadsAt old.now new.now own.now others.now at) }
    ensures answers { OnOk result (AreAnswers old.now new.now answers.new) }
{
    let Some(first) = own.get(at).copied() else {
        return Ok(false);
    };
    let Some(second) = others.get(at).copied() else {
        return Ok(false);
    };
    reads(alloc, old, new, answers, first, second)
}
