//! Whether what was spelled of a type under one schema can be read of a type under another.

ghost use Rattle.std.specs.Prelude.{◌↔◌, ◌≡◌, ◌+◌, ◌≤◌, ◌<◌, IfOk, OnOk, IsTrue, slice_get};
ghost use Rattle.ice_types.specs.Lacking.{BothAre};
ghost use Rattle.slice_compat.specs.Answers.{AreAnswers};
ghost use Rattle.slice_compat.specs.Reading.{Reads, ReadsDict, ReadsEnum, ReadsMembers, ReadsParts};
ghost use Rattle.slice_compat.specs.Reading.{ReadsSeq, ReadsStruct, ReadsWithin};

use crate::answers::Answers;
use crate::enums::have_entries;
use crate::ids::reads_class;
use ice_types::{MOST_DEPTH, Member, Schema, TypeRef};
use std::alloc::{AllocError, Global};

/// Whether what was spelled of the first type under the old schema can be read of the second one under the new one.
pub(crate) fn reads(
    alloc: Global,
    old: &Schema,
    new: &Schema,
    answers: &mut Answers,
    kind: TypeRef,
    other: TypeRef,
) -> Result<bool, AllocError>
    requires { AreAnswers old.now new.now answers.old }
    ensures yes { IfOk result (λ yes. IsTrue yes ↔ Reads old.now new.now kind other) }
    ensures answers { OnOk result (AreAnswers old.now new.now answers.new) }
{
    reads_within(alloc, old, new, answers, MOST_DEPTH, kind, other)
}

/// The same of types that nest at most so deep.
#[cycle(kinds)]
fn reads_within(
    alloc: Global,
    old: &Schema,
    new: &Schema,
    answers: &mut Answers,
    levels: u32,
    kind: TypeRef,
    other: TypeRef,
) -> Result<bool, AllocError>
    requires levels { levels ≤ MOST_DEPTH }
    requires answers { AreAnswers old.now new.now answers.old }
    ensures yes { IfOk result (λ yes. IsTrue yes ↔ ReadsWithin old.now new.now levels kind other) }
    ensures answers { OnOk result (AreAnswers old.now new.now answers.new) }
{
    if levels == 0 {
        return Ok(false);
    }
    reads_parts(alloc, old, new, answers, levels - 1, kind, other)
}

/// The same of types whose parts nest at most so deep.
#[cycle(kinds)]
fn reads_parts(
    alloc: Global,
    old: &Schema,
    new: &Schema,
    answers: &mut Answers,
    levels: u32,
    kind: TypeRef,
    other: TypeRef,
) -> Result<bool, AllocError>
    requires levels { levels < MOST_DEPTH }
    requires answers { AreAnswers old.now new.now answers.old }
    ensures yes { IfOk result (λ yes. IsTrue yes ↔
        ReadsParts old.now new.now (ReadsWithin old.now new.now levels) kind other) }
    ensures answers { OnOk result (AreAnswers old.now new.now answers.new) }
{
    match kind {
        TypeRef::Bool => Ok(matches!(other, TypeRef::Bool)),
        TypeRef::Byte => Ok(matches!(other, TypeRef::Byte)),
        TypeRef::Short => Ok(matches!(other, TypeRef::Short)),
        TypeRef::Int => Ok(matches!(other, TypeRef::Int)),
        TypeRef::Long => Ok(matches!(other, TypeRef::Long)),
        TypeRef::Text => Ok(matches!(other, TypeRef::Text)),
        TypeRef::Seq(a) => match other {
            TypeRef::Seq(b) => reads_seq(alloc, old, new, answers, levels, a, b),
            _ => Ok(false),
        },
        TypeRef::Dict(a) => match other {
            TypeRef::Dict(b) => reads_dict(alloc, old, new, answers, levels, a, b),
            _ => Ok(false),
        },
        TypeRef::Struct(a) => match other {
            TypeRef::Struct(b) => reads_struct(alloc, old, new, answers, levels, a, b),
            _ => Ok(false),
        },
        TypeRef::Enum(a) => match other {
            TypeRef::Enum(b) => reads_enum(alloc, old, new, answers, a, b),
            _ => Ok(false),
        },
        TypeRef::Proxy(_) => Ok(matches!(other, TypeRef::Proxy(_))),
        TypeRef::Class(a) => Ok(matches!(other, TypeRef::Class(b) if reads_class(old, new, a, b))),
    }
}

/// Whether sequences stand at both places, and the elements of the first can be read.
#[cycle(kinds)]
fn reads_seq(
    alloc: Global,
    old: &Schema,
    new: &Schema,
    answers: &mut Answers,
    levels: u32,
    a: u32,
    b: u32,
) -> Result<bool, AllocError>
    requires levels { levels < MOST_DEPTH }
    requires answers { AreAnswers old.now new.now answers.old }
    ensures yes { IfOk result (λ yes. IsTrue yes ↔
        BothAre (ReadsSeq old.now new.now (ReadsWithin old.now new.now levels))
        (slice_get old.now.seqs a) (slice_get new.now.seqs b)) }
    ensures answers { OnOk result (AreAnswers old.now new.now answers.new) }
{
    let Some(own) = old.seqs().get(a as usize) else {
        return Ok(false);
    };
    let Some(decl) = new.seqs().get(b as usize) else {
        return Ok(false);
    };
    reads_within(alloc, old, new, answers, levels, own.element, decl.element)
}

/// Whether dictionaries stand at both places, and keys and values of the first can be read.
#[cycle(kinds)]
fn reads_dict(
    alloc: Global,
    old: &Schema,
    new: &Schema,
    answers: &mut Answers,
    levels: u32,
    a: u32,
    b: u32,
) -> Result<bool, AllocError>
    requires levels { levels < MOST_DEPTH }
    requires answers { AreAnswers old.now new.now answers.old }
    ensures yes { IfOk result (λ yes. IsTrue yes ↔
        BothAre (ReadsDict old.now new.now (ReadsWithin old.now new.now levels))
        (slice_get old.now.dicts a) (slice_get new.now.dicts b)) }
    ensures answers { OnOk result (AreAnswers old.now new.now answers.new) }
{
    let Some(own) = old.dicts().get(a as usize) else {
        return Ok(false);
    };
    let Some(decl) = new.dicts().get(b as usize) else {
        return Ok(false);
    };
    if !reads_within(alloc, old, new, answers, levels, own.key, decl.key)? {
        return Ok(false);
    }
    reads_within(alloc, old, new, answers, levels, own.value, decl.value)
}

/// Whether structs stand at both places, and the members of the first can be read. What was asked for before is
/// remembered.
#[cycle(kinds)]
fn reads_struct(
    alloc: Global,
    old: &Schema,
    new: &Schema,
    answers: &mut Answers,
    levels: u32,
    a: u32,
    b: u32,
) -> Result<bool, AllocError>
    requires levels { levels < MOST_DEPTH }
    requires answers { AreAnswers old.now new.now answers.old }
    ensures yes { IfOk result (λ yes. IsTrue yes ↔
        BothAre (ReadsStruct old.now new.now (ReadsWithin old.now new.now levels))
        (slice_get old.now.structs a) (slice_get new.now.structs b)) }
    ensures answers { OnOk result (AreAnswers old.now new.now answers.new) }
{
    // An answer holds at each number of levels within which the struct nests, which is each that is met here.
    let Some(_) = old.measure_within(levels + 1, TypeRef::Struct(a)) else {
        return compares_structs(alloc, old, new, answers, levels, a, b);
    };
    if let Some(yes) = answers.of_structs(a, b) {
        return Ok(yes);
    }
    let yes = compares_structs(alloc, old, new, answers, levels, a, b)?;
    answers.put_structs(a, b, yes)?;
    Ok(yes)
}

/// The same, member by member.
#[cycle(kinds)]
fn compares_structs(
    alloc: Global,
    old: &Schema,
    new: &Schema,
    answers: &mut Answers,
    levels: u32,
    a: u32,
    b: u32,
) -> Result<bool, AllocError>
    requires levels { levels < MOST_DEPTH }
    requires answers { AreAnswers old.now new.now answers.old }
    ensures yes { IfOk result (λ yes. IsTrue yes ↔
        BothAre (ReadsStruct old.now new.now (ReadsWithin old.now new.now levels))
        (slice_get old.now.structs a) (slice_get new.now.structs b)) }
    ensures answers { OnOk result (AreAnswers old.now new.now answers.new) }
{
    let Some(own) = old.structs().get(a as usize) else {
        return Ok(false);
    };
    let Some(decl) = new.structs().get(b as usize) else {
        return Ok(false);
    };
    read_members(
        alloc,
        old,
        new,
        answers,
        levels,
        own.members.as_slice(),
        decl.members.as_slice(),
    )
}

/// Whether there are as many members, and each can be read as the one at its place.
#[cycle(kinds)]
fn read_members(
    alloc: Global,
    old: &Schema,
    new: &Schema,
    answers: &mut Answers,
    levels: u32,
    own: &[Member],
    members: &[Member],
) -> Result<bool, AllocError>
    requires levels { levels < MOST_DEPTH }
    requires answers { AreAnswers old.now new.now answers.old }
    ensures yes { IfOk result (λ yes. IsTrue yes ↔
        ReadsMembers old.now new.now (ReadsWithin old.now new.now levels) own.now members.now) }
    ensures answers { OnOk result (AreAnswers old.now new.now answers.new) }
{
    for (at, first) in own.iter().enumerate() {
        let Some(second) = members.get(at) else {
            return Ok(false);
        };
        if !reads_within(alloc, old, new, answers, levels, first.kind, second.kind)? {
            return Ok(false);
        }
    }
    Ok(own.len() == members.len())
}

/// Whether enums stand at both places, and the second has each number of the first. What was asked for before is
/// remembered.
fn reads_enum(
    alloc: Global,
    old: &Schema,
    new: &Schema,
    answers: &mut Answers,
    a: u32,
    b: u32,
) -> Result<bool, AllocError>
    requires { AreAnswers old.now new.now answers.old }
    ensures yes { IfOk result (λ yes. IsTrue yes ↔
        BothAre ReadsEnum (slice_get old.now.enums a) (slice_get new.now.enums b)) }
    ensures answers { OnOk result (AreAnswers old.now new.now answers.new) }
{
    if let Some(yes) = answers.of_enums(a, b) {
        return Ok(yes);
    }
    let yes = compares_enums(alloc, old, new, a, b)?;
    answers.put_enums(a, b, yes)?;
    Ok(yes)
}

/// The same, number by number.
fn compares_enums(
    alloc: Global,
    old: &Schema,
    new: &Schema,
    a: u32,
    b: u32,
) -> Result<bool, AllocError>
    ensures { IfOk result (λ yes. IsTrue yes ↔
        BothAre ReadsEnum (slice_get old.now.enums a) (slice_get new.now.enums b)) }
{
    let Some(own) = old.enums().get(a as usize) else {
        return Ok(false);
    };
    let Some(decl) = new.enums().get(b as usize) else {
        return Ok(false);
    };
    have_entries(alloc, own.entries.as_slice(), decl.entries.as_slice())
}
