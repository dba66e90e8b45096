//! Whether what was spelled of a type under one schema can be read of a type under another.

ghost use Rattle.std.specs.Prelude.{◌≡◌, IfOk, OnOk, IsTrue, MatchOption};
ghost use Rattle.ice_types.specs.Tables.{is_defined};
ghost use Rattle.slice_compat.specs.Answers.{AreAnswers};
ghost use Rattle.slice_compat.specs.Marks.{AreReached};
ghost use Rattle.slice_compat.specs.Reading.{Reads};
ghost use Rattle.slice_compat.specs.Tests.{ClassFails, ClassPasses};
ghost use Rattle.slice_compat.specs.Verdicts.{IsVerdict};

use crate::answers::Answers;
use crate::classes::class_fault;
use crate::reached::reached_classes;
use crate::reading::reads;
use crate::verdict::{Verdict, Why};
use ice_types::{Schema, TypeRef};
use std::alloc::{AllocError, Global};

/// Whether what was spelled of a type under the old schema can be read of a type under the new one, and else what
/// stands in the way first: the types themselves, or the first class, in the order of the old schema, that they reach
/// and that cannot be read, with its first failing test. The time is n log n in the size of both schemas, but for the
/// bases above a class place that the new schema declares higher up. An error is that there was no memory; it leaves
/// nothing. (Ice manual, "Data Encoding for Class and Exception Types", "Data Encoding for Optional Values".)
pub fn compatible(
    alloc: Global,
    old: &Schema,
    old_kind: TypeRef,
    new: &Schema,
    new_kind: TypeRef,
) -> Result<Verdict, AllocError>
    ensures { IfOk result (IsVerdict old.now new.now old_kind new_kind) }
{
    let mut answers = Answers::new(alloc);
    let can_read = reads(alloc, old, new, &mut answers, old_kind, new_kind)?;
    if !can_read {
        return Ok(Verdict::NoRoot);
    }
    let flags = reached_classes(alloc, old, old_kind)?;
    first_failing(
        alloc,
        old,
        old_kind,
        new,
        new_kind,
        &mut answers,
        flags.as_slice(),
    )
}

/// The verdict by the classes that are reached.
fn first_failing(
    alloc: Global,
    old: &Schema,
    old_kind: TypeRef,
    new: &Schema,
    new_kind: TypeRef,
    answers: &mut Answers,
    flags: &[bool],
) -> Result<Verdict, AllocError>
    requires answers { AreAnswers old.now new.now answers.old }
    requires root { Reads old.now new.now old_kind new_kind }
    requires flags { AreReached old.now old_kind flags.now }
    ensures { IfOk result (IsVerdict old.now new.now old_kind new_kind) }
{
    old.rules();
    for at in 0..flags.len() {
        let class = at as u32;
        let fault = fault_where(alloc, old, new, answers, flags, class)?;
        if let Some(why) = fault {
            return Ok(Verdict::NoClass { class, why });
        }
    }
    Ok(Verdict::Yes)
}

/// The first test that a class fails, where it is reached.
fn fault_where(
    alloc: Global,
    old: &Schema,
    new: &Schema,
    answers: &mut Answers,
    flags: &[bool],
    class: u32,
) -> Result<Option<Why>, AllocError>
    requires { AreAnswers old.now new.now answers.old }
    ensures why { IfOk result (λ why. MatchOption why
        (IsTrue (is_defined flags.now class) → ClassPasses old.now new.now class)
        (λ why. IsTrue (is_defined flags.now class) × ClassFails old.now new.now class why)) }
    ensures answers { OnOk result (AreAnswers old.now new.now answers.new) }
{
    if !is_marked(flags, class) {
        return Ok(None);
    }
    class_fault(alloc, old, new, answers, class)
}

/// The flag at a place, clear behind the end.
fn is_marked(flags: &[bool], at: u32) -> bool
    ensures { result ≡ is_defined flags.now at }
{
    flags.get(at as usize).copied().unwrap_or(false)
}
