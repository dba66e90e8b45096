//! What is wrong with operations.

ghost use Rattle.std.specs.Prelude.{ℕ, ◌≡◌, Bool, false, List, [], ◌∷◌, map, flat_map, cond, OnOk};
ghost use Rattle.slice_meaning.specs.Checking.{noted};
ghost use Rattle.slice_meaning.specs.Members.{field_faults, tag_fault, tag_faults, with_tag, order_faults};
ghost use Rattle.slice_meaning.specs.Members.{result_faults, thrown_faults, op_faults};
ghost use Rattle.slice_faults.specs.Held.{known_of, HoldsNumbers};
ghost use Rattle.slice_faults.specs.Sides.{side, is_side};

use crate::fields::{note_field, note_tag, note_type};
use crate::known::Known;
use crate::named::note_names;
use crate::note::note_row;
use crate::number_set::NumberSet;
use crate::uses::{exception_of, type_place};
use slice_meaning::{CheckKind, Found};
use slice_syntax::{Constant, OpTree, Param, Path, TypeWord};
use std::alloc::{AllocError, Global};

/// Notes what is wrong with an operation.
#[tactic(auto, using(crate::proofs::Noting::joined))]
pub(crate) fn note_operation(
    alloc: Global,
    known: &Known,
    op: &OpTree,
    found: &mut Found,
) -> Result<(), AllocError>
    ensures { OnOk result (found.new.first ≡ noted found.old.first (op_faults (known_of known.now) op.now)) }
{
    let params = op.params.as_slice();
    note_tags(alloc, known, &op.tag, params, true, found)?;
    note_tags(alloc, known, &None, params, false, found)?;
    note_result(known, &op.result, found);
    note_params(known, params, found);
    note_order(params, found);
    note_names(alloc, params, found)?;
    note_thrown(known, op.throws.as_slice(), found);
    Ok(())
}

/// Notes what is wrong with a first tag and with those of the parameters of one side.
fn note_tags(
    alloc: Global,
    known: &Known,
    first: &Option<Constant>,
    params: &[Param],
    out: bool,
    found: &mut Found,
) -> Result<(), AllocError>
    ensures { OnOk result (found.new.first
        ≡ noted found.old.first (tag_faults
        (known_of known.now) [] (first.now ∷ map (λ f. f.tag) (side out params.now)))) }
{
    let mut numbers = NumberSet::new(alloc);
    note_tag(known, &mut numbers, first, found)?;
    for param in params {
        note_side_tag(known, param, out, &mut numbers, found)?;
    }
    Ok(())
}

/// Notes what is wrong with the tag of a parameter, where it is of this side.
fn note_side_tag(
    known: &Known,
    param: &Param,
    out: bool,
    numbers: &mut NumberSet,
    found: &mut Found,
) -> Result<(), AllocError>
    ensures found { (before : List ℕ) → HoldsNumbers numbers.old.numbers before
        → OnOk result (found.new.first
        ≡ noted found.old.first (cond (is_side out param.now) (tag_fault
        (known_of known.now) before param.now.field.tag) [])) }
    ensures held { (before : List ℕ) → HoldsNumbers numbers.old.numbers before
        → OnOk result (HoldsNumbers numbers.new.numbers (cond (is_side out param.now) (with_tag
        (known_of known.now) before param.now.field.tag) before)) }
{
    if param.out == out {
        note_tag(known, numbers, &param.field.tag, found)
    } else {
        Ok(())
    }
}

/// Notes what is wrong with the type that is returned.
fn note_result(known: &Known, word: &Option<TypeWord>, found: &mut Found)
    ensures { found.new.first ≡ noted found.old.first (result_faults (known_of known.now) word.now) }
{
    if let Some(word) = word {
        note_type(known, word, found);
    }
}

/// Notes what is wrong with the types of parameters, and with their values.
fn note_params(known: &Known, params: &[Param], found: &mut Found)
    ensures { found.new.first
        ≡ noted found.old.first (flat_map (λ p. field_faults (known_of known.now) p.field) params.now) }
{
    for param in params {
        note_field(known, &param.field, found);
    }
}

/// Notes each `in` parameter after an `out` parameter.
fn note_order(params: &[Param], found: &mut Found)
    ensures { found.new.first ≡ noted found.old.first (order_faults false params.now) }
{
    let mut after = false;
    for param in params {
        found.note_where(
            after && !param.out,
            type_place(&param.field.kind),
            CheckKind::BadValue,
        );
        after = after || param.out;
    }
}

/// Notes what is thrown and is no exception.
fn note_thrown(known: &Known, throws: &[Path], found: &mut Found)
    ensures { found.new.first ≡ noted found.old.first (flat_map (thrown_faults (known_of known.now)) throws.now) }
{
    for path in throws {
        note_row(exception_of(known, path).err(), path.place, found);
    }
}
