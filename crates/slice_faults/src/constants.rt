//! Constants are declared.

ghost use Rattle.std.specs.Prelude.{◌≡◌, None, IfOk};
ghost use Rattle.slice_syntax.specs.declared.tree.Item.TheVariants as items;
ghost use Rattle.slice_meaning.specs.Faults.{faults};
ghost use Rattle.slice_meaning.specs.After.{after, kind_of};
ghost use Rattle.slice_meaning.specs.Checking.{noted};
ghost use Rattle.slice_faults.specs.Held.{known_of};

use crate::fields::{note_type, note_value};
use crate::known::Known;
use crate::names::{declare, note_new_name};
use crate::uses::{kind_of, type_of};
use crate::values::typed;
use slice_meaning::{Fault, Found, Standing};
use slice_syntax::{Constant, TypeWord, Word};
use std::alloc::{AllocError, Global};

/// Declares a constant, or answers its fault.
pub(crate) fn constant<'a>(
    alloc: Global,
    known: &mut Known<'a>,
    kind: &TypeWord,
    word: &'a Word,
    value: &Constant,
) -> Result<Option<Fault>, AllocError>
    ensures fault { IfOk result (λ fault. fault
        ≡ noted None (faults (known_of known.old) (items.Const kind.now word.now value.now))) }
    ensures after { IfOk result (λ fault. fault ≡ None
        → known_of known.new ≡ after (known_of known.old) (items.Const kind.now word.now value.now)) }
{
    let fault = constant_fault(alloc, known, kind, word, value)?;
    if fault.is_none() {
        if let Ok(value) = typed(known, kind_of(known, kind), &value.value) {
            declare(alloc, known, word, Standing::Value(value))?;
        }
    }
    Ok(fault)
}

/// The fault of a constant.
#[tactic(auto, using(crate::proofs::Noting::joined))]
fn constant_fault(
    alloc: Global,
    known: &Known,
    kind: &TypeWord,
    word: &Word,
    value: &Constant,
) -> Result<Option<Fault>, AllocError>
    ensures { IfOk result (λ fault. fault
        ≡ noted None (faults (known_of known.now) (items.Const kind.now word.now value.now))) }
{
    let mut found = Found::new();
    note_new_name(alloc, known, word, &mut found)?;
    note_type(known, kind, &mut found);
    note_value(known, type_of(known, kind), value, &mut found);
    Ok(found.first)
}
