//! Exceptions are declared.

ghost use Rattle.std.specs.Prelude.{◌≡◌, None, IfOk};
ghost use Rattle.slice_syntax.specs.declared.tree.Item.TheVariants as items;
ghost use Rattle.slice_syntax.specs.Places.{IsPlain};
ghost use Rattle.slice_meaning.specs.Uses.{exception_of};
ghost use Rattle.slice_meaning.specs.Faults.{faults, exception_base_faults};
ghost use Rattle.slice_meaning.specs.After.{after, base_at};
ghost use Rattle.slice_meaning.specs.Checking.{noted};
ghost use Rattle.slice_faults.specs.Held.{known_of};
ghost use Rattle.slice_faults.specs.Kept.{IsKept};

use crate::fields::note_fields;
use crate::ids::new_id;
use crate::known::Known;
use crate::members::members_of;
use crate::names::{declare, note_new_name};
use crate::note::note_row;
use crate::room::has_room;
use crate::uses::exception_of;
use ice_types::{ExceptionDecl, List};
use slice_meaning::{Fault, Found, Standing};
use slice_syntax::{Field, Path, Word};
use std::alloc::{AllocError, Global};

/// Declares an exception, or answers its fault.
pub(crate) fn exception<'a>(
    alloc: Global,
    known: &mut Known<'a>,
    word: &'a Word,
    base: &Option<Path>,
    fields: &List<Field>,
) -> Result<Option<Fault>, AllocError>
    requires plain { IsPlain word.now.name }
    requires kept { IsKept (known_of known.old) }
    ensures fault { IfOk result (λ fault. fault
        ≡ noted None (faults (known_of known.old) (items.Exception word.now base.now fields.now))) }
    ensures after { IfOk result (λ fault. fault ≡ None
        → known_of known.new ≡ after (known_of known.old) (items.Exception word.now base.now fields.now)) }
{
    let fault = exception_fault(alloc, known, word, base, fields)?;
    if fault.is_none() {
        has_room(known.rows.exceptions().len())?;
        let id = new_id(alloc, known, word)?;
        let base = base_at(known, base);
        let members = members_of(alloc, known, fields.as_slice())?;
        let at = known
            .rows
            .add_exception(ExceptionDecl { id, base, members })?;
        declare(alloc, known, word, Standing::Exception(at))?;
    }
    Ok(fault)
}

/// The fault of an exception.
#[tactic(auto, using(crate::proofs::Noting::joined))]
fn exception_fault(
    alloc: Global,
    known: &Known,
    word: &Word,
    base: &Option<Path>,
    fields: &List<Field>,
) -> Result<Option<Fault>, AllocError>
    ensures { IfOk result (λ fault. fault
        ≡ noted None (faults (known_of known.now) (items.Exception word.now base.now fields.now))) }
{
    let mut found = Found::new();
    note_new_name(alloc, known, word, &mut found)?;
    note_base(known, base, &mut found);
    note_fields(alloc, known, fields.as_slice(), &mut found)?;
    Ok(found.first)
}

/// Notes what is wrong with the base of an exception.
fn note_base(known: &Known, base: &Option<Path>, found: &mut Found)
    ensures { found.new.first ≡ noted found.old.first (exception_base_faults (known_of known.now) base.now) }
{
    if let Some(path) = base {
        note_row(exception_of(known, path).err(), path.place, found);
    }
}

/// The exception that the base means, where one is named and means one.
fn base_at(known: &Known, base: &Option<Path>) -> Option<u32>
    ensures { result ≡ base_at (exception_of (known_of known.now)) base.now }
{
    match base {
        Some(path) => exception_of(known, path).ok(),
        None => None,
    }
}
