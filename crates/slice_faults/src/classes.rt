//! Classes are declared and defined.

ghost use Rattle.std.specs.Prelude.{◌≡◌, ◌<◌, false, length, None, Some, IfOk, OnOk};
ghost use Rattle.slice_syntax.specs.declared.tree.Item.TheVariants as items;
ghost use Rattle.slice_syntax.specs.Places.{IsPlain};
ghost use Rattle.ice_types.specs.Tables.{is_defined};
ghost use Rattle.ice_types.specs.Fits.{ClassFits, CompactIdFits};
ghost use Rattle.slice_meaning.specs.declared.fault.CheckKind.TheVariants as rows;
ghost use Rattle.slice_meaning.specs.Known.{standing_here, with_class_name};
ghost use Rattle.slice_meaning.specs.Uses.{as_class, class_named};
ghost use Rattle.slice_meaning.specs.Clashes.{reopened_name, is_class};
ghost use Rattle.slice_meaning.specs.Members.{compact_faults, compact_of, has_number, members_of};
ghost use Rattle.slice_meaning.specs.Members.{new_number, numbers_of};
ghost use Rattle.slice_meaning.specs.Faults.{faults, as_class_base, class_base_faults};
ghost use Rattle.slice_meaning.specs.After.{after, base_at, class_at, with_class_body};
ghost use Rattle.slice_meaning.specs.Checking.{noted};
ghost use Rattle.slice_faults.specs.Held.{known_of, where_row};
ghost use Rattle.slice_faults.specs.Kept.{IsKept};

use crate::fields::note_fields;
use crate::ids::new_id;
use crate::known::Known;
use crate::members::members_of;
use crate::names::{declare, note_reopened, standing_here};
use crate::note::note_row;
use crate::room::has_room;
use crate::uses::standing;
use crate::values::number_of;
use ice_types::{List, TypeRef};
use slice_meaning::{CheckKind, Fault, Found, Standing, rows_known, sound_fits};
use slice_syntax::{Constant, Field, Path, Word};
use std::alloc::{AllocError, Global};

/// Declares a class, and defines it where its members are told, or answers its fault.
pub(crate) fn class<'a>(
    alloc: Global,
    known: &mut Known<'a>,
    word: &'a Word,
    compact: &Option<Constant>,
    base: &Option<Path>,
    fields: &Option<List<Field>>,
) -> Result<Option<Fault>, AllocError>
    requires plain { IsPlain word.now.name }
    requires kept { IsKept (known_of known.old) }
    ensures fault { IfOk result (λ fault. fault
        ≡ noted None (faults (known_of known.old) (items.Class word.now compact.now base.now fields.now))) }
    ensures after { IfOk result (λ fault. fault ≡ None
        → known_of known.new ≡ after (known_of known.old) (items.Class word.now compact.now base.now fields.now)) }
{
    match fields {
        Some(fields) => defined(alloc, known, word, compact, base, fields),
        None => declared(alloc, known, word, compact, base),
    }
}

/// Declares a class alone, or answers its fault.
fn declared<'a>(
    alloc: Global,
    known: &mut Known<'a>,
    word: &'a Word,
    compact: &Option<Constant>,
    base: &Option<Path>,
) -> Result<Option<Fault>, AllocError>
    requires plain { IsPlain word.now.name }
    requires kept { IsKept (known_of known.old) }
    ensures fault { IfOk result (λ fault. fault
        ≡ noted None (faults (known_of known.old) (items.Class word.now compact.now base.now None))) }
    ensures after { IfOk result (λ fault. fault ≡ None
        → known_of known.new ≡ after (known_of known.old) (items.Class word.now compact.now base.now None)) }
{
    let mut found = Found::new();
    note_name(alloc, known, word, false, &mut found)?;
    put_name(alloc, known, word)?;
    Ok(found.first)
}

/// Defines a class, which has its name before what it holds is looked at, or answers its fault.
fn defined<'a>(
    alloc: Global,
    known: &mut Known<'a>,
    word: &'a Word,
    compact: &Option<Constant>,
    base: &Option<Path>,
    fields: &List<Field>,
) -> Result<Option<Fault>, AllocError>
    requires plain { IsPlain word.now.name }
    requires kept { IsKept (known_of known.old) }
    ensures fault { IfOk result (λ fault. fault
        ≡ noted None (faults (known_of known.old)
        (items.Class word.now compact.now base.now (Some fields.now)))) }
    ensures after { IfOk result (λ fault. fault ≡ None
        → known_of known.new ≡ after (known_of known.old)
        (items.Class word.now compact.now base.now (Some fields.now))) }
{
    rows_known();
    sound_fits();
    let mut found = Found::new();
    note_name(alloc, known, word, true, &mut found)?;
    put_name(alloc, known, word)?;
    note_compact(known, compact, &mut found);
    note_base(known, base, &mut found);
    note_fields(alloc, known, fields.as_slice(), &mut found)?;
    if found.first.is_none() {
        fill(alloc, known, word, compact, base, fields.as_slice())?;
    }
    Ok(found.first)
}

/// Notes the name of a class where it is taken by something else, or, where the class is defined now, by one that is
/// defined already.
fn note_name(
    alloc: Global,
    known: &Known,
    word: &Word,
    defines: bool,
    found: &mut Found,
) -> Result<(), AllocError>
    ensures { OnOk result (found.new.first
        ≡ noted found.old.first (reopened_name (known_of known.now) (is_class (known_of known.now) defines) word.now)) }
{
    let again = match standing_here(known, word) {
        Some(standing) => is_class(known, defines, standing),
        None => false,
    };
    note_reopened(alloc, known, word, again, found)
}

/// Whether a class may stand there again, with its members where `defines`.
fn is_class(known: &Known, defines: bool, standing: Standing) -> bool
    ensures { result ≡ is_class (known_of known.now) defines standing }
{
    match as_class(standing) {
        Some(at) => !(defines && known.rows.is_class_defined(at)),
        None => false,
    }
}

/// The place of a class.
fn as_class(standing: Standing) -> Option<u32>
    ensures { result ≡ as_class standing }
{
    match standing {
        Standing::Type(TypeRef::Class(at)) => at,
        _ => None,
    }
}

/// Declares the class, unless something has the name already.
fn put_name<'a>(alloc: Global, known: &mut Known<'a>, word: &'a Word) -> Result<(), AllocError>
    requires plain { IsPlain word.now.name }
    requires kept { IsKept (known_of known.old) }
    ensures named { OnOk result (known_of known.new ≡ with_class_name (known_of known.old) word.now) }
    ensures undefined { OnOk result (standing_here (known_of known.old) word.now ≡ None
        → is_defined known.new.rows.defined_classes (class_at (known_of known.new) word.now) ≡ false) }
{
    if standing_here(known, word).is_none() {
        has_room(known.rows.classes().len())?;
        let id = new_id(alloc, known, word)?;
        let at = known.rows.add_class(id)?;
        declare(alloc, known, word, Standing::Type(TypeRef::Class(Some(at))))?;
    }
    Ok(())
}

/// Notes a compact id that is out of range, or that of an earlier class.
fn note_compact(known: &Known, compact: &Option<Constant>, found: &mut Found)
    ensures { found.new.first ≡ noted found.old.first (compact_faults (known_of known.now) compact.now) }
{
    if let Some(constant) = compact {
        let number = number_of(known, CheckKind::BadCompactId, constant);
        note_number(known, number, constant.place, found);
    }
}

/// The same of the number that is told, or of the row that applies to it.
fn note_number(known: &Known, number: Result<u32, CheckKind>, place: u32, found: &mut Found)
    ensures { found.new.first
        ≡ noted found.old.first (new_number rows.BadCompactId place
        (numbers_of (known_of known.now).tables.classes) number) }
{
    match number {
        Ok(number) => {
            found.note_where(is_taken(known, number), place, CheckKind::BadCompactId);
        }
        Err(row) => found.note_where(true, place, row),
    }
}

/// Whether a number is that of an earlier class.
fn is_taken(known: &Known, number: u32) -> bool
    ensures { result ≡ has_number (numbers_of (known_of known.now).tables.classes) number }
{
    known.rows.class_numbered(number).is_some()
}

/// Notes a base that is no class, or a class that is not defined yet.
fn note_base(known: &Known, base: &Option<Path>, found: &mut Found)
    ensures { found.new.first ≡ noted found.old.first (class_base_faults (known_of known.now) base.now) }
{
    if let Some(path) = base {
        note_row(base_row(known, path), path.place, found);
    }
}

/// The row that applies to a base.
fn base_row(known: &Known, path: &Path) -> Option<CheckKind>
    ensures { where_row path.now.place result
        ≡ as_class_base (known_of known.now) path.now.place (class_named (known_of known.now) path.now) }
{
    match class_named(known, path) {
        Ok(at) if known.rows.is_class_defined(at) => None,
        Ok(_) => Some(CheckKind::BadBase),
        Err(row) => Some(row),
    }
}

/// The class that a name means, or the row that applies to it.
fn class_named(known: &Known, path: &Path) -> Result<u32, CheckKind>
    ensures { result ≡ class_named (known_of known.now) path.now }
{
    match standing(known, path) {
        Some(standing) => as_class(standing).ok_or(CheckKind::WrongUse),
        None => Err(CheckKind::Unknown),
    }
}

/// Defines the class of this name.
fn fill(
    alloc: Global,
    known: &mut Known,
    word: &Word,
    compact: &Option<Constant>,
    base: &Option<Path>,
    fields: &[Field],
) -> Result<(), AllocError>
    requires there { class_at (known_of known.old) word.now < length known.old.rows.classes }
    requires undefined { is_defined known.old.rows.defined_classes (class_at (known_of known.old) word.now) ≡ false }
    requires fits { ClassFits known.old.rows (base_at (class_named
        (known_of known.old)) base.now) (members_of (known_of known.old) fields.now) }
    requires compact { CompactIdFits known.old.rows (compact_of (known_of known.old) compact.now) }
    ensures { OnOk result (known_of known.new
        ≡ with_class_body (known_of known.old) word.now compact.now base.now (Some fields.now)) }
{
    let members = members_of(alloc, known, fields)?;
    let base = base_at(known, base);
    let compact = compact_of(known, compact);
    let at = place_of(known, word);
    known.rows.define_class(at, base, compact, members);
    Ok(())
}

/// The place of the base, where one is named and means a class.
fn base_at(known: &Known, base: &Option<Path>) -> Option<u32>
    ensures { result ≡ base_at (class_named (known_of known.now)) base.now }
{
    match base {
        Some(path) => class_named(known, path).ok(),
        None => None,
    }
}

/// The compact id, where one is given that is a number.
fn compact_of(known: &Known, compact: &Option<Constant>) -> Option<u32>
    ensures { result ≡ compact_of (known_of known.now) compact.now }
{
    match compact {
        Some(constant) => number_of(known, CheckKind::BadCompactId, constant).ok(),
        None => None,
    }
}

/// The place of the class of this name.
fn place_of(known: &Known, word: &Word) -> u32
    ensures { result ≡ class_at (known_of known.now) word.now }
{
    match standing_here(known, word) {
        Some(standing) => as_class(standing).unwrap_or(0),
        None => 0,
    }
}
