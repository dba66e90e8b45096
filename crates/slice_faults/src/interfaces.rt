//! Interfaces are declared and defined.

ghost use Rattle.std.specs.Prelude.{ℕ, ◌≡◌, ◌<◌, ◌≤◌, ◌^◌, Bool, false, List, [], ◌∷◌, ◌++◌, length, map, flat_map};
ghost use Rattle.std.specs.Prelude.{None, Some, IfOk, OnOk, nat_lt, sum_by};
ghost use Rattle.slice_syntax.specs.declared.tree.Item.TheVariants as items;
ghost use Rattle.slice_syntax.specs.Places.{HasPlainNames, IsPlain};
ghost use Rattle.ice_types.specs.declared.schema.TheConstants.{MOST_BASES};
ghost use Rattle.ice_types.specs.Tables.{is_defined};
ghost use Rattle.ice_types.specs.Fits.{InterfaceFits};
ghost use Rattle.slice_meaning.specs.Known.{standing_here, with_interface_name};
ghost use Rattle.slice_meaning.specs.Uses.{as_interface, interface_named};
ghost use Rattle.slice_meaning.specs.Clashes.{reopened_name, is_interface};
ghost use Rattle.slice_meaning.specs.Members.{op_faults, op_of, named, with_meaning};
ghost use Rattle.slice_meaning.specs.Faults.{faults, base_count, base_limits, bases_faults, as_interface_base};
ghost use Rattle.slice_meaning.specs.Faults.{with_base, paths_by};
ghost use Rattle.slice_meaning.specs.After.{after, interface_at, with_interface_body};
ghost use Rattle.slice_meaning.specs.Checking.{noted};
ghost use Rattle.slice_faults.specs.Held.{known_of, HoldsNumbers};
ghost use Rattle.slice_faults.specs.Kept.{IsKept};
ghost use Rattle.slice_faults.specs.Sides.{body_faults};

use crate::ids::new_id;
use crate::known::Known;
use crate::named::note_names;
use crate::names::{declare, note_reopened, standing_here};
use crate::note::note_row;
use crate::number_set::NumberSet;
use crate::operations::note_operation;
use crate::room::has_room;
use crate::signatures::operations_of;
use crate::uses::standing;
use ice_types::{List, MOST_BASES};
use slice_meaning::{CheckKind, Fault, Found, Standing, rows_known, sound_fits};
use slice_syntax::{OpTree, Path, Word};
use std::alloc::{AllocError, Global};

/// Declares an interface, and defines it where its operations are told, or answers its fault.
pub(crate) fn interface<'a>(
    alloc: Global,
    known: &mut Known<'a>,
    word: &'a Word,
    bases: &List<Path>,
    ops: &Option<List<OpTree>>,
) -> Result<Option<Fault>, AllocError>
    requires plain { HasPlainNames (items.Interface word.now bases.now ops.now) }
    requires kept { IsKept (known_of known.old) }
    ensures fault { IfOk result (λ fault. fault
        ≡ noted None (faults (known_of known.old) (items.Interface word.now bases.now ops.now))) }
    ensures after { IfOk result (λ fault. fault ≡ None
        → known_of known.new ≡ after (known_of known.old) (items.Interface word.now bases.now ops.now)) }
{
    match ops {
        Some(ops) => defined(alloc, known, word, bases, ops),
        None => declared(alloc, known, word, bases),
    }
}

/// Declares an interface alone, or answers its fault.
fn declared<'a>(
    alloc: Global,
    known: &mut Known<'a>,
    word: &'a Word,
    bases: &List<Path>,
) -> Result<Option<Fault>, AllocError>
    requires plain { HasPlainNames (items.Interface word.now bases.now None) }
    requires kept { IsKept (known_of known.old) }
    ensures fault { IfOk result (λ fault. fault
        ≡ noted None (faults (known_of known.old) (items.Interface word.now bases.now None))) }
    ensures after { IfOk result (λ fault. fault ≡ None
        → known_of known.new ≡ after (known_of known.old) (items.Interface word.now bases.now None)) }
{
    let mut found = Found::new();
    note_name(alloc, known, word, false, &mut found)?;
    put_name(alloc, known, word)?;
    Ok(found.first)
}

/// Defines an interface, which has its name before what it holds is looked at, or answers its fault.
fn defined<'a>(
    alloc: Global,
    known: &mut Known<'a>,
    word: &'a Word,
    bases: &List<Path>,
    ops: &List<OpTree>,
) -> Result<Option<Fault>, AllocError>
    requires plain { HasPlainNames (items.Interface word.now bases.now (Some ops.now)) }
    requires kept { IsKept (known_of known.old) }
    ensures fault { IfOk result (λ fault. fault
        ≡ noted None (faults (known_of known.old) (items.Interface word.now bases.now (Some ops.now)))) }
    ensures after { IfOk result (λ fault. fault ≡ None
        → known_of known.new ≡ after (known_of known.old) (items.Interface word.now bases.now (Some ops.now))) }
{
    rows_known();
    sound_fits();
    let mut found = Found::new();
    note_name(alloc, known, word, true, &mut found)?;
    put_name(alloc, known, word)?;
    note_body(
        alloc,
        known,
        word,
        bases.as_slice(),
        ops.as_slice(),
        &mut found,
    )?;
    if found.first.is_none() {
        fill(alloc, known, word, bases.as_slice(), ops.as_slice())?;
    }
    Ok(found.first)
}

/// Notes the name of an interface where it is taken by something else, or, where the interface is defined now, by one
/// that is defined already.
fn note_name(
    alloc: Global,
    known: &Known,
    word: &Word,
    defines: bool,
    found: &mut Found,
) -> Result<(), AllocError>
    ensures { OnOk result (found.new.first
        ≡ noted found.old.first (reopened_name (known_of known.now) (is_interface
        (known_of known.now) defines) word.now)) }
{
    let again = match standing_here(known, word) {
        Some(standing) => is_interface(known, defines, standing),
        None => false,
    };
    note_reopened(alloc, known, word, again, found)
}

/// Whether an interface may stand there again, with its operations where `defines`.
fn is_interface(known: &Known, defines: bool, standing: Standing) -> bool
    ensures { result ≡ is_interface (known_of known.now) defines standing }
{
    match as_interface(standing) {
        Some(at) => !(defines && known.rows.is_interface_defined(at)),
        None => false,
    }
}

/// Declares the interface, unless something has the name already.
fn put_name<'a>(alloc: Global, known: &mut Known<'a>, word: &'a Word) -> Result<(), AllocError>
    requires plain { IsPlain word.now.name }
    requires kept { IsKept (known_of known.old) }
    ensures named { OnOk result (known_of known.new ≡ with_interface_name (known_of known.old) word.now) }
    ensures undefined { OnOk result (standing_here (known_of known.old) word.now ≡ None
        → is_defined known.new.rows.defined_interfaces (interface_at (known_of known.new) word.now) ≡ false) }
{
    if standing_here(known, word).is_none() {
        has_room(known.rows.interfaces().len())?;
        let id = new_id(alloc, known, word)?;
        let at = known.rows.add_interface(id)?;
        declare(alloc, known, word, Standing::Interface(at))?;
    }
    Ok(())
}

/// Defines the interface of this name.
fn fill(
    alloc: Global,
    known: &mut Known,
    word: &Word,
    bases: &[Path],
    ops: &[OpTree],
) -> Result<(), AllocError>
    requires there { interface_at (known_of known.old) word.now < length known.old.rows.interfaces }
    requires undefined { is_defined known.old.rows.defined_interfaces (interface_at (known_of known.old) word.now)
        ≡ false }
    requires fits { InterfaceFits known.old.rows (named (interface_named
        (known_of known.old)) bases.now) (map (op_of (known_of known.old)) ops.now) }
    ensures { OnOk result (known_of known.new
        ≡ with_interface_body (known_of known.old) word.now bases.now (Some ops.now)) }
{
    let bases = bases_of(alloc, known, bases)?;
    let ops = operations_of(alloc, known, ops)?;
    let at = place_of(known, word);
    known.rows.define_interface(at, bases, ops);
    Ok(())
}

/// The interfaces that names mean.
fn bases_of(alloc: Global, known: &Known, paths: &[Path]) -> Result<List<u32>, AllocError>
    ensures { IfOk result (λ places. places ≡ named (interface_named (known_of known.now)) paths.now) }
{
    let mut places = List::new(alloc);
    for path in paths {
        add_base(known, path, &mut places)?;
    }
    Ok(places)
}

/// Puts the interface that a name means last, where it means one.
fn add_base(known: &Known, path: &Path, places: &mut List<u32>) -> Result<(), AllocError>
    ensures { OnOk result (places.new ≡ places.old ++ with_meaning (interface_named (known_of known.now) path.now) []) }
{
    match interface_named(known, path) {
        Ok(at) => places.push(at),
        Err(_) => Ok(()),
    }
}

/// The place of the interface of this name.
fn place_of(known: &Known, word: &Word) -> u32
    ensures { result ≡ interface_at (known_of known.now) word.now }
{
    match standing_here(known, word) {
        Some(standing) => as_interface(standing).unwrap_or(0),
        None => 0,
    }
}

/// Notes what is wrong with what an interface holds.
#[tactic(auto, using(crate::proofs::Noting::joined))]
fn note_body(
    alloc: Global,
    known: &Known,
    word: &Word,
    bases: &[Path],
    ops: &[OpTree],
    found: &mut Found,
) -> Result<(), AllocError>
    ensures { OnOk result (found.new.first
        ≡ noted found.old.first (body_faults (known_of known.now) word.now bases.now ops.now)) }
{
    note_limits(known, word, bases, found);
    note_bases(alloc, known, bases, found)?;
    note_operations(alloc, known, ops, found)?;
    note_names(alloc, ops, found)
}

/// Notes bases that, counted by the paths that lead to them, are too many.
fn note_limits(known: &Known, word: &Word, bases: &[Path], found: &mut Found)
    ensures { found.new.first ≡ noted found.old.first (base_limits (known_of known.now) word.now bases.now) }
{
    found.note_where(has_too_many(known, bases), word.place, CheckKind::TooBig);
}

/// Whether bases, counted by the paths that lead to them, are too many.
fn has_too_many(known: &Known, bases: &[Path]) -> bool
    ensures { result ≡ nat_lt MOST_BASES (sum_by (base_count (known_of known.now)) bases.now) }
{
    let most = u64::from(MOST_BASES);
    let mut count = 0;
    for path in bases {
        count = (count + base_count(known, path)).min(most + 1);
    }
    count > most
}

/// How many bases a named one adds.
fn base_count(known: &Known, path: &Path) -> u64
    ensures is { result ≡ base_count (known_of known.now) path.now }
    ensures most { result ≤ 2 ^ 32 }
{
    match interface_named(known, path) {
        Ok(at) => u64::from(known.rows.paths(at)) + 1,
        Err(_) => 0,
    }
}

/// Notes what is wrong with bases.
fn note_bases(
    alloc: Global,
    known: &Known,
    bases: &[Path],
    found: &mut Found,
) -> Result<(), AllocError>
    ensures { OnOk result (found.new.first ≡ noted found.old.first (bases_faults (known_of known.now) [] bases.now)) }
{
    let mut before = NumberSet::new(alloc);
    for path in bases {
        note_base(known, path, &mut before, found)?;
    }
    Ok(())
}

/// Puts a base among those before it, and notes one that is no interface, not defined yet, or named twice.
fn note_base(
    known: &Known,
    path: &Path,
    before: &mut NumberSet,
    found: &mut Found,
) -> Result<(), AllocError>
    ensures found { (ns : List ℕ) → HoldsNumbers before.old.numbers ns
        → OnOk result (found.new.first
        ≡ noted found.old.first (as_interface_base (known_of known.now) ns path.now.place (interface_named
        (known_of known.now) path.now))) }
    ensures held { (ns : List ℕ) → HoldsNumbers before.old.numbers ns
        → OnOk result (HoldsNumbers before.new.numbers (with_base ns (interface_named (known_of known.now) path.now))) }
{
    match interface_named(known, path) {
        Ok(at) => {
            let is_new = before.numbers.insert(at)?;
            let is_bad = !known.rows.is_interface_defined(at) || !is_new;
            found.note_where(is_bad, path.place, CheckKind::BadBase);
        }
        Err(row) => found.note_where(true, path.place, row),
    }
    Ok(())
}

/// The interface that a name means, or the row that applies to it.
fn interface_named(known: &Known, path: &Path) -> Result<u32, CheckKind>
    ensures { result ≡ interface_named (known_of known.now) path.now }
{
    match standing(known, path) {
        Some(standing) => as_interface(standing).ok_or(CheckKind::WrongUse),
        None => Err(CheckKind::Unknown),
    }
}

/// The place of an interface.
fn as_interface(standing: Standing) -> Option<u32>
    ensures { result ≡ as_interface standing }
{
    match standing {
        Standing::Interface(at) => Some(at),
        _ => None,
    }
}

/// Notes what is wrong with operations.
fn note_operations(
    alloc: Global,
    known: &Known,
    ops: &[OpTree],
    found: &mut Found,
) -> Result<(), AllocError>
    ensures { OnOk result (found.new.first
        ≡ noted found.old.first (flat_map (op_faults (known_of known.now)) ops.now)) }
{
    for op in ops {
        note_operation(alloc, known, op, found)?;
    }
    Ok(())
}
