//! Enums are declared.

ghost use Rattle.std.specs.Prelude.{◌≡◌, ◌≤◌, ◌++◌, length, [], None, IfOk, OnOk};
ghost use Rattle.slice_syntax.specs.declared.tree.Item.TheVariants as items;
ghost use Rattle.slice_syntax.specs.Places.{IsPlain};
ghost use Rattle.slice_meaning.specs.Members.{entry_number, entry_place, after_entry, entry_faults, entries_of};
ghost use Rattle.slice_meaning.specs.Faults.{faults};
ghost use Rattle.slice_meaning.specs.After.{after, with_entries};
ghost use Rattle.slice_meaning.specs.Checking.{noted};
ghost use Rattle.slice_meaning.specs.Numbers.{scope_at};
ghost use Rattle.ice_types.specs.declared.schema.TheConstants.{MOST_NUMBER};
ghost use Rattle.slice_faults.specs.Held.{known_of, entry_rows, AreFree};
ghost use Rattle.slice_faults.specs.Kept.{IsKept};

use crate::enumerators::add_enum;
use crate::ids::new_id;
use crate::known::Known;
use crate::named::note_names;
use crate::names::{declare, note_new_name};
use crate::note::note_none;
use crate::number_set::NumberSet;
use crate::room::has_room;
use crate::values::number_of;
use ice_types::{Entry, EnumDecl, List, MOST_NUMBER, Name, TypeRef};
use slice_meaning::{CheckKind, Fault, Found, Scopes, Standing, Value};
use slice_syntax::{Constant, Word};
use std::alloc::{AllocError, Global};

/// Declares an enum with its enumerators, or answers its fault.
pub(crate) fn enumeration<'a>(
    alloc: Global,
    known: &mut Known<'a>,
    word: &'a Word,
    entries: &'a List<(Word, Option<Constant>)>,
) -> Result<Option<Fault>, AllocError>
    requires plain { IsPlain word.now.name }
    requires kept { IsKept (known_of known.old) }
    ensures fault { IfOk result (λ fault. fault
        ≡ noted None (faults (known_of known.old) (items.Enum word.now entries.now))) }
    ensures after { IfOk result (λ fault. fault ≡ None
        → known_of known.new ≡ after (known_of known.old) (items.Enum word.now entries.now)) }
{
    let mut found = Found::new();
    let rows = note_enum(alloc, known, word, entries, &mut found)?;
    let fault = found.first;
    if fault.is_none() {
        has_room(known.rows.enums().len())?;
        let id = new_id(alloc, known, word)?;
        let decl = EnumDecl { id, entries: rows };
        let at = add_enum(alloc, &mut known.rows, &mut known.enumerators, decl)?;
        declare(alloc, known, word, Standing::Type(TypeRef::Enum(at)))?;
        declare_inside(alloc, known, at, entries.as_slice())?;
    }
    Ok(fault)
}

/// Notes what is wrong with an enum, and answers the entries of its row.
#[tactic(auto, using(crate::proofs::Noting::joined))]
fn note_enum(
    alloc: Global,
    known: &Known,
    word: &Word,
    entries: &List<(Word, Option<Constant>)>,
    found: &mut Found,
) -> Result<List<Entry>, AllocError>
    ensures found { OnOk result (found.new.first
        ≡ noted found.old.first (faults (known_of known.now) (items.Enum word.now entries.now))) }
    ensures rows { IfOk result (λ rows. rows ≡ entries_of (known_of known.now) 0 entries.now) }
{
    note_new_name(alloc, known, word, found)?;
    note_none(entries, word, found);
    let rows = note_entries(alloc, known, entries.as_slice(), found)?;
    note_names(alloc, entries.as_slice(), found)?;
    Ok(rows)
}

/// Notes what is wrong with the numbers of entries, and answers the entries that have one.
fn note_entries(
    alloc: Global,
    known: &Known,
    entries: &[(Word, Option<Constant>)],
    found: &mut Found,
) -> Result<List<Entry>, AllocError>
    ensures found { OnOk result (found.new.first
        ≡ noted found.old.first (entry_faults (known_of known.now) 0 [] entries.now)) }
    ensures rows { IfOk result (λ rows. rows ≡ entries_of (known_of known.now) 0 entries.now) }
{
    let mut rows = List::new(alloc);
    let mut numbers = NumberSet::new(alloc);
    let mut next = 0;
    for entry in entries {
        let number = entry_number(known, next, &entry.1);
        numbers.take(number, CheckKind::BadValue, entry_place(entry), found)?;
        add_entry(alloc, &entry.0, number, &mut rows)?;
        next = after_entry(next, number);
    }
    Ok(rows)
}

/// The number of an entry, where the next one is known, or the row that applies.
fn entry_number(known: &Known, next: u32, value: &Option<Constant>) -> Result<u32, CheckKind>
    ensures is { result ≡ entry_number (known_of known.now) next value.now }
    ensures most { IfOk result (λ n. n ≤ MOST_NUMBER) }
{
    match value {
        None => {
            if next <= MOST_NUMBER {
                Ok(next)
            } else {
                Err(CheckKind::BadValue)
            }
        }
        Some(value) => number_of(known, CheckKind::BadValue, value),
    }
}

/// Where the number of an entry stands: its value, or its name.
fn entry_place(entry: &(Word, Option<Constant>)) -> u32
    ensures { result ≡ entry_place entry.now.0 entry.now.1 }
{
    match &entry.1 {
        None => entry.0.place,
        Some(value) => value.place,
    }
}

/// The number of the next entry behind one.
fn after_entry(next: u32, number: Result<u32, CheckKind>) -> u32
    requires { IfOk number (λ n. n ≤ MOST_NUMBER) }
    ensures { result ≡ after_entry next number }
{
    match number {
        Ok(number) => number + 1,
        Err(_) => next,
    }
}

/// Puts an entry last, where it has a number.
fn add_entry(
    alloc: Global,
    word: &Word,
    number: Result<u32, CheckKind>,
    rows: &mut List<Entry>,
) -> Result<(), AllocError>
    ensures { OnOk result (rows.new ≡ rows.old ++ entry_rows word.now number) }
{
    if let Ok(number) = number {
        let name = Name::of(alloc, word.name.as_str())?;
        rows.push(Entry { name, number })?;
    }
    Ok(())
}

/// Declares the enumerators of the enum at a place inside the newest declaration, which is that of the enum.
fn declare_inside<'a>(
    alloc: Global,
    known: &mut Known<'a>,
    at: u32,
    entries: &'a [(Word, Option<Constant>)],
) -> Result<(), AllocError>
    requires { AreFree known.old.file at (scope_at known.old.names
        (length known.old.names)) entries.now known.old.names }
    ensures { OnOk result (known_of known.new
        ≡ record (known_of known.old) {
          declared = with_entries known.old.file at (scope_at known.old.names
              (length known.old.names)) entries.now known.old.names;
        }) }
{
    let inside = known.names.len();
    let file = known.file;
    declare_entries(alloc, &mut known.names, inside, file, at, entries)
}

/// Declares the enumerators of the enum at a place, in the scope inside it, which is free of their names.
fn declare_entries<'a>(
    alloc: Global,
    names: &mut Scopes<'a>,
    inside: usize,
    file: u32,
    at: u32,
    entries: &'a [(Word, Option<Constant>)],
) -> Result<(), AllocError>
    requires within { inside ≤ length names.old }
    requires free { AreFree file at (scope_at names.old inside) entries.now names.old }
    ensures names { OnOk result (names.new ≡ with_entries file at (scope_at names.old inside) entries.now names.old) }
    ensures longer { length names.old ≤ length names.new }
{
    for entry in entries {
        names.declare(
            alloc,
            inside,
            entry.0.name.as_str(),
            Standing::Value(Value::Enumerator(at)),
            file,
            entry.0.place,
        )?;
    }
    Ok(())
}
