//! Sequences and dictionaries are declared.

ghost use Rattle.std.specs.Prelude.{◌≡◌, ◌≤◌, None, IfOk};
ghost use Rattle.slice_syntax.specs.declared.tree.Item.TheVariants as items;
ghost use Rattle.slice_syntax.specs.Places.{type_place, IsPlain};
ghost use Rattle.ice_types.specs.declared.schema.TheConstants.{MOST_DEPTH};
ghost use Rattle.slice_meaning.specs.Uses.{type_of};
ghost use Rattle.slice_meaning.specs.Faults.{faults, is_deep, key_faults};
ghost use Rattle.slice_meaning.specs.After.{after};
ghost use Rattle.slice_meaning.specs.Checking.{noted};
ghost use Rattle.slice_faults.specs.Held.{known_of};
ghost use Rattle.slice_faults.specs.Kept.{IsKept};

use crate::fields::note_type;
use crate::ids::new_id;
use crate::known::Known;
use crate::names::{declare, note_new_name};
use crate::room::has_room;
use crate::uses::{kind_of, type_of, type_place};
use ice_types::{DictDecl, MOST_DEPTH, SeqDecl, TypeRef};
use slice_meaning::{CheckKind, Fault, Found, Standing};
use slice_syntax::{TypeWord, Word};
use std::alloc::{AllocError, Global};

/// Declares a sequence, or answers its fault.
pub(crate) fn sequence<'a>(
    alloc: Global,
    known: &mut Known<'a>,
    word: &'a Word,
    element: &TypeWord,
) -> Result<Option<Fault>, AllocError>
    requires plain { IsPlain word.now.name }
    requires kept { IsKept (known_of known.old) }
    ensures fault { IfOk result (λ fault. fault
        ≡ noted None (faults (known_of known.old) (items.Seq word.now element.now))) }
    ensures after { IfOk result (λ fault. fault ≡ None
        → known_of known.new ≡ after (known_of known.old) (items.Seq word.now element.now)) }
{
    let fault = sequence_fault(alloc, known, word, element)?;
    if fault.is_none() {
        has_room(known.rows.seqs().len())?;
        let id = new_id(alloc, known, word)?;
        let element = kind_of(known, element);
        let at = known.rows.add_seq(SeqDecl { id, element })?;
        declare(alloc, known, word, Standing::Type(TypeRef::Seq(at)))?;
    }
    Ok(fault)
}

/// The fault of a sequence.
#[tactic(auto, using(crate::proofs::Noting::joined))]
fn sequence_fault(
    alloc: Global,
    known: &Known,
    word: &Word,
    element: &TypeWord,
) -> Result<Option<Fault>, AllocError>
    ensures { IfOk result (λ fault. fault ≡ noted None (faults (known_of known.now) (items.Seq word.now element.now))) }
{
    let mut found = Found::new();
    note_new_name(alloc, known, word, &mut found)?;
    note_type(known, element, &mut found);
    found.note_where(
        is_deep(known, MOST_DEPTH - 1, element),
        word.place,
        CheckKind::TooDeep,
    );
    Ok(found.first)
}

/// Declares a dictionary, or answers its fault.
pub(crate) fn dictionary<'a>(
    alloc: Global,
    known: &mut Known<'a>,
    word: &'a Word,
    key: &TypeWord,
    value: &TypeWord,
) -> Result<Option<Fault>, AllocError>
    requires plain { IsPlain word.now.name }
    requires kept { IsKept (known_of known.old) }
    ensures fault { IfOk result (λ fault. fault
        ≡ noted None (faults (known_of known.old) (items.Dict word.now key.now value.now))) }
    ensures after { IfOk result (λ fault. fault ≡ None
        → known_of known.new ≡ after (known_of known.old) (items.Dict word.now key.now value.now)) }
{
    let fault = dictionary_fault(alloc, known, word, key, value)?;
    if fault.is_none() {
        has_room(known.rows.dicts().len())?;
        let id = new_id(alloc, known, word)?;
        let key = kind_of(known, key);
        let value = kind_of(known, value);
        let at = known.rows.add_dict(DictDecl { id, key, value })?;
        declare(alloc, known, word, Standing::Type(TypeRef::Dict(at)))?;
    }
    Ok(fault)
}

/// The fault of a dictionary.
#[tactic(auto, using(crate::proofs::Noting::joined))]
fn dictionary_fault(
    alloc: Global,
    known: &Known,
    word: &Word,
    key: &TypeWord,
    value: &TypeWord,
) -> Result<Option<Fault>, AllocError>
    ensures { IfOk result (λ fault. fault
        ≡ noted None (faults (known_of known.now) (items.Dict word.now key.now value.now))) }
{
    let mut found = Found::new();
    note_new_name(alloc, known, word, &mut found)?;
    note_type(known, key, &mut found);
    note_type(known, value, &mut found);
    note_key(known, key, &mut found);
    let deep = is_deep(known, MOST_DEPTH - 2, key) || is_deep(known, MOST_DEPTH - 2, value);
    found.note_where(deep, word.place, CheckKind::TooDeep);
    Ok(found.first)
}

/// Whether a type nests deeper than so many levels.
fn is_deep(known: &Known, levels: u32, word: &TypeWord) -> bool
    requires { levels ≤ MOST_DEPTH }
    ensures { result ≡ is_deep (known_of known.now).tables levels (type_of (known_of known.now) word.now) }
{
    match type_of(known, word) {
        Ok(kind) => known.rows.measure_within(levels, kind).is_none(),
        Err(_) => false,
    }
}

/// Notes a key that may be none.
fn note_key(known: &Known, word: &TypeWord, found: &mut Found)
    ensures { found.new.first
        ≡ noted found.old.first (key_faults (known_of known.now).tables (type_place word.now) (type_of
        (known_of known.now) word.now)) }
{
    if let Ok(kind) = type_of(known, word) {
        let is_no_key = match known.rows.measure_within(MOST_DEPTH, kind) {
            Some(measure) => !measure.is_key,
            None => false,
        };
        found.note_where(is_no_key, type_place(word), CheckKind::BadKey);
    }
}
