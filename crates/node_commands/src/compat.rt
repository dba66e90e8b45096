//! `compat OLD NEW TYPE`: whether what was spelled of a type under one Slice file can be read under another.

ghost use Rattle.std.specs.Prelude.{◌≡◌, ℕ, List, Option, IfOk};
ghost use Rattle.node_commands.specs.Words.{Word, compat as wanted};
ghost use Rattle.node_commands.specs.Outside.{Failures, Files, NoneFailed, counts};
ghost use Rattle.node_commands.specs.Decided.{IsSchema};
ghost use Rattle.node_commands.specs.Outcomes.{Finds, FindsCompat};

use crate::compat_text::compat_text;
use crate::found::Found;
use crate::loading::load_schema;
use crate::outcome::Outcome;
use crate::values::named_type;
use ice_ports::Shelf;
use ice_types::{Schema, TypeRef};
use slice_compat::{Verdict, compatible};
use std::alloc::{AllocError, Global};

/// Whether what was spelled of the type under the old file can be read under the new one, or why neither is told. The
/// old file is loaded first, and its type is looked up first.
pub fn compat<'a, H: Shelf>(
    alloc: Global,
    old: &str,
    new: &str,
    word: &'a str,
    shelf: &mut H,
) -> Result<Found, Outcome<'a>>
    ensures { (input : Option (List ℕ)) (source sink : ℕ)
        → Finds (wanted old.now new.now word.now) (H.files shelf.old) input
        (counts (H.failures shelf.old) source sink)
        (counts (H.failures shelf.new) source sink) result }
{
    let spelled = load_schema(alloc, old, shelf)?;
    let found = behind_old(alloc, &spelled, new, word, shelf);
    drop(spelled);
    found
}

/// The same, once the old file has given its schema.
fn behind_old<'a, H: Shelf>(
    alloc: Global,
    spelled: &Schema,
    new: &str,
    word: &'a str,
    shelf: &mut H,
) -> Result<Found, Outcome<'a>>
    ensures { (old : Word) (files : Option Files) (input : Option (List ℕ)) (before source sink : ℕ)
        → IsSchema files old spelled.now → H.files shelf.old ≡ files → H.failures shelf.old ≡ before
        → Finds (wanted old new.now word.now) files input
        (counts before source sink) (counts (H.failures shelf.new) source sink) result }
{
    let reading = load_schema(alloc, new, shelf)?;
    let found = behind_both(alloc, spelled, &reading, word);
    drop(reading);
    found
}

/// The same, once both files have.
fn behind_both<'a>(
    alloc: Global,
    spelled: &Schema,
    reading: &Schema,
    word: &'a str,
) -> Result<Found, Outcome<'a>>
    ensures { (old new : Word) (files : Option Files) (input : Option (List ℕ)) (before after : Failures)
        → IsSchema files old spelled.now → IsSchema files new reading.now → NoneFailed before after
        → Finds (wanted old new word.now) files input before after result }
{
    let kind = named_type(spelled, word)?;
    let other = named_type(reading, word)?;
    Ok(verdict_on(alloc, spelled, kind, reading, other)?)
}

/// What is to be written of a type of both schemas.
fn verdict_on(
    alloc: Global,
    spelled: &Schema,
    kind: TypeRef,
    reading: &Schema,
    other: TypeRef,
) -> Result<Found, AllocError>
    ensures { IfOk result (FindsCompat spelled.now reading.now kind other) }
{
    reading.rules();
    let verdict = compatible(alloc, spelled, kind, reading, other)?;
    let text = compat_text(alloc, spelled, verdict)?;
    match verdict {
        Verdict::Yes => Ok(Found::Bytes(text)),
        Verdict::NoRoot | Verdict::NoClass { .. } => Ok(Found::Denial(text)),
    }
}
