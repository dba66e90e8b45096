//! Declarations, one after the other.

ghost use Rattle.std.specs.Prelude.{◌≡◌, None, IfOk};
ghost use Rattle.slice_syntax.specs.Places.{Each, IsRegular};
ghost use Rattle.slice_meaning.specs.Faults.{faults};
ghost use Rattle.slice_meaning.specs.After.{after, after_all};
ghost use Rattle.slice_meaning.specs.Checking.{noted, broken};
ghost use Rattle.slice_faults.specs.Held.{known_of};
ghost use Rattle.slice_faults.specs.Kept.{IsKept};

use crate::classes::class;
use crate::constants::constant;
use crate::containers::{dictionary, sequence};
use crate::enums::enumeration;
use crate::exceptions::exception;
use crate::interfaces::interface;
use crate::known::Known;
use crate::modules::{enter, leave};
use crate::structs::structure;
use slice_meaning::Fault;
use slice_syntax::Item;
use std::alloc::{AllocError, Global};

/// Declares what each item declares, or answers the fault of the first one that has one.
pub(crate) fn declare_all<'a>(
    alloc: Global,
    known: &mut Known<'a>,
    items: &'a [Item],
) -> Result<Option<Fault>, AllocError>
    requires regular { Each IsRegular items.now }
    requires kept { IsKept (known_of known.old) }
    ensures fault { IfOk result (λ fault. fault ≡ broken (known_of known.old) items.now) }
    ensures after { IfOk result (λ fault. fault ≡ None
        → known_of known.new ≡ after_all (known_of known.old) items.now) }
    ensures kept { IfOk result (λ fault. fault ≡ None → IsKept (known_of known.new)) }
{
    for item in items {
        let fault = declare_item(alloc, known, item)?;
        if fault.is_some() {
            return Ok(fault);
        }
    }
    Ok(None)
}

/// Declares what an item declares, or answers its fault.
fn declare_item<'a>(
    alloc: Global,
    known: &mut Known<'a>,
    item: &'a Item,
) -> Result<Option<Fault>, AllocError>
    requires regular { IsRegular item.now }
    requires kept { IsKept (known_of known.old) }
    ensures fault { IfOk result (λ fault. fault ≡ noted None (faults (known_of known.old) item.now)) }
    ensures after { IfOk result (λ fault. fault ≡ None → known_of known.new ≡ after (known_of known.old) item.now) }
{
    match item {
        Item::Enter(word) => enter(alloc, known, word),
        Item::Exit => {
            leave(known);
            Ok(None)
        }
        Item::Const { kind, word, value } => constant(alloc, known, kind, word, value),
        Item::Enum { word, entries } => enumeration(alloc, known, word, entries),
        Item::Struct { word, fields } => structure(alloc, known, word, fields),
        Item::Seq { word, element } => sequence(alloc, known, word, element),
        Item::Dict { word, key, value } => dictionary(alloc, known, word, key, value),
        Item::Class {
            word,
            compact,
            base,
            fields,
        } => class(alloc, known, word, compact, base, fields),
        Item::Exception { word, base, fields } => exception(alloc, known, word, base, fields),
        Item::Interface { word, bases, ops } => interface(alloc, known, word, bases, ops),
    }
}
