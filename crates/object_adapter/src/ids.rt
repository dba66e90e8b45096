//! The ids of an object. (Ice manual, "The Object Base Interface".)

ghost use Rattle.std.specs.Prelude.{◌≡◌, ◌<◌, ◌+◌, ◌++◌, ℕ, List, length, map, IfOk, OnOk, true};
ghost use Rattle.std.specs.Prelude.{bytes_eq, string_bytes, if◌then◌else◌};
ghost use Rattle.std.specs.List.{flat_map};
ghost use Rattle.ice_prims.specs.Bytes.{text_bytes};
ghost use Rattle.object_adapter.specs.declared.refusal.Refusal.TheVariants as refusals;
ghost use Rattle.object_adapter.specs.declared.refusal.TheConstants.{LONGEST};
ghost use Rattle.object_adapter.specs.Refusals.{Outcome};
ghost use Rattle.object_adapter.specs.Own.{AreIds, texts_bytes};
ghost use Rattle.std.specs.BTreeSet.{contains_text};
ghost use Rattle.object_adapter.specs.Ids.{HoldsBefore, HoldsIds};

use crate::own::id_of;
use crate::refusal::{LONGEST, Refusal, Unanswered};
use ice_prims::{put_size, put_str};
use ice_types::Schema;
use std::alloc::{AllocError, Global};
use std::collections::BTreeSet;

/// The content of results that are the ids of an object of the interface, where it is not longer than
/// results may be.
pub(crate) fn ids_content(
    alloc: Global,
    schema: &Schema,
    interface: u32,
) -> Result<Vec<u8>, Unanswered>
    ensures { Outcome
        (λ content. (ids : List (List ℕ)) × AreIds schema.now interface ids × (content.items ≡ texts_bytes ids))
        (λ refusal. (refusal ≡ refusals.TooLong)
        × (ids : List (List ℕ)) × AreIds schema.now interface ids × (LONGEST < length (texts_bytes ids))) result }
{
    let ids = ids_of(alloc, schema, interface)?;
    if ids.len() > LONGEST as usize {
        return Err(Unanswered::Refused(Refusal::TooLong));
    }
    let mut out = Vec::new(alloc);
    put_size(&mut out, ids.len() as u32)?;
    match put_texts(&mut out, ids) {
        Ok(()) => Ok(out),
        Err(Unanswered::Refused(refusal)) => Err(Unanswered::Refused(refusal)),
        Err(Unanswered::Memory) => Err(Unanswered::Memory),
    }
}

/// Puts texts at the end of the output, where none is longer than results may be. A refusal may leave some.
fn put_texts(out: &mut Vec<u8>, mut texts: BTreeSet<String>) -> Result<(), Unanswered>
    ensures { Outcome (λ done. out.new.items ≡ out.old.items ++ flat_map text_bytes (map string_bytes texts.keys))
        (λ refusal. (refusal ≡ refusals.TooLong)
        × (LONGEST < length (flat_map text_bytes (map string_bytes texts.keys)))) result }
{
    while let Some(text) = texts.pop_first() {
        if text.len() > LONGEST as usize {
            return Err(Unanswered::Refused(Refusal::TooLong));
        }
        put_str(out, text.as_str())?;
    }
    Ok(())
}

/// The ids of an object of the interface: its own, those of all its bases, and that of `Object`.
pub(crate) fn ids_of(
    alloc: Global,
    schema: &Schema,
    interface: u32,
) -> Result<BTreeSet<String>, AllocError>
    ensures { IfOk result (λ ids. HoldsIds schema.now interface ids) }
{
    schema.rules();
    let mut ids = BTreeSet::new(alloc);
    insert(alloc, &mut ids, "::Ice::Object")?;
    for at in 0..schema.interfaces().len() as u32 {
        take(alloc, schema, interface, at, &mut ids)?;
    }
    Ok(ids)
}

/// Adds the id of the interface at this place, where that is the interface or one of its bases.
fn take(
    alloc: Global,
    schema: &Schema,
    interface: u32,
    at: u32,
    ids: &mut BTreeSet<String>,
) -> Result<(), AllocError>
    requires { at < length schema.now.interfaces }
    ensures { OnOk result
        (HoldsBefore schema.now interface at ids.old → HoldsBefore schema.now interface (at + 1) ids.new) }
{
    if schema.interface_is_a(interface, at) {
        insert(alloc, ids, id_of(schema, at))?;
        return Ok(());
    }
    Ok(())
}

/// Adds an id to the set.
fn insert(alloc: Global, ids: &mut BTreeSet<String>, id: &str) -> Result<(), AllocError>
    ensures { OnOk result ((other : List ℕ) →
        contains_text ids.new other ≡ (if bytes_eq id.now other then true else contains_text ids.old other)) }
{
    ids.insert(String::from_str(alloc, id)?)?;
    Ok(())
}
