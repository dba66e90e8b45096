//! Structs are declared.

ghost use Rattle.std.specs.Prelude.{ℕ, ◌≡◌, ◌-◌, None, IfOk};
ghost use Rattle.slice_syntax.specs.declared.tree.Item.TheVariants as items;
ghost use Rattle.slice_syntax.specs.Places.{Each, IsPlain};
ghost use Rattle.ice_types.specs.declared.schema.TheConstants.{MOST_DEPTH};
ghost use Rattle.ice_types.specs.Measures.{measure, measure_members};
ghost use Rattle.slice_meaning.specs.Members.{members_of};
ghost use Rattle.slice_meaning.specs.Faults.{faults, struct_limits};
ghost use Rattle.slice_meaning.specs.After.{after};
ghost use Rattle.slice_meaning.specs.Checking.{noted};
ghost use Rattle.slice_faults.specs.Held.{known_of, where_row};
ghost use Rattle.slice_faults.specs.Kept.{IsKept};

use crate::fields::note_fields;
use crate::ids::new_id;
use crate::known::Known;
use crate::members::members_of;
use crate::names::{declare, note_new_name};
use crate::note::{note_none, note_row};
use crate::room::has_room;
use ice_types::{List, MOST_DEPTH, MOST_SMALLEST, Member, StructDecl, TypeRef};
use slice_meaning::{CheckKind, Fault, Found, Standing};
use slice_syntax::{Field, Word};
use std::alloc::{AllocError, Global};

/// Declares a struct, or answers its fault.
pub(crate) fn structure<'a>(
    alloc: Global,
    known: &mut Known<'a>,
    word: &'a Word,
    fields: &List<Field>,
) -> Result<Option<Fault>, AllocError>
    requires plain { IsPlain word.now.name }
    requires no_tags { Each (λ f. f.tag ≡ None) fields.now }
    requires kept { IsKept (known_of known.old) }
    ensures fault { IfOk result (λ fault. fault
        ≡ noted None (faults (known_of known.old) (items.Struct word.now fields.now))) }
    ensures after { IfOk result (λ fault. fault ≡ None
        → known_of known.new ≡ after (known_of known.old) (items.Struct word.now fields.now)) }
{
    let members = members_of(alloc, known, fields.as_slice())?;
    let fault = struct_fault(alloc, known, word, fields, members.as_slice())?;
    if fault.is_none() {
        has_room(known.rows.structs().len())?;
        let id = new_id(alloc, known, word)?;
        let at = known.rows.add_struct(StructDecl { id, members })?;
        declare(alloc, known, word, Standing::Type(TypeRef::Struct(at)))?;
    }
    Ok(fault)
}

/// The fault of a struct of these members.
#[tactic(auto, using(crate::proofs::Noting::joined))]
fn struct_fault(
    alloc: Global,
    known: &Known,
    word: &Word,
    fields: &List<Field>,
    members: &[Member],
) -> Result<Option<Fault>, AllocError>
    requires { members.now ≡ members_of (known_of known.now) fields.now }
    ensures { IfOk result (λ fault. fault
        ≡ noted None (faults (known_of known.now) (items.Struct word.now fields.now))) }
{
    let mut found = Found::new();
    note_new_name(alloc, known, word, &mut found)?;
    note_none(fields, word, &mut found);
    note_limits(known, word.place, members, &mut found);
    note_fields(alloc, known, fields.as_slice(), &mut found)?;
    Ok(found.first)
}

/// Notes members that nest too deep, or whose smallest spellings together are too long.
fn note_limits(known: &Known, place: u32, members: &[Member], found: &mut Found)
    ensures { found.new.first
        ≡ noted found.old.first (struct_limits place (measure_members (measure
        (known_of known.now).tables (MOST_DEPTH - 1)) members.now)) }
{
    note_row(limit(known, members), place, found);
}

/// The row that applies to members that nest too deep, or whose smallest spellings together are too long.
fn limit(known: &Known, members: &[Member]) -> Option<CheckKind>
    ensures { (place : ℕ)
        → where_row place result
        ≡ struct_limits place (measure_members (measure (known_of known.now).tables (MOST_DEPTH - 1)) members.now) }
{
    let most = u64::from(MOST_SMALLEST);
    let mut smallest = 0;
    for member in members {
        match known.rows.measure_within(MOST_DEPTH - 1, member.kind) {
            Some(measure) => smallest = (smallest + u64::from(measure.smallest)).min(most + 1),
            None => return Some(CheckKind::TooDeep),
        }
    }
    if smallest > most {
        Some(CheckKind::TooBig)
    } else {
        None
    }
}
