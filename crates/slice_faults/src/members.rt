//! What members become.

ghost use Rattle.std.specs.Prelude.{◌≡◌, [], ◌++◌, IfOk, OnOk};
ghost use Rattle.slice_meaning.specs.Uses.{type_of};
ghost use Rattle.slice_meaning.specs.Members.{tag_of, with_field, members_of};
ghost use Rattle.slice_faults.specs.Held.{known_of};

use crate::known::Known;
use crate::uses::type_of;
use crate::values::number_of;
use ice_types::{List, Member, Name};
use slice_meaning::CheckKind;
use slice_syntax::{Constant, Field};
use std::alloc::{AllocError, Global};

/// The members whose types have no fault.
pub(crate) fn members_of(
    alloc: Global,
    known: &Known,
    fields: &[Field],
) -> Result<List<Member>, AllocError>
    ensures { IfOk result (λ members. members ≡ members_of (known_of known.now) fields.now) }
{
    let mut members = List::new(alloc);
    for field in fields {
        add_member(alloc, known, field, &mut members)?;
    }
    Ok(members)
}

/// Puts a member last, where its type has no fault.
pub(crate) fn add_member(
    alloc: Global,
    known: &Known,
    field: &Field,
    members: &mut List<Member>,
) -> Result<(), AllocError>
    ensures { OnOk result (members.new
        ≡ members.old ++ with_field (known_of known.now) field.now (type_of (known_of known.now) field.now.kind) []) }
{
    if let Ok(kind) = type_of(known, &field.kind) {
        let name = Name::of(alloc, field.word.name.as_str())?;
        let tag = tag_of(known, &field.tag);
        members.push(Member { name, kind, tag })?;
    }
    Ok(())
}

/// The tag of a member, where it has one without a fault.
pub(crate) fn tag_of(known: &Known, tag: &Option<Constant>) -> Option<u32>
    ensures { result ≡ tag_of (known_of known.now) tag.now }
{
    match tag {
        Some(tag) => number_of(known, CheckKind::BadTag, tag).ok(),
        None => None,
    }
}
