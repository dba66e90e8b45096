//! Members as a call writes them: those that are required, then the optional ones by rising tag.

ghost use Rattle.std.specs.Prelude.{◌≡◌, ◌++◌, [], ◌∷◌, cond, map, IfOk, OnOk};
ghost use Rattle.std.specs.Option.{is_none};
ghost use Rattle.std.specs.Map.{values_of};
ghost use Rattle.slice_meaning.specs.Members.{shape};
ghost use Rattle.slice_faults.specs.Sides.{put_in};

use ice_types::{List, Member, Shape};
use std::alloc::{AllocError, Global};
use std::collections::BTreeMap;

/// The shape of these members.
pub(crate) fn shape(alloc: Global, members: List<Member>) -> Result<Shape, AllocError>
    ensures { IfOk result (λ made. made ≡ shape members) }
{
    let total = members.len();
    let mut members = members;
    let mut required = Vec::new(alloc);
    let mut optional = BTreeMap::new(alloc);
    while let Some(member) = members.pop() {
        let behind = total - members.len();
        take(member, behind, &mut required, &mut optional)?;
    }
    required.reverse();
    let optional = rising(alloc, optional)?;
    Ok(Shape {
        required: List::from_vec(required),
        optional,
    })
}

/// Puts a member among the required ones, or among the optional ones after those of its tag.
fn take(
    member: Member,
    behind: usize,
    required: &mut Vec<Member>,
    optional: &mut BTreeMap<(u32, usize), Member>,
) -> Result<(), AllocError>
    ensures required { OnOk result (required.new.items
        ≡ cond (is_none member.tag) (required.old.items ++ member ∷ []) required.old.items) }
    ensures optional { OnOk result (optional.new.entries ≡ put_in optional.old.entries behind member) }
{
    match member.tag {
        Some(tag) => {
            optional.insert((tag, behind), member)?;
        }
        None => required.push(member)?,
    }
    Ok(())
}

/// The members of a map, by their keys.
fn rising(
    alloc: Global,
    optional: BTreeMap<(u32, usize), Member>,
) -> Result<List<Member>, AllocError>
    ensures { IfOk result (λ members. members ≡ values_of optional.entries) }
{
    let mut optional = optional;
    let mut members = List::new(alloc);
    while let Some((_, member)) = optional.pop_first() {
        members.push(member)?;
    }
    Ok(members)
}
