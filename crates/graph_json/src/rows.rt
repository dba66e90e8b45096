//! The values of members at their names, in rising order of the names.

ghost use Rattle.std.specs.Prelude.{◌≡◌, OnOk, option_map};
ghost use Rattle.serde_json.specs.Data.{put};
ghost use Rattle.ice_types.specs.declared.kind.TypeRef.{TypeRef as Kind};
ghost use Rattle.graph_arena.specs.View.{view, view_all};
ghost use Rattle.graph_arena.specs.Seen.{view_present};
ghost use Rattle.value_parts.specs.Shapes.{with_tag, without_tag};
ghost use Rattle.graph_json.specs.CanonicalValues.{Write, members_noted};
ghost use Rattle.graph_json.specs.Contents as spec;
ghost use Rattle.graph_json.specs.Contents.{options_noted};
ghost use Rattle.graph_json.specs.Printing.{row_noted};

use graph_arena::Value;
use ice_types::{Member, TypeRef};
use std::alloc::AllocError;
use std::collections::BTreeMap;

/// The type of a member and its value.
#[derive(Clone, Copy)]
pub(crate) struct Field<'a> {
    pub(crate) kind: TypeRef,
    pub(crate) value: &'a Value,
}

/// The fields of an object by name. Of a name that comes twice the last one stays.
pub(crate) type Row<'a> = BTreeMap<&'a str, Field<'a>>;

/// Puts the values of the members at their names.
pub(crate) fn put_members<'a>(
    row: &mut Row<'a>,
    members: &'a [Member],
    values: &'a [Value],
) -> Result<(), AllocError>
    ensures { (write : Kind → Write) → OnOk result (row_noted write row.new.entries
        ≡ members_noted write (row_noted write row.old.entries) members.now (view_all values.now)) }
{
    for (at, member) in members.iter().enumerate() {
        let Some(value) = values.get(at) else {
            return Ok(());
        };
        put_field(row, member, value)?;
    }
    Ok(())
}

/// Puts the values of the members without a tag at their names.
pub(crate) fn put_required<'a>(
    row: &mut Row<'a>,
    members: &'a [Member],
    values: &'a [Value],
) -> Result<(), AllocError>
    ensures { (write : Kind → Write) → OnOk result (row_noted write row.new.entries
        ≡ members_noted write (row_noted write row.old.entries) (without_tag members.now) (view_all values.now)) }
{
    let mut at = 0;
    for member in members {
        if member.tag.is_some() {
            continue;
        }
        let Some(value) = values.get(at) else {
            return Ok(());
        };
        put_field(row, member, value)?;
        at += 1;
    }
    Ok(())
}

/// Puts the values of optional members at the names of the members that have their tags.
pub(crate) fn put_optional<'a>(
    row: &mut Row<'a>,
    members: &'a [Member],
    options: &'a [(u32, Value)],
) -> Result<(), AllocError>
    ensures { (write : Kind → Write) → OnOk result (row_noted write row.new.entries
        ≡ options_noted write (row_noted write row.old.entries) (with_tag members.now) (view_present options.now)) }
{
    for option in options {
        put_option(row, members, option)?;
    }
    Ok(())
}

fn put_option<'a>(
    row: &mut Row<'a>,
    members: &'a [Member],
    option: &'a (u32, Value),
) -> Result<(), AllocError>
    ensures { (write : Kind → Write) → OnOk result (row_noted write row.new.entries
        ≡ spec.put_member write (spec.member_tagged option.now.0 (with_tag members.now)) (view option.now.1)
        (row_noted write row.old.entries)) }
{
    match member_tagged(members, option.0) {
        Some(member) => put_field(row, member, &option.1),
        None => Ok(()),
    }
}

/// Puts a value at its member's name.
fn put_field<'a>(row: &mut Row<'a>, member: &'a Member, value: &'a Value) -> Result<(), AllocError>
    ensures { (write : Kind → Write) → OnOk result (row_noted write row.new.entries
        ≡ put member.now.name (write member.now.kind (view value.now)) (row_noted write row.old.entries)) }
{
    let kind = member.kind;
    row.insert(member.name.as_str(), Field { kind, value })?;
    Ok(())
}

/// The member with this tag, None where there is none.
fn member_tagged(members: &[Member], tag: u32) -> Option<&Member>
    ensures { option_map (λ m. m.now) result ≡ spec.member_tagged tag (with_tag members.now) }
{
    for member in members {
        if member.tag == Some(tag) {
            return Some(member);
        }
    }
    None
}
