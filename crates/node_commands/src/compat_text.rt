//! What is written of whether one Slice file reads what was spelled under another.

ghost use Rattle.std.specs.Prelude.{◌≡◌, ◌++◌, IfOk, OnOk, option_copied, slice_get};
ghost use Rattle.node_commands.specs.Compats.{class_words, compat_line, member_words, required_at, tag_is, tagged};
ghost use Rattle.node_commands.specs.Compats.{why_words};

use crate::pieces::put;
use ice_types::{Member, Schema};
use slice_compat::{Verdict, Why};
use std::alloc::{AllocError, Global};

/// `yes`, or `no` and what stands in the way.
pub(crate) fn compat_text(
    alloc: Global,
    schema: &Schema,
    verdict: Verdict,
) -> Result<Vec<u8>, AllocError>
    ensures { IfOk result (λ text. text.items ≡ compat_line schema.now verdict) }
{
    let mut text = Vec::new(alloc);
    match verdict {
        Verdict::Yes => put(&mut text, "yes\n")?,
        Verdict::NoRoot => put(&mut text, "no $value\n")?,
        Verdict::NoClass { class, why } => {
            put(&mut text, "no ")?;
            put_class(&mut text, schema, class, why)?;
            put(&mut text, "\n")?;
        }
    }
    Ok(text)
}

/// The class's type id, and why it cannot be read.
fn put_class(text: &mut Vec<u8>, schema: &Schema, class: u32, why: Why) -> Result<(), AllocError>
    ensures { OnOk result (text.new.items ≡ text.old.items ++ class_words (slice_get schema.now.classes class) why) }
{
    let Some(decl) = schema.classes().get(class as usize) else {
        return Ok(());
    };
    put(text, decl.id.as_str())?;
    put_why(text, decl.members.as_slice(), why)
}

/// Why a class with these members cannot be read.
fn put_why(text: &mut Vec<u8>, members: &[Member], why: Why) -> Result<(), AllocError>
    ensures { OnOk result (text.new.items ≡ text.old.items ++ why_words members.now why) }
{
    match why {
        Why::Missing => put(text, ": missing"),
        Why::Base => put(text, ": base"),
        Why::CompactId => put(text, ": compact id"),
        Why::Members => put(text, ": members"),
        Why::Required(place) => put_member(text, required_at(members, place)),
        Why::Optional(tag) => put_member(text, tagged(members, tag)),
    }
}

/// A `.` and the member's name.
fn put_member(text: &mut Vec<u8>, member: Option<&Member>) -> Result<(), AllocError>
    ensures { OnOk result (text.new.items ≡ text.old.items ++ member_words (option_copied member.entry)) }
{
    let Some(member) = member else {
        return Ok(());
    };
    put(text, ".")?;
    put(text, member.name.as_str())
}

/// The member at a place among those that are always there, from 0.
fn required_at(members: &[Member], place: usize) -> Option<&Member>
    ensures { option_copied result ≡ required_at members.now place }
{
    let mut left = place;
    for member in members {
        if member.tag.is_none() {
            if left == 0 {
                return Some(member);
            }
            left -= 1;
        }
    }
    None
}

/// The member of a tag.
fn tagged(members: &[Member], tag: u32) -> Option<&Member>
    ensures { option_copied result ≡ tagged members.now tag }
{
    members.iter().find(|member| is_tag(member.tag, tag))
}

/// Whether there is a tag, and it is this one.
fn is_tag(own: Option<u32>, tag: u32) -> bool
    ensures { result ≡ tag_is tag own }
{
    own == Some(tag)
}
