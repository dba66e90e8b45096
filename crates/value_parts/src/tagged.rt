//! Which member has a tag.

ghost use Rattle.std.specs.Prelude.{◌≡◌};
ghost use Rattle.ice_encoding.specs.Optionals.{kind_tagged};
ghost use Rattle.value_parts.specs.Shapes.{with_tag};

use ice_types::{Member, TypeRef};

/// The type of the member with this tag, None where there is none. Members without a tag are not
/// looked at.
pub fn kind_tagged(members: &[Member], tag: u32) -> Option<TypeRef>
    ensures among_all { result ≡ kind_tagged tag members.now }
    ensures among_tagged { result ≡ kind_tagged tag (with_tag members.now) }
{
    for member in members {
        if member.tag == Some(tag) {
            return Some(member.kind);
        }
    }
    None
}
