//! Keys of dictionaries: how many bytes each has. (Ice manual, "Data Encoding for Dictionaries".)

ghost use Rattle.std.specs.Prelude.{◌≡◌, ◌≤◌, IfSome, length, take};
ghost use Rattle.canonical_values.specs.Standing.{kinds_of};
ghost use Rattle.canonical_values.specs.Keys.{KeyStands, KeysStand, is_simple};

use crate::leaf::leaf_length;
use ice_types::{Member, Schema, TypeRef};

/// How many bytes at the front are those of a key of the type, which nests at most so deep. None where it is not
/// told.
#[cycle(lengths)]
pub(crate) fn key_length(schema: &Schema, levels: u32, kind: TypeRef, bytes: &[u8]) -> Option<usize>
    ensures within { IfSome result (λ n. n ≤ length bytes.now) }
    ensures stands { IfSome result (λ n. KeyStands schema.now levels kind (take n bytes.now)) }
{
    if levels == 0 {
        return None;
    }
    match kind {
        TypeRef::Struct(place) => {
            let decl = schema.structs().get(place as usize)?;
            keys_length(schema, levels - 1, decl.members.as_slice(), bytes)
        }
        _ if is_simple(kind) => leaf_length(schema, kind, bytes),
        _ => None,
    }
}

/// The same of the members of a struct, one after the other.
#[cycle(lengths)]
fn keys_length(schema: &Schema, levels: u32, members: &[Member], bytes: &[u8]) -> Option<usize>
    ensures within { IfSome result (λ n. n ≤ length bytes.now) }
    ensures stands { IfSome result (λ n. KeysStand schema.now levels (kinds_of members.now) (take n bytes.now)) }
{
    let mut at = 0;
    for next in 0..members.len() {
        match key_length(schema, levels, members[next].kind, &bytes[at..]) {
            Some(length) => at += length,
            None => return None,
        }
    }
    Some(at)
}

/// Whether it is a type of keys without parts.
fn is_simple(kind: TypeRef) -> bool
    ensures { result ≡ is_simple kind }
{
    match kind {
        TypeRef::Bool
        | TypeRef::Byte
        | TypeRef::Short
        | TypeRef::Int
        | TypeRef::Long
        | TypeRef::Text
        | TypeRef::Enum(_) => true,
        _ => false,
    }
}
