//! Values without parts.

ghost use Rattle.std.specs.Prelude.{◌≡◌, ◌≤◌, IfSome, length, take};
ghost use Rattle.canonical_values.specs.Standing.{number_length, is_leaf, LeafStands};

use crate::front::{bool_length, size_front, text_length};
use ice_types::{Schema, TypeRef};
use value_parts::has_number;

/// Whether a value of the type has no parts.
pub(crate) fn is_leaf(kind: TypeRef) -> bool
    ensures { result ≡ is_leaf kind }
{
    !matches!(
        kind,
        TypeRef::Seq(_) | TypeRef::Dict(_) | TypeRef::Struct(_)
    )
}

/// How many bytes each value of a type of numbers has. None for every other type.
pub(crate) fn number_length(kind: TypeRef) -> Option<usize>
    ensures { result ≡ number_length kind }
{
    match kind {
        TypeRef::Byte => Some(1),
        TypeRef::Short => Some(2),
        TypeRef::Int => Some(4),
        TypeRef::Long => Some(8),
        _ => None,
    }
}

/// How many bytes at the front are those that are put for a value without parts. None where it is not told.
pub(crate) fn leaf_length(schema: &Schema, kind: TypeRef, bytes: &[u8]) -> Option<usize>
    ensures within { IfSome result (λ n. n ≤ length bytes.now) }
    ensures stands { IfSome result (λ n. LeafStands schema.now kind (take n bytes.now)) }
{
    match number_length(kind) {
        Some(length) => {
            if bytes.len() < length {
                return None;
            }
            Some(length)
        }
        None => other_length(schema, kind, bytes),
    }
}

/// The same of a value that is no number.
fn other_length(schema: &Schema, kind: TypeRef, bytes: &[u8]) -> Option<usize>
    ensures within { IfSome result (λ n. n ≤ length bytes.now) }
    ensures stands { IfSome result (λ n. LeafStands schema.now kind (take n bytes.now)) }
{
    match kind {
        TypeRef::Bool => bool_length(bytes),
        TypeRef::Text => text_length(bytes),
        TypeRef::Enum(at) => {
            let decl = schema.enums().get(at as usize)?;
            match size_front(bytes) {
                Some((number, taken)) if has_number(decl.entries.as_slice(), number) => Some(taken),
                _ => None,
            }
        }
        TypeRef::Class(_) => match size_front(bytes) {
            Some((0, taken)) => Some(taken),
            _ => None,
        },
        _ => None,
    }
}
