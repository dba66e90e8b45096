//! What is known of a slice by its class or its exception, or by what was kept of it.

ghost use Rattle.std.specs.Prelude.{◌≡◌};
ghost use Rattle.ice_encoding.specs.CanonicalGraph as spec;
ghost use Rattle.graph_arena.specs.Seen.{view_slice};

use graph_arena::Slice;

/// Whether optional members stand in a slice.
pub(crate) fn has_optional(slice: &Slice) -> bool
    ensures { result ≡ spec.has_optional (view_slice slice.now) }
{
    match slice {
        Slice::Known { members, .. } => !members.optional.as_slice().is_empty(),
        Slice::Unknown(kept) => kept.optionals,
    }
}
