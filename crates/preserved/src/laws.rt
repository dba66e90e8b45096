//! What the definitions promise of unknown slices.

ghost use Rattle.std.specs.Prelude.{◌≡◌, ◌++◌, ℕ, Bool, List, Ok};
ghost use Rattle.ice_prims.specs.Rest.{Rest, IsBytes};
ghost use Rattle.ice_encoding.specs.Slices.{unknown_at};
ghost use Rattle.preserved.specs.Unknown.{unknown_part};

/// Bytes come out as they went in: what is written of an unknown slice is what was taken for it, its size and
/// the end marker of optional members among it.
pub fn unknown_slices_unchanged()
    ensures { (flagged : Bool) (bytes : List ℕ) (r after : Rest) → IsBytes r.bytes
        → unknown_at flagged r ≡ Ok (bytes, after)
        → r.bytes ≡ unknown_part flagged bytes ++ after.bytes }
{}
