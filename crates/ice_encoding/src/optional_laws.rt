//! What the definitions promise of each other, one law a function. References stand as numbers here; the
//! proofs are for each lawful port.

ghost use Rattle.std.specs.Prelude.{◌≡◌, ◌+◌, ◌++◌, ℕ, Bool, List, [], None, Ok, length};
ghost use Rattle.ice_types.specs.declared.declarations.Shape.{Shape};
ghost use Rattle.ice_types.specs.Tables.{Tables};
ghost use Rattle.ice_prims.specs.Rest.{Rest, IsBytes};
ghost use Rattle.ice_encoding.specs.Port.{Found, Only, by_number};
ghost use Rattle.ice_encoding.specs.Optionals.{ArePresent};
ghost use Rattle.ice_encoding.specs.OptionalMembers.{Members, content_at, SpellsContent, slice_members_at};
ghost use Rattle.ice_encoding.specs.OptionalMembers.{SpellsSliceMembers};

/// What is read of a content is spelled by all bytes of its bound.
pub fn contents_found()
    ensures { (t : Tables) (shape : Shape) (r : Rest) (x : Members × (Unit {0}) × Rest) → IsBytes r.bytes
        → content_at by_number.read t shape tt r ≡ Ok x
        → SpellsContent by_number t shape r.bytes x.0 tt tt × (x.2.bytes ≡ []) }
{}

/// What all bytes of a bound spell as a content is read, and nothing is left; so every other bound has a
/// first fault.
pub fn contents_only()
    ensures { (t : Tables) (shape : Shape) (r : Rest) (v : Members) → SpellsContent by_number t shape r.bytes v tt tt
        → content_at by_number.read t shape tt r ≡ Ok (v, tt, record { place = r.place + length r.bytes; bytes = [] }) }
{}

/// Bytes spell one content at most.
pub fn contents_apart()
    ensures { (t : Tables) (shape : Shape) (bytes : List ℕ) (v w : Members)
        → SpellsContent by_number t shape bytes v tt tt → SpellsContent by_number t shape bytes w tt tt → v ≡ w }
{}

/// What is read as the members of a slice is spelled by the bytes that were taken, none less and none more.
pub fn slices_found()
    ensures { (t : Tables) (flagged : Bool) (shape : Shape)
        → Found by_number.seen (slice_members_at by_number.read t flagged shape)
        (SpellsSliceMembers by_number t flagged shape) }
{}

/// What is spelled as the members of a slice is read, whatever follows it.
pub fn slices_only()
    ensures { (t : Tables) (flagged : Bool) (shape : Shape)
        → Only by_number.seen (slice_members_at by_number.read t flagged shape)
        (SpellsSliceMembers by_number t flagged shape) }
{}

/// No spelling of the members of a slice begins another.
pub fn slices_apart()
    ensures { (t : Tables) (flagged : Bool) (shape : Shape) (a b x y : List ℕ) (v w : Members)
        → SpellsSliceMembers by_number t flagged shape a v tt tt
        → SpellsSliceMembers by_number t flagged shape b w tt tt → a ++ x ≡ b ++ y → (a ≡ b) × (v ≡ w) }
{}

/// Of the optional members that are read, each has the tag of a member of the shape, and the tags rise.
pub fn tags_known()
    ensures contents { (t : Tables) (shape : Shape) (bytes : List ℕ) (v : Members)
        → SpellsContent by_number t shape bytes v tt tt → ArePresent shape.optional None v.optional }
    ensures slices { (t : Tables) (flagged : Bool) (shape : Shape) (bytes : List ℕ) (v : Members)
        → SpellsSliceMembers by_number t flagged shape bytes v tt tt → ArePresent shape.optional None v.optional }
{}
