//! What the definitions promise of each other, one law a function.

ghost use Rattle.std.specs.Prelude.{◌≡◌, ◌≢◌, ◌≤◌, ◌↔◌, ◌++◌, ℕ, List, Some, Ok, length};
ghost use Rattle.ice_types.specs.Tables.{Tables};
ghost use Rattle.ice_types.specs.Measures.{measure, fixed_size};
ghost use Rattle.ice_types.specs.Rules.{IsSchema};
ghost use Rattle.ice_types.specs.declared.measure.Measure.{Measure};
ghost use Rattle.ice_types.specs.declared.kind.TypeRef.{TypeRef};
ghost use Rattle.ice_types.specs.declared.schema.TheConstants.{MOST_DEPTH};
ghost use Rattle.ice_prims.specs.Rest.{Rest, IsBytes, whole};
ghost use Rattle.ice_prims.specs.Laws.{FoundPart, OnlyPart};
ghost use Rattle.ice_encoding.specs.Tree.{Tree, Entries};
ghost use Rattle.ice_encoding.specs.Order.{IsOrdered, insert};
ghost use Rattle.ice_encoding.specs.Same.{Same};
ghost use Rattle.ice_encoding.specs.Port.{by_number};
ghost use Rattle.ice_encoding.specs.Reading.{value_at};
ghost use Rattle.ice_encoding.specs.Typed.{IsValue, IsReadValue};
ghost use Rattle.ice_encoding.specs.Value.{SpellsPlainValue, plain_value_at};
ghost use Rattle.ice_encoding.specs.Canonical.{canonical, HasSizes};
ghost use Rattle.ice_encoding.specs.Encapsulation.{SpellsEncapsulation, encapsulated_at, encapsulation_at};
ghost use Rattle.ice_encoding.specs.Encapsulation.{encapsulation_bytes};

/// What is read is spelled by the bytes that were taken, none less and none more.
pub fn values_found()
    ensures { (t : Tables) (kind : TypeRef) → FoundPart (plain_value_at t kind) (SpellsPlainValue t kind) }
{}

/// What is spelled is read, whatever follows it.
pub fn values_only()
    ensures { (t : Tables) (kind : TypeRef) → OnlyPart (plain_value_at t kind) (SpellsPlainValue t kind) }
{}

/// No spelling begins another: bytes begin with one value at most.
pub fn values_apart()
    ensures { (t : Tables) (kind : TypeRef) (a b x y : List ℕ) (v w : Tree)
        → SpellsPlainValue t kind a v → SpellsPlainValue t kind b w → a ++ x ≡ b ++ y → (a ≡ b) × (v ≡ w) }
{}

/// What bytes spell under a schema is a value of its type, which can be read again; and such a value can be written.
pub fn values_typed()
    ensures read { (t : Tables) (kind : TypeRef) (bytes : List ℕ) (v : Tree)
        → IsSchema t → IsBytes bytes → SpellsPlainValue t kind bytes v → IsReadValue t kind v }
    ensures written { (t : Tables) (kind : TypeRef) (v : Tree) → IsReadValue t kind v → IsValue t kind v }
{}

/// The canonical bytes of each value of a type that can be read spell it, and no spelling is shorter. So they are read
/// as this value again.
pub fn values_canonical()
    ensures values { (t : Tables) (kind : TypeRef) (v : Tree)
        → IsReadValue t kind v → SpellsPlainValue t kind (canonical v) v }
    ensures spelled { (t : Tables) (kind : TypeRef) (bytes : List ℕ) (v : Tree) → IsBytes bytes
        → SpellsPlainValue t kind bytes v → SpellsPlainValue t kind (canonical v) v
        × (length (canonical v) ≤ length bytes) }
{}

/// The keys of each dictionary in a value that bytes spell rise, in whatever order the bytes have them.
pub fn values_ordered()
    ensures { (t : Tables) (kind : TypeRef) (bytes : List ℕ) (v : Tree)
        → SpellsPlainValue t kind bytes v → IsOrdered v }
{}

/// Each size of a value that bytes spell is at most the greatest int.
pub fn values_have_sizes()
    ensures { (t : Tables) (kind : TypeRef) (bytes : List ℕ) (v : Tree)
        → SpellsPlainValue t kind bytes v → HasSizes v }
{}

/// Values of a type are the same, in whatever order the pairs of their dictionaries stand, exactly
/// where their canonical bytes are equal.
pub fn equal_values()
    ensures values { (t : Tables) (kind : TypeRef) (v w : Tree)
        → IsReadValue t kind v → IsReadValue t kind w → Same v w → v ≡ w }
    ensures bytes { (t : Tables) (kind : TypeRef) (v w : Tree)
        → IsReadValue t kind v → IsReadValue t kind w → Same v w ↔ (canonical v ≡ canonical w) }
{}

/// Two pairs come to the same places whichever of them is put first.
pub fn pairs_in_any_order()
    ensures { (k v l w : Tree) (pairs : Entries)
        → k ≢ l → insert k v (insert l w pairs) ≡ insert l w (insert k v pairs) }
{}

/// A type of a schema nests at most a hundred levels deep, so reading within more of them answers the
/// same: no value is refused because the levels ran out.
pub fn levels_suffice()
    ensures { (t : Tables) (kind : TypeRef) (m : Measure)
        → measure t MOST_DEPTH kind ≡ Some m → (levels : ℕ) → MOST_DEPTH ≤ levels
        → (r : Rest) → value_at by_number.read t levels kind tt r ≡ value_at by_number.read t MOST_DEPTH kind tt r }
{}

/// An encapsulation is read as its value, whatever follows it, and nothing else is: so one may stand
/// after the other.
pub fn encapsulations_in_a_row()
    ensures found { (t : Tables) (kind : TypeRef)
        → FoundPart (encapsulated_at (plain_value_at t kind)) (SpellsEncapsulation t kind) }
    ensures only { (t : Tables) (kind : TypeRef)
        → OnlyPart (encapsulated_at (plain_value_at t kind)) (SpellsEncapsulation t kind) }
{}

/// A value is read from an input exactly where the whole input is an encapsulation of it; so every
/// other input has a first fault.
pub fn encapsulations_found()
    ensures { (t : Tables) (kind : TypeRef) (bytes : List ℕ) (v : Tree)
        → IsBytes bytes → encapsulation_at t kind (whole bytes) ≡ Ok v → SpellsEncapsulation t kind bytes v }
{}

/// The other half: an input that is an encapsulation of a value is read as it.
pub fn encapsulations_only()
    ensures { (t : Tables) (kind : TypeRef) (bytes : List ℕ) (v : Tree)
        → SpellsEncapsulation t kind bytes v → encapsulation_at t kind (whole bytes) ≡ Ok v }
{}

/// An encapsulation holds one value.
pub fn encapsulations_apart()
    ensures { (t : Tables) (kind : TypeRef) (bytes : List ℕ) (v w : Tree)
        → SpellsEncapsulation t kind bytes v → SpellsEncapsulation t kind bytes w → v ≡ w }
{}

/// The canonical encapsulation of a value that an encapsulation holds is one of it, and is not longer.
pub fn encapsulations_canonical()
    ensures { (t : Tables) (kind : TypeRef) (bytes : List ℕ) (v : Tree)
        → IsBytes bytes → SpellsEncapsulation t kind bytes v
        → SpellsEncapsulation t kind (encapsulation_bytes v) v × (length (encapsulation_bytes v) ≤ length bytes) }
{}

/// Relaying what was relayed changes nothing: it holds a value, and the canonical encapsulation of
/// that value is the same bytes.
pub fn relaying_again()
    ensures { (t : Tables) (kind : TypeRef) (bytes : List ℕ) (v w : Tree)
        → IsBytes bytes → SpellsEncapsulation t kind bytes v
        → SpellsEncapsulation t kind (encapsulation_bytes v) w → encapsulation_bytes w ≡ encapsulation_bytes v }
{}

/// No spelling of a type is shorter than the smallest that the schema tells.
pub fn smallest_spellings()
    ensures { (t : Tables) (kind : TypeRef) (m : Measure) (bytes : List ℕ) (v : Tree)
        → measure t MOST_DEPTH kind ≡ Some m → SpellsPlainValue t kind bytes v → m.smallest ≤ length bytes }
{}

/// Each spelling of a type of fixed size has that size.
pub fn fixed_sizes()
    ensures { (t : Tables) (kind : TypeRef) (n : ℕ) (bytes : List ℕ) (v : Tree)
        → fixed_size t kind ≡ Some n → SpellsPlainValue t kind bytes v → length bytes ≡ n }
{}
