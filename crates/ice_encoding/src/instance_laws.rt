//! What the definitions promise of each other, one law a function.

ghost use Rattle.std.specs.Prelude.{◌≡◌, ℕ, Bool, List, Ok};
ghost use Rattle.ice_types.specs.Tables.{Tables};
ghost use Rattle.ice_types.specs.declared.declarations.Shape.{Shape};
ghost use Rattle.ice_types.specs.declared.kind.TypeRef.{TypeRef};
ghost use Rattle.ice_prims.specs.Rest.{IsBytes, whole};
ghost use Rattle.ice_encoding.specs.Port.{IsLawful, by_number};
ghost use Rattle.ice_encoding.specs.Graph.{Slice, Graph};
ghost use Rattle.ice_encoding.specs.Flags.{Reach};
ghost use Rattle.ice_encoding.specs.Slices.{unknown_bytes};
ghost use Rattle.ice_encoding.specs.Instances.{references, SpellsNumbered, numbered_at};
ghost use Rattle.ice_encoding.specs.Exceptions.{UserException, SpellsException, exception_at};
ghost use Rattle.ice_encoding.specs.Ports.{AreApart, AreRead};
ghost use Rattle.ice_encoding.specs.References.{in_table};
ghost use Rattle.ice_encoding.specs.Reopening.{Reopens, reopened};

/// Where a reference stands, what is read is spelled by the bytes that were taken, and what is spelled
/// is read: with all instances that begin in it.
pub fn references_lawful()
    ensures { (t : Tables) (reach : Reach) → IsLawful (references t reach) }
{}

/// In the members of a slice with a size, whether it has a table or not, the same of places in the table.
pub fn places_lawful()
    ensures { (tabled : Bool) → IsLawful (in_table tabled) }
{}

/// No spelling of a reference begins another, however references stand: as numbers, as places in a table, or with the
/// instances that begin in them.
pub fn references_apart()
    ensures numbers { AreApart by_number }
    ensures places { (tabled : Bool) → AreApart (in_table tabled) }
    ensures inline { (t : Tables) (reach : Reach) → AreApart (references t reach) }
{}

/// However references stand in it, a value is read exactly where it is spelled, whatever follows it.
pub fn values_with_references()
    ensures numbers { (t : Tables) (kind : TypeRef) → AreRead by_number t kind }
    ensures places { (t : Tables) (tabled : Bool) (kind : TypeRef) → AreRead (in_table tabled) t kind }
    ensures inline { (t : Tables) (reach : Reach) (kind : TypeRef) → AreRead (references t reach) t kind }
{}

/// A graph is read from an input exactly where the whole input is an encapsulation of it; so every
/// other input has a first fault.
pub fn graphs_found()
    ensures { (t : Tables) (reach : Reach) (shape : Shape) (bytes : List ℕ) (g : Graph)
        → IsBytes bytes → numbered_at t reach shape (whole bytes) ≡ Ok g → SpellsNumbered t reach shape bytes g }
{}

/// The other half: an encapsulation of a graph is read as it.
pub fn graphs_only()
    ensures { (t : Tables) (reach : Reach) (shape : Shape) (bytes : List ℕ) (g : Graph)
        → SpellsNumbered t reach shape bytes g → numbered_at t reach shape (whole bytes) ≡ Ok g }
{}

/// An encapsulation holds one numbered graph.
pub fn graphs_apart()
    ensures { (t : Tables) (reach : Reach) (shape : Shape) (bytes : List ℕ) (g h : Graph)
        → SpellsNumbered t reach shape bytes g → SpellsNumbered t reach shape bytes h → g ≡ h }
{}

/// A user exception is read from an input exactly where the whole input is an encapsulation of it; so
/// every other input has a first fault.
pub fn exceptions_found()
    ensures { (t : Tables) (reach : Reach) (bytes : List ℕ) (x : UserException)
        → IsBytes bytes → exception_at t reach (whole bytes) ≡ Ok x → SpellsException t reach bytes x }
{}

/// The other half: an encapsulation of an exception is read as it.
pub fn exceptions_only()
    ensures { (t : Tables) (reach : Reach) (bytes : List ℕ) (x : UserException)
        → SpellsException t reach bytes x → exception_at t reach (whole bytes) ≡ Ok x }
{}

/// An encapsulation holds one exception.
pub fn exceptions_apart()
    ensures { (t : Tables) (reach : Reach) (bytes : List ℕ) (x y : UserException)
        → SpellsException t reach bytes x → SpellsException t reach bytes y → x ≡ y }
{}

/// An unknown slice is one of a class exactly where its bytes are members of the class, with places in its
/// table.
pub fn slices_reopened()
    ensures found { (t : Tables) (class : ℕ) (bytes : List ℕ) (optionals : Bool) (table : List ℕ) (s : Slice)
        → IsBytes (unknown_bytes optionals bytes) → reopened t class bytes optionals table ≡ Ok s
        → Reopens t class bytes optionals table s }
    ensures only { (t : Tables) (class : ℕ) (bytes : List ℕ) (optionals : Bool) (table : List ℕ) (s : Slice)
        → Reopens t class bytes optionals table s → reopened t class bytes optionals table ≡ Ok s }
{}
