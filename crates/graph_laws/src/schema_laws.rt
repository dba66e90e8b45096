//! What reading under another schema keeps, one law a function. What was spelled is of t, what reads is of u.

ghost use Rattle.std.specs.Prelude.{◌≡◌, ℕ, List};
ghost use Rattle.ice_types.specs.declared.kind.TypeRef.{TypeRef};
ghost use Rattle.ice_types.specs.Formats.{optional_format};
ghost use Rattle.ice_types.specs.Tables.{Tables};
ghost use Rattle.ice_encoding.specs.Encapsulation.{SpellsEncapsulation};
ghost use Rattle.ice_encoding.specs.Tree.{Tree};
ghost use Rattle.ice_encoding.specs.Value.{SpellsPlainValue};
ghost use Rattle.ice_encoding.specs.Flags.{all_slices};
ghost use Rattle.ice_encoding.specs.Graph.{Graph};
ghost use Rattle.ice_encoding.specs.Instances.{SpellsNumbered};
ghost use Rattle.graph_laws.specs.PlainSlices.{SpellsPlainNumbered};
ghost use Rattle.graph_laws.specs.ReadingThere.{IsReadThere, alone};
ghost use Rattle.slice_compat.specs.Reading.{Reads};

/// An optional member of a type that can be read stands in one format under both schemas.
pub fn formats_kept()
    ensures { (t u : Tables) (kind other : TypeRef)
        → Reads t u kind other → optional_format t kind ≡ optional_format u other }
{}

/// What spells a value of a type spells the same value of each type that can read it.
pub fn values_read()
    ensures { (t u : Tables) (kind other : TypeRef) (bytes : List ℕ) (v : Tree)
        → Reads t u kind other → SpellsPlainValue t kind bytes v → SpellsPlainValue u other bytes v }
{}

/// The same of an encapsulation.
pub fn encapsulations_read()
    ensures { (t u : Tables) (kind other : TypeRef) (bytes : List ℕ) (v : Tree)
        → Reads t u kind other → SpellsEncapsulation t kind bytes v → SpellsEncapsulation u other bytes v }
{}

/// A spelling without kept slices and skipped tags is a spelling.
pub fn plain_spelled()
    ensures { (t u : Tables) (kind : TypeRef) (bytes : List ℕ) (g : Graph)
        → SpellsPlainNumbered t u kind bytes g → SpellsNumbered t all_slices (alone kind) bytes g }
{}

/// What spells a graph under one schema, without kept slices and skipped tags, spells under each schema that can read
/// it the same graph without the optional members that the reader's classes lack.
pub fn graphs_read()
    ensures { (t u : Tables) (kind other : TypeRef) → IsReadThere t u kind other }
{}
