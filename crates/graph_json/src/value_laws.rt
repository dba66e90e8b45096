//! What the definitions promise of each other, one law a function.

ghost use Rattle.std.specs.Prelude.{◌≡◌, Some};
ghost use Rattle.serde_json.specs.Data.{Data};
ghost use Rattle.ice_types.specs.Tables.{Tables};
ghost use Rattle.ice_types.specs.Rules.{IsSchema};
ghost use Rattle.ice_types.specs.declared.kind.TypeRef.{TypeRef};
ghost use Rattle.ice_types.specs.declared.declarations.Shape.{Shape};
ghost use Rattle.ice_encoding.specs.Tree.{Tree};
ghost use Rattle.ice_encoding.specs.Typed.{IsValue, by_size};
ghost use Rattle.ice_encoding.specs.OptionalMembers.{Members};
ghost use Rattle.ice_encoding.specs.TypedGraph.{AreMembers};
ghost use Rattle.graph_json.specs.ValueNotation.{Notes};
ghost use Rattle.graph_json.specs.ReadingValues.{noted_value};
ghost use Rattle.graph_json.specs.CanonicalValues.{notation};
ghost use Rattle.graph_json.specs.TypedValues.{HasShortTexts};
ghost use Rattle.graph_json.specs.Contents.{ContentIsShort, HasOwnNames, NotesContent, content_noted, noted_content};

/// What is read from JSON is noted by it.
pub fn noted_found()
    ensures { (t : Tables) (kind : TypeRef) (d : Data) (v : Tree) → noted_value t kind d ≡ Some v → Notes t kind d v }
{}

/// What JSON notes under a schema is read from it.
pub fn noted_only()
    ensures { (t : Tables) (kind : TypeRef) (d : Data) (v : Tree)
        → IsSchema t → Notes t kind d v → noted_value t kind d ≡ Some v }
{}

/// JSON notes one value of a type at most.
pub fn noted_apart()
    ensures { (t : Tables) (kind : TypeRef) (d : Data) (v w : Tree)
        → IsSchema t → Notes t kind d v → Notes t kind d w → v ≡ w }
{}

/// The canonical notation of a value of a type notes it, where the texts of its proxies are not too long.
pub fn noted_canonical()
    ensures { (t : Tables) (kind : TypeRef) (v : Tree)
        → IsSchema t → IsValue t kind v → HasShortTexts v → Notes t kind (notation t kind v) v }
{}

/// What JSON notes under a schema is a value of the type.
pub fn noted_typed()
    ensures { (t : Tables) (kind : TypeRef) (d : Data) (v : Tree)
        → IsSchema t → Notes t kind d v → IsValue t kind v }
{}

/// What is read from JSON as members is noted by it.
pub fn content_found()
    ensures { (t : Tables) (shape : Shape) (d : Data) (c : Members) → noted_content t shape d ≡ Some c
        → NotesContent t shape d c }
{}

/// The members that JSON notes under a schema are read from it.
pub fn content_only()
    ensures { (t : Tables) (shape : Shape) (d : Data) (c : Members)
        → IsSchema t → NotesContent t shape d c → noted_content t shape d ≡ Some c }
{}

/// JSON notes the members of a shape in one way at most.
pub fn content_apart()
    ensures { (t : Tables) (shape : Shape) (d : Data) (a b : Members)
        → IsSchema t → NotesContent t shape d a → NotesContent t shape d b → a ≡ b }
{}

/// The canonical notation of values of members notes them, where the members have names and tags of their
/// own and the texts of proxies are not too long.
pub fn content_canonical()
    ensures { (t : Tables) (shape : Shape) (c : Members)
        → IsSchema t → HasOwnNames shape → AreMembers t by_size shape c → ContentIsShort c
        → NotesContent t shape (content_noted t shape c) c }
{}

/// What JSON notes as members under a schema is of their types.
pub fn content_typed()
    ensures { (t : Tables) (shape : Shape) (d : Data) (c : Members)
        → IsSchema t → HasOwnNames shape → NotesContent t shape d c → AreMembers t by_size shape c }
{}
