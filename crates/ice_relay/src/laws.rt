//! What the definitions promise of each other, one law a function.

ghost use Rattle.std.specs.Prelude.{◌≡◌, ℕ, List, Option, Some};
ghost use Rattle.ice_types.specs.declared.kind.TypeRef.{TypeRef};
ghost use Rattle.ice_types.specs.Tables.{Tables};
ghost use Rattle.ice_types.specs.Rules.{IsSchema};
ghost use Rattle.ice_prims.specs.Rest.{IsBytes};
ghost use Rattle.ice_encoding.specs.Graph.{Graph};
ghost use Rattle.ice_encoding.specs.CanonicalGraph.{Format};
ghost use Rattle.graph_json.specs.Canonical.{canonical_noted};
ghost use Rattle.graph_json.specs.Texts.{IsJson, IsRefused, Lists, NotesText};
ghost use Rattle.graph_json.specs.declared.fault.JsonKind.{JsonKind};
ghost use Rattle.ice_relay.specs.Relaying.{Holds, canonical_bytes, one_value};
ghost use Rattle.ice_relay.specs.TextStreams.{ReadsText};

/// What is read of an input decides it: the graph that the text lists, or why it lists none.
pub fn text_decides()
    ensures listed { (t : Tables) (kind : TypeRef) (input got : List ℕ) (left : Option (List ℕ)) (g : Graph)
        → ReadsText (Some input) left got → Lists t (one_value kind) got g → Lists t (one_value kind) input g }
    ensures refused { (t : Tables) (kind : TypeRef) (input got : List ℕ) (left : Option (List ℕ)) (why : JsonKind)
        → ReadsText (Some input) left got
        → IsRefused t (one_value kind) got why → IsRefused t (one_value kind) input why }
{}

/// The bytes that are written for the graph that a text lists are those of each graph that the text notes.
pub fn noted_bytes()
    ensures { (t : Tables) (kind : TypeRef) (f : Format) (text : List ℕ) (g h : Graph)
        → IsSchema t → Lists t (one_value kind) text g → NotesText t (one_value kind) text h
        → canonical_bytes t kind f g ≡ canonical_bytes t kind f h }
{}

/// A text that reads as the canonical notation of what an input holds notes it, and what is written for the graph that
/// such a text lists is the canonical encapsulation of what the input holds.
pub fn dumped_and_encoded()
    ensures noted { (t : Tables) (kind : TypeRef) (input text : List ℕ) (g : Graph)
        → IsSchema t → IsBytes input → Holds t kind input g → IsJson text (canonical_noted t (one_value kind) g)
        → NotesText t (one_value kind) text g }
    ensures encoded { (t : Tables) (kind : TypeRef) (f : Format) (input text : List ℕ) (g k : Graph)
        → IsSchema t → IsBytes input → Holds t kind input g → IsJson text (canonical_noted t (one_value kind) g)
        → Lists t (one_value kind) text k → canonical_bytes t kind f k ≡ canonical_bytes t kind f g }
{}
