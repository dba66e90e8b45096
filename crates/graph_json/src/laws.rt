//! What the definitions promise of each other, one law a function.

ghost use Rattle.std.specs.Prelude.{◌≡◌, ◌≤◌, ℕ, List, Some, length};
ghost use Rattle.serde_json.specs.Data.{Data};
ghost use Rattle.ice_types.specs.declared.declarations.Shape.{Shape};
ghost use Rattle.ice_types.specs.Tables.{Tables};
ghost use Rattle.ice_types.specs.Rules.{IsSchema};
ghost use Rattle.ice_prims.specs.Rest.{IsBytes};
ghost use Rattle.ice_encoding.specs.Typed.{by_size};
ghost use Rattle.ice_encoding.specs.CanonicalGraph.{Format, graph_bytes};
ghost use Rattle.ice_encoding.specs.Flags.{Reach};
ghost use Rattle.ice_encoding.specs.Graph.{Graph};
ghost use Rattle.ice_encoding.specs.Instances.{most_instances, SpellsNumbered};
ghost use Rattle.ice_encoding.specs.SameGraph.{form, Same};
ghost use Rattle.ice_encoding.specs.TypedGraph.{AreMembers, OfType};
ghost use Rattle.ice_encoding.specs.Visiting.{most, order};
ghost use Rattle.graph_json.specs.declared.text.TheConstants.{MOST_TEXT};
ghost use Rattle.graph_json.specs.Contents.{HasOwnNames};
ghost use Rattle.graph_json.specs.Notation.{NotesListed, NotesGraph};
ghost use Rattle.graph_json.specs.Reading.{listed_graph};
ghost use Rattle.graph_json.specs.Canonical.{canonical_noted};
ghost use Rattle.graph_json.specs.Texts.{IsJson, Lists};
ghost use Rattle.graph_json.specs.Typed.{HaveValues, IsNotable};

/// The graph that is read from JSON is listed by it.
pub fn listed_found()
    ensures { (t : Tables) (shape : Shape) (d : Data) (g : Graph)
        → listed_graph t shape d ≡ Some g → NotesListed t shape d g }
{}

/// The graph that JSON lists under a schema is read from it.
pub fn listed_only()
    ensures { (t : Tables) (shape : Shape) (d : Data) (g : Graph)
        → IsSchema t → NotesListed t shape d g → listed_graph t shape d ≡ Some g }
{}

/// JSON lists one graph at most.
pub fn listed_apart()
    ensures { (t : Tables) (shape : Shape) (d : Data) (g h : Graph)
        → IsSchema t → NotesListed t shape d g → NotesListed t shape d h → g ≡ h }
{}

/// The canonical notation of a graph of a type notes it, where the shape's members have names and tags of their own,
/// the texts of proxies are not too long, and there are no more instances than a graph may have.
pub fn graphs_noted()
    ensures { (t : Tables) (shape : Shape) (g : Graph)
        → IsSchema t → HasOwnNames shape → OfType t shape g → IsNotable g → length g.instances ≤ most
        → NotesGraph t shape (canonical_noted t shape g) g }
{}

/// The canonical notation of such a graph is read as its form: its reached instances by first visit.
pub fn canonical_read()
    ensures { (t : Tables) (shape : Shape) (g : Graph)
        → IsSchema t → HasOwnNames shape → OfType t shape g → IsNotable g → length g.instances ≤ most
        → listed_graph t shape (canonical_noted t shape g) ≡ Some (form g) }
{}

/// Of a graph that was read from bytes the canonical notation notes it, whatever it holds. A text of that, where it is
/// short enough, lists the graph's form; and whatever such a text lists has the canonical bytes of the graph, in each
/// format.
pub fn dumped_graphs()
    ensures noted { (t : Tables) (reach : Reach) (shape : Shape) (bytes : List ℕ) (g : Graph)
        → IsSchema t → HasOwnNames shape → IsBytes bytes → SpellsNumbered t reach shape bytes g
        → NotesGraph t shape (canonical_noted t shape g) g }
    ensures listed { (t : Tables) (reach : Reach) (shape : Shape) (bytes text : List ℕ) (g : Graph)
        → IsSchema t → HasOwnNames shape → IsBytes bytes → SpellsNumbered t reach shape bytes g
        → IsJson text (canonical_noted t shape g) → length text ≤ MOST_TEXT → Lists t shape text (form g) }
    ensures encoded { (t : Tables) (reach : Reach) (shape : Shape) (format : Format) (bytes text : List ℕ) (g k : Graph)
        → IsSchema t → HasOwnNames shape → IsBytes bytes → SpellsNumbered t reach shape bytes g
        → IsJson text (canonical_noted t shape g) → Lists t shape text k
        → graph_bytes t shape format k ≡ graph_bytes t shape format g }
{}

/// JSON notes the graph that is read from it, where that is of the type. What JSON notes is the same as that one.
pub fn graphs_read()
    ensures found { (t : Tables) (shape : Shape) (d : Data) (k : Graph)
        → listed_graph t shape d ≡ Some k → OfType t shape k → length k.instances ≤ most → NotesGraph t shape d k }
    ensures only { (t : Tables) (shape : Shape) (d : Data) (g : Graph) → IsSchema t → NotesGraph t shape d g
        → (k : Graph) × (listed_graph t shape d ≡ Some k) × OfType t shape k × Same k g }
{}

/// Graphs that are the same have one canonical notation. Graphs of a type that have one are the same.
pub fn notations_equal()
    ensures same { (t : Tables) (shape : Shape) (g h : Graph)
        → Same g h → canonical_noted t shape g ≡ canonical_noted t shape h }
    ensures equal { (t : Tables) (shape : Shape) (g h : Graph)
        → IsSchema t → HasOwnNames shape → OfType t shape g → OfType t shape h → IsNotable g → IsNotable h
        → length g.instances ≤ most → length h.instances ≤ most
        → canonical_noted t shape g ≡ canonical_noted t shape h → Same g h }
{}

/// Two graphs that the same JSON notes are the same but for the names of their instances.
pub fn notations_apart()
    ensures { (t : Tables) (shape : Shape) (d : Data) (g h : Graph)
        → IsSchema t → NotesGraph t shape d g → NotesGraph t shape d h → Same g h }
{}

/// Of a graph that JSON notes, what is reached is of the type, within the limit of instances.
pub fn noted_graphs_typed()
    ensures { (t : Tables) (shape : Shape) (d : Data) (g : Graph)
        → IsSchema t → NotesGraph t shape d g → length (order g) ≤ most_instances → OfType t shape (form g) }
{}

/// What JSON lists are values of the types of their members, with numbers as references, where the shape's
/// members have names and tags of their own.
pub fn listed_typed()
    ensures { (t : Tables) (shape : Shape) (d : Data) (g : Graph)
        → IsSchema t → HasOwnNames shape → NotesListed t shape d g
        → AreMembers t by_size shape g.roots × HaveValues t g.instances }
{}
