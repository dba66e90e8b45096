//! What relaying keeps, one law a function. The reader's schema is t, the node's is u.

ghost use Rattle.std.specs.Prelude.{◌≡◌, ◌≤◌, ℕ, Bool, List, length};
ghost use Rattle.ice_types.specs.declared.declarations.Shape.{Shape};
ghost use Rattle.ice_types.specs.declared.kind.TypeRef.{TypeRef};
ghost use Rattle.ice_types.specs.Formats.{optional_format};
ghost use Rattle.ice_types.specs.Lacking.{Lacks, SameKind};
ghost use Rattle.ice_types.specs.Rules.{IsSchema};
ghost use Rattle.ice_types.specs.Tables.{Tables};
ghost use Rattle.ice_prims.specs.Rest.{IsBytes};
ghost use Rattle.ice_encoding.specs.declared.limits.TheConstants.{LARGEST};
ghost use Rattle.ice_encoding.specs.OptionalMembers.{Members};
ghost use Rattle.ice_encoding.specs.CanonicalGraph.{graph_bytes, sliced};
ghost use Rattle.ice_encoding.specs.Flags.{all_slices};
ghost use Rattle.ice_encoding.specs.Graph.{Graph, Slice, known};
ghost use Rattle.ice_encoding.specs.Instances.{most_instances, SpellsNumbered};
ghost use Rattle.ice_encoding.specs.Reopening.{Reopens};
ghost use Rattle.ice_encoding.specs.SameGraph.{Spells};
ghost use Rattle.ice_encoding.specs.TypedGraph.{OfType};
ghost use Rattle.ice_encoding.specs.Visiting.{order};
ghost use Rattle.graph_laws.specs.Relaying.{Relays, IsCanonicalThere, IsReadByBoth, IsSpelledBack, IsSpelledThere};
ghost use Rattle.graph_laws.specs.Relaying.{IsUnchanged};
ghost use Rattle.graph_laws.specs.Readable.{SpellsReadable, SpellsReadableNumbered};
ghost use Rattle.graph_laws.specs.Sample.{less, whole};
ghost use Rattle.graph_laws.specs.Seeing.{OpensAs, Seen};
ghost use Rattle.graph_laws.specs.Sized.{SpellsSized};

/// There are schemas of which one lacks a class of the other, with other places in its table.
pub fn one_lacks_a_class()
    ensures { Lacks whole less }
{}

/// An optional member of a type that both schemas have stands in one format in both.
pub fn formats_same()
    ensures { (t u : Tables) (kind other : TypeRef) → IsSchema t → Lacks t u
        → SameKind t u kind other → optional_format t kind ≡ optional_format u other }
{}

/// An encapsulation in which each instance is sized can be read by every node, and what a node can read is an
/// encapsulation of the graph.
pub fn sized_graphs_spelled()
    ensures read { (t u : Tables) (shape : Shape) (bytes : List ℕ) (g : Graph)
        → SpellsSized t shape bytes g → SpellsReadable t u shape bytes g }
    ensures spelled { (t u : Tables) (shape : Shape) (bytes : List ℕ) (g : Graph)
        → SpellsReadable t u shape bytes g → Spells t all_slices shape bytes g }
{}

/// What is written of a graph with slice sizes is sized.
pub fn canonical_bytes_sized()
    ensures { (t : Tables) (shape : Shape) (g : Graph)
        → IsSchema t → OfType t shape g → length (order g) ≤ most_instances
        → length (graph_bytes t shape sliced g) ≤ LARGEST → SpellsSized t shape (graph_bytes t shape sliced g) g }
{}

/// What the node sees of an encapsulation that it can read: the same graph, but that slices of classes that its
/// schema lacks are kept, with bytes that are their members.
pub fn graphs_seen()
    ensures { (t u : Tables) (shape other : Shape) (bytes : List ℕ) (g : Graph)
        → Relays t u shape other → IsBytes bytes → SpellsReadableNumbered t u shape bytes g
        → (h : Graph) × SpellsNumbered u all_slices other bytes h × Seen t u g h }
{}

/// What the node kept of a slice is members of its class for the reader, so it can be reopened.
pub fn unknown_slices_reopened()
    ensures { (t : Tables) (is : List (List Slice)) (class : ℕ) (bytes : List ℕ) (optionals : Bool) (table : List ℕ)
        (content : Members)
        → OpensAs t is class bytes optionals table content
        → Reopens t class bytes optionals table (known class content) }
{}

/// What spells a graph for the reader, and can be read by the node, spells a graph for the node.
pub fn relays_spelled()
    ensures { (t u : Tables) (shape other : Shape) → IsSpelledThere t u shape other }
{}

/// What spells graphs for both, the node can read instance by instance: one without slice sizes is of a class that
/// it has.
pub fn graphs_read_by_both()
    ensures { (t u : Tables) (shape other : Shape) → IsReadByBoth t u shape other }
{}

/// What the node writes of what it read spells the graph that the reader would have read, whichever of the graphs
/// that the bytes spell for the node it wrote. It is sized, so that further nodes may relay it.
pub fn relays_returned()
    ensures { (t u : Tables) (shape other : Shape) → IsSpelledBack t u shape other }
{}

/// Canonical bytes of the reader's graph, with slice sizes, spell a graph for the node, and come out as they went in.
pub fn canonical_bytes_unchanged()
    ensures read { (t u : Tables) (shape other : Shape) → IsCanonicalThere t u shape other }
    ensures written { (t u : Tables) (shape other : Shape) → IsUnchanged t u shape other }
{}
