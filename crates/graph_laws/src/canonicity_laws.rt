//! What the canonical bytes of a graph tell of it, one law a function.

ghost use Rattle.std.specs.Prelude.{◌≡◌, ◌≤◌, ◌<◌, ◌^◌, ◌↔◌, ℕ, List, length};
ghost use Rattle.ice_types.specs.declared.declarations.Shape.{Shape};
ghost use Rattle.ice_types.specs.Tables.{Tables};
ghost use Rattle.ice_types.specs.Rules.{IsSchema};
ghost use Rattle.ice_prims.specs.Rest.{IsBytes};
ghost use Rattle.ice_encoding.specs.declared.limits.TheConstants.{LARGEST};
ghost use Rattle.ice_encoding.specs.OptionalMembers.{Members};
ghost use Rattle.ice_encoding.specs.Graph.{Graph, known};
ghost use Rattle.ice_encoding.specs.Names.{names_of};
ghost use Rattle.ice_encoding.specs.Flags.{Reach, all_slices, known_classes};
ghost use Rattle.ice_encoding.specs.Instances.{most_instances, SpellsNumbered};
ghost use Rattle.ice_encoding.specs.Visiting.{most, order};
ghost use Rattle.ice_encoding.specs.SameGraph.{Same, Spells, form};
ghost use Rattle.ice_encoding.specs.TypedGraph.{OfReadType, OfType};
ghost use Rattle.ice_encoding.specs.CanonicalGraph.{Format, compact, graph_bytes, table_of, IsWritable};
ghost use Rattle.graph_laws.specs.FirstUse.{IsByFirstUse};

/// To be the same but for the names of instances goes both ways, and on from graph to graph; and each graph of
/// a type is so to itself.
pub fn graphs_the_same()
    ensures itself { (t : Tables) (shape : Shape) (g : Graph)
        → OfType t shape g → length g.instances ≤ most → Same g g }
    ensures back { (g h : Graph) → Same g h → Same h g }
    ensures onward { (g h k : Graph) → Same g h → Same h k → Same g k }
{}

/// Two graphs that the same bytes spell are the same but for the names of their instances.
pub fn spelled_same()
    ensures { (t : Tables) (reach : Reach) (shape : Shape) (bytes : List ℕ) (g h : Graph)
        → Spells t reach shape bytes g → Spells t reach shape bytes h → Same g h }
{}

/// Graphs of one type have equal canonical bytes, in a format that both can be written in, exactly where
/// they are the same but for the names of their instances: graphs within the limit of instances, whose proxies can
/// be read again or whose bytes can, and so those that were read. That the same graphs have equal bytes holds of
/// all graphs.
pub fn equal_graphs()
    ensures same { (t : Tables) (shape : Shape) (format : Format) (g h : Graph)
        → Same g h → graph_bytes t shape format g ≡ graph_bytes t shape format h }
    ensures bytes { (t : Tables) (shape : Shape) (format : Format) (g h : Graph)
        → IsSchema t → OfReadType t shape g → OfReadType t shape h → IsWritable format g → IsWritable format h
        → length g.instances ≤ most → length h.instances ≤ most
        → length (graph_bytes t shape format g) < 2 ^ 31
        → (graph_bytes t shape format g ≡ graph_bytes t shape format h) ↔ Same g h }
    ensures written { (t : Tables) (shape : Shape) (format : Format) (g h : Graph)
        → IsSchema t → OfType t shape g → OfType t shape h → IsWritable format g → IsWritable format h
        → length g.instances ≤ most → length h.instances ≤ most
        → length (graph_bytes t shape format g) ≤ LARGEST
        → (graph_bytes t shape format g ≡ graph_bytes t shape format h) ↔ Same g h }
    ensures read { (t : Tables) (reach : Reach) (shape : Shape) (format : Format) (a b : List ℕ) (g h : Graph)
        → IsSchema t → IsBytes a → IsBytes b → SpellsNumbered t reach shape a g → SpellsNumbered t reach shape b h
        → IsWritable format g → IsWritable format h → length (graph_bytes t shape format g) < 2 ^ 31
        → (graph_bytes t shape format g ≡ graph_bytes t shape format h) ↔ Same g h }
{}

/// Within the limits, the canonical encapsulation of a graph of a type spells it. Where each instance that
/// is reached is of known classes alone, it does so also for those who read no others, in each format.
/// Whoever reads it, of these, reads the same graph.
pub fn graphs_canonical()
    ensures all { (t : Tables) (shape : Shape) (format : Format) (g : Graph)
        → IsSchema t → OfType t shape g → IsWritable format g
        → length (order g) ≤ most_instances → length (graph_bytes t shape format g) ≤ LARGEST
        → Spells t all_slices shape (graph_bytes t shape format g) g }
    ensures known { (t : Tables) (shape : Shape) (format : Format) (g : Graph)
        → IsSchema t → OfType t shape g → IsWritable compact g
        → length (order g) ≤ most_instances → length (graph_bytes t shape format g) ≤ LARGEST
        → Spells t known_classes shape (graph_bytes t shape format g) g }
    ensures only { (t : Tables) (reach : Reach) (shape : Shape) (format : Format) (g h : Graph)
        → IsSchema t → OfType t shape g → IsWritable format g → length (order g) ≤ most_instances
        → SpellsNumbered t reach shape (graph_bytes t shape format g) h → Same h g }
{}

/// Within the limits, the canonical encapsulation of a graph of a type is that of its form, the graph of the reached
/// instances, each named by its first visit: it spells the form, name by name, and whoever reads it reads the form.
pub fn forms_spelled()
    ensures all { (t : Tables) (shape : Shape) (format : Format) (g : Graph)
        → IsSchema t → OfType t shape g → IsWritable format g
        → length (order g) ≤ most_instances → length (graph_bytes t shape format g) ≤ LARGEST
        → SpellsNumbered t all_slices shape (graph_bytes t shape format g) (form g) }
    ensures known { (t : Tables) (shape : Shape) (format : Format) (g : Graph)
        → IsSchema t → OfType t shape g → IsWritable compact g
        → length (order g) ≤ most_instances → length (graph_bytes t shape format g) ≤ LARGEST
        → SpellsNumbered t known_classes shape (graph_bytes t shape format g) (form g) }
    ensures only { (t : Tables) (reach : Reach) (shape : Shape) (format : Format) (g h : Graph)
        → IsSchema t → OfType t shape g → IsWritable format g → length (order g) ≤ most_instances
        → SpellsNumbered t reach shape (graph_bytes t shape format g) h → h ≡ form g }
{}

/// The table that is written behind a slice has the names in its members by first use, and no other table has
/// them so.
pub fn tables_by_first_use()
    ensures { (class : ℕ) (content : Members) (table : List ℕ)
        → IsByFirstUse (names_of content) table ↔ (table ≡ table_of (known class content)) }
{}

/// What was read, and is written in a format in which it can be, is the same graph: the bytes spell it, and
/// whoever reads them reads the same. What was read of known classes alone, with sizes or without, and is
/// written in either format, can be read so again.
pub fn graphs_relayed()
    ensures spelled { (t : Tables) (reach : Reach) (shape : Shape) (format : Format) (bytes : List ℕ) (g : Graph)
        → IsSchema t → IsBytes bytes → SpellsNumbered t reach shape bytes g
        → IsWritable format g → length (graph_bytes t shape format g) ≤ LARGEST
        → Spells t all_slices shape (graph_bytes t shape format g) g }
    ensures known { (t : Tables) (shape : Shape) (format : Format) (bytes : List ℕ) (g : Graph)
        → IsSchema t → IsBytes bytes → SpellsNumbered t known_classes shape bytes g
        → length (graph_bytes t shape format g) ≤ LARGEST
        → Spells t known_classes shape (graph_bytes t shape format g) g }
    ensures same { (t : Tables) (reach again : Reach) (shape : Shape) (format : Format) (bytes : List ℕ) (g h : Graph)
        → IsSchema t → IsBytes bytes → SpellsNumbered t reach shape bytes g → IsWritable format g
        → SpellsNumbered t again shape (graph_bytes t shape format g) h → Same h g }
{}

/// Relaying twice is relaying once: what is read from the canonical bytes of a graph that was read has the
/// canonical bytes of that graph, in each format.
pub fn relaying_again()
    ensures { (t : Tables) (reach again : Reach) (shape : Shape) (format other : Format) (bytes : List ℕ) (g h : Graph)
        → IsSchema t → IsBytes bytes → SpellsNumbered t reach shape bytes g → IsWritable format g
        → SpellsNumbered t again shape (graph_bytes t shape format g) h
        → graph_bytes t shape other h ≡ graph_bytes t shape other g }
{}
