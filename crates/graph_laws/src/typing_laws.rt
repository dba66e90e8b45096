//! What the definitions promise of graphs that are read, one law a function.

ghost use Rattle.std.specs.Prelude.{◌≤◌, ◌↔◌, IsTrue, ℕ, List, length};
ghost use Rattle.ice_types.specs.declared.declarations.Shape.{Shape};
ghost use Rattle.ice_types.specs.Tables.{Tables};
ghost use Rattle.ice_types.specs.Inherited.{IsA};
ghost use Rattle.ice_types.specs.Rules.{IsSchema};
ghost use Rattle.ice_prims.specs.Rest.{IsBytes};
ghost use Rattle.ice_encoding.specs.Classes.{is_a};
ghost use Rattle.ice_encoding.specs.Graph.{Graph};
ghost use Rattle.ice_encoding.specs.Flags.{Reach};
ghost use Rattle.ice_encoding.specs.Instances.{most_instances, SpellsNumbered};
ghost use Rattle.ice_encoding.specs.TypedGraph.{OfReadType, OfType};

/// What is read is of its type, with proxies that can be read again, and within the limit of instances. So it is
/// of its type as what can be written is.
pub fn graphs_typed()
    ensures read { (t : Tables) (reach : Reach) (shape : Shape) (bytes : List ℕ) (g : Graph)
        → IsSchema t → IsBytes bytes → SpellsNumbered t reach shape bytes g
        → OfReadType t shape g × (length g.instances ≤ most_instances) }
    ensures written { (t : Tables) (shape : Shape) (g : Graph) → OfReadType t shape g → OfType t shape g }
{}

/// Whether an instance of a class may stand where a base is declared: exactly where the class is the base,
/// or a chain of bases leads there.
pub fn classes_related()
    ensures { (t : Tables) (class base : ℕ) → IsSchema t → IsTrue (is_a t class base) ↔ IsA t.classes class base }
{}
