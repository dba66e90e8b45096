//! What the definitions promise of each other.

ghost use Rattle.ice_types.specs.Tables.{Tables};
ghost use Rattle.ice_types.specs.Rules.{IsSchema};
ghost use Rattle.ice_types.specs.Parts.{Leads};
ghost use Rattle.ice_types.specs.declared.kind.TypeRef.{TypeRef};

/// No type of a schema leads back to itself, from part to part: so each has a smallest value.
pub fn no_type_in_itself()
    ensures { (t : Tables) (kind : TypeRef) → IsSchema t → ¬ Leads t kind kind }
{}
