//! What the definitions promise of values of zeros, one law a function.

ghost use Rattle.std.specs.Prelude.{List};
ghost use Rattle.ice_types.specs.declared.kind.TypeRef.{TypeRef};
ghost use Rattle.ice_types.specs.declared.schema.TheConstants.{MOST_DEPTH};
ghost use Rattle.ice_types.specs.Tables.{Tables};
ghost use Rattle.ice_types.specs.Fits.{IsOf};
ghost use Rattle.ice_types.specs.Rules.{IsSchema};
ghost use Rattle.ice_encoding.specs.Typed.{HasType};
ghost use Rattle.ice_encoding.specs.Graph.{Slice};
ghost use Rattle.ice_encoding.specs.TypedGraph.{RefersIn};
ghost use Rattle.value_checks.specs.References.{AnyRefers};
ghost use Rattle.value_checks.specs.Zeros.{zero_of};

/// The value of zeros of each type of a schema is of the type, by itself and in each graph.
pub fn zeros_have_types()
    ensures alone { (t : Tables) (kind : TypeRef) → IsSchema t → IsOf t kind
        → HasType t AnyRefers MOST_DEPTH kind (zero_of t MOST_DEPTH kind) }
    ensures inside { (t : Tables) (kind : TypeRef) (instances : List (List Slice)) → IsSchema t → IsOf t kind
        → HasType t (RefersIn t instances) MOST_DEPTH kind (zero_of t MOST_DEPTH kind) }
{}
