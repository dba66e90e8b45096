//! What reading comes to where each reference is a number.

ghost use Rattle.std.specs.Prelude.{◌≡◌};
ghost use Rattle.ice_types.specs.declared.kind.TypeRef.{TypeRef};
ghost use Rattle.ice_types.specs.Tables.{Tables};
ghost use Rattle.ice_prims.specs.Rest.{Rest};
ghost use Rattle.ice_encoding.specs.Pausing.{Inside};
ghost use Rattle.ice_encoding.specs.Value.{plain_value_at};
ghost use Rattle.ice_values.specs.Going.{whole_at};
ghost use Rattle.value_parts.specs.Numbering.{number_taken};
ghost use Rattle.ice_values.specs.Numbering.{stateless};

/// At the port of numbers what `read_value` reads is the value that the bytes begin with, each reference in it as its
/// number, or their first fault.
pub fn read_by_number()
    ensures { (t : Tables) (inside : Inside (Unit {0})) (kind : TypeRef) (r : Rest)
        → stateless (whole_at number_taken t inside kind tt r) ≡ plain_value_at t kind r }
{}
