//! The interface that a word names.

ghost use Rattle.node_commands.specs.Interfaces.{FindsInterface};

use ice_types::Schema;

/// The interface of this type id.
pub fn interface_of(schema: &Schema, id: &str) -> Option<u32>
    ensures { FindsInterface schema.now id.now result }
{
    schema.rules();
    schema.interface(id)
}
