//! The arguments, out of JSON.

ghost use Rattle.ice_types.specs.Fits.{ShapeFits};
ghost use Rattle.graph_json.specs.Contents.{HasOwnNames};
ghost use Rattle.instance_writing.specs.Formats.{view_format};
ghost use Rattle.call_command.specs.Steps.{EncodesArguments};

use class_slices::{Format, encode_typed};
use graph_json::from_text;
use ice_relay::RelayFault;
use ice_types::{Bytes, Schema, Shape};
use std::alloc::Global;
use value_parts::DeclaredMembers;

/// How many bytes the encapsulation of arguments has at most.
pub const MOST_OF_ARGUMENTS: u32 = 1_000_000;

/// The encapsulation, in the format, of the arguments that the text notes; or why it notes none; or that an instance
/// has an unknown slice and the format is compact; or its length, where that is more than it may have.
pub(crate) fn body_of(
    alloc: Global,
    schema: &Schema,
    arguments: &Shape,
    format: Format,
    text: &[u8],
) -> Result<Bytes, RelayFault>
    requires fits { ShapeFits schema.now arguments.now }
    requires named { HasOwnNames arguments.now }
    ensures { EncodesArguments schema.now arguments.now (view_format format) text.now result }
{
    let fields = DeclaredMembers {
        required: arguments.required.as_slice(),
        optional: arguments.optional.as_slice(),
    };
    let graph = from_text(alloc, schema, fields, text)?;
    let bytes = encode_typed(alloc, schema, fields, graph, format, MOST_OF_ARGUMENTS)?;
    Ok(Bytes::from_vec(bytes))
}
