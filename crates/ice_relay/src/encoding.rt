//! The encapsulation of a value that a text notes.

ghost use Rattle.instance_writing.specs.Formats.{view_format};
ghost use Rattle.ice_relay.specs.Encoding.{EncodesText};

use crate::fault::RelayFault;
use crate::relay::root_of;
use class_slices::{Format, encode_typed};
use graph_json::from_text;
use ice_encoding::LARGEST;
use ice_types::{Schema, TypeRef};
use std::alloc::Global;
use value_parts::DeclaredMembers;

/// The canonical encapsulation, in the format, of the value that the text notes, with all instances that it
/// leads to; or why the text notes none; or that one of these has an unknown slice and the format is compact; or
/// the length of the encapsulation, where it is more than 1,048,576 bytes.
/// (Ice manual, "Data Encoding for Class and Exception Types".)
pub fn canonical_of_text(
    alloc: Global,
    schema: &Schema,
    kind: TypeRef,
    format: Format,
    text: &[u8],
) -> Result<Vec<u8>, RelayFault>
    ensures { EncodesText schema.now kind (view_format format) text.now result }
{
    let root = [root_of(alloc, kind)?];
    let fields = DeclaredMembers {
        required: &root,
        optional: &[],
    };
    let graph = from_text(alloc, schema, fields, text)?;
    Ok(encode_typed(alloc, schema, fields, graph, format, LARGEST as u32)?)
}
