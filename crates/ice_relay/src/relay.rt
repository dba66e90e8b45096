//! From the bytes that came in to those that go out.

ghost use Rattle.std.specs.Prelude.{◌≡◌, IfOk};
ghost use Rattle.instance_writing.specs.Formats.{view_format};
ghost use Rattle.ice_relay.specs.Relaying.{Canonicalizes, root_of};

use crate::fault::RelayFault;
use canonical_inputs::is_canonical_input;
use class_slices::{Format, decode, encode_typed};
use ice_encoding::LARGEST;
use ice_types::{Member, Name, Schema, TypeRef};
use std::alloc::{AllocError, Global};
use value_parts::DeclaredMembers;

/// The canonical encapsulation, in the format, of the value that the whole input holds, with all
/// instances that it leads to; or the first fault from the left; or that one of these has an unknown slice
/// and the format is compact; or the length of the encapsulation, where it is more than 1,048,576 bytes. (Ice
/// manual, "Data Encoding for Class and Exception Types".)
pub fn canonical_of(
    alloc: Global,
    schema: &Schema,
    kind: TypeRef,
    format: Format,
    input: &[u8],
) -> Result<Vec<u8>, RelayFault>
    ensures { Canonicalizes schema.now kind (view_format format) input.now result }
{
    match format {
        Format::Sliced if is_canonical_input(alloc, schema, kind, input) => {
            Ok(Vec::from_slice(alloc, input)?)
        }
        _ => written_anew(alloc, schema, kind, format, input),
    }
}

/// The same, by way of the graph.
fn written_anew(
    alloc: Global,
    schema: &Schema,
    kind: TypeRef,
    format: Format,
    input: &[u8],
) -> Result<Vec<u8>, RelayFault>
    ensures { Canonicalizes schema.now kind (view_format format) input.now result }
{
    let root = [root_of(alloc, kind)?];
    let fields = DeclaredMembers {
        required: &root,
        optional: &[],
    };
    let graph = decode(alloc, schema, fields, input)?;
    Ok(encode_typed(alloc, schema, fields, graph, format, LARGEST as u32)?)
}

/// The member that stands for a value which is no member of anything.
pub fn root_of(alloc: Global, kind: TypeRef) -> Result<Member, AllocError>
    ensures { IfOk result (λ root. root ≡ root_of kind) }
{
    Ok(Member {
        name: Name::of(alloc, "$value")?,
        kind,
        tag: None,
    })
}
