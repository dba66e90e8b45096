//! Values as results.

ghost use Rattle.std.specs.Prelude.{◌≡◌, IfOk};
ghost use Rattle.ice_encoding.specs.TypedGraph.{OfType};
ghost use Rattle.value_parts.specs.Shapes.{told_apart};
ghost use Rattle.object_adapter.specs.Writing as spec;

use crate::refusal::LONGEST;
use crate::results::Results;
use class_slices::{Format, WriteFault, encode_typed};
use graph_arena::Graph;
use ice_types::{Schema, Shape};
use std::alloc::{AllocError, Global};
use value_parts::DeclaredMembers;

/// The canonical encapsulation of values of this shape, in sliced format, None where it is longer than
/// results may be. (Ice manual, "Data Encoding for Class and Exception Types".)
pub(crate) fn written(
    alloc: Global,
    schema: &Schema,
    shape: &Shape,
    values: Graph,
) -> Result<Option<Results>, AllocError>
    requires { OfType schema.now (told_apart shape.now) values }
    ensures { IfOk result (λ bytes. bytes ≡ spec.written schema.now shape.now values) }
{
    let fields = DeclaredMembers {
        required: shape.required.as_slice(),
        optional: shape.optional.as_slice(),
    };
    match encode_typed(alloc, schema, fields, values, Format::Sliced, LONGEST) {
        Ok(bytes) => Ok(Some(Results::of(bytes))),
        Err(WriteFault::TooLong(_)) => Ok(None),
        Err(_) => Err(AllocError),
    }
}
