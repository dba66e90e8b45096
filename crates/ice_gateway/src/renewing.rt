//! Bodies that are written anew. (Ice manual, "Data Encoding for Class and Exception Types" and "User Exceptions".)

ghost use Rattle.std.specs.Prelude.{◌≡◌, IfOk, Ok};
ghost use Rattle.ice_encoding.specs.TypedGraph.{OfType};
ghost use Rattle.ice_encoding.specs.UserExceptionTyped.{OfUserException};
ghost use Rattle.value_parts.specs.Shapes.{shape_seen};
ghost use Rattle.class_slices.specs.Seen.{view_user_exception};
ghost use Rattle.ice_gateway.specs.Anew.{body_anew, exception_anew, graph_anew, raised_anew};
ghost use Rattle.ice_gateway.specs.Laws.{IsRenewed};

use class_slices::{
    Format, UserException, UserExceptionFault, WriteFault, decode, encode_typed, read_exception,
    write_exception,
};
use graph_arena::Graph;
use ice_prims::{Fault, ReadFault};
use ice_types::{Bytes, Schema, Shape};
use object_adapter::LONGEST;
use std::alloc::{AllocError, Global};
use value_parts::DeclaredMembers;

/// A body that was written anew.
#[derive(Drop)]
pub enum Renewed {
    /// Its canonical bytes, in sliced format.
    Written(Bytes),
    /// They are more than a body may have.
    TooLong,
    /// It is no encapsulation of what is due: its first fault.
    Broken(Fault),
}

/// The body of values of this shape.
pub(crate) fn renew(
    alloc: Global,
    schema: &Schema,
    shape: &Shape,
    body: &[u8],
) -> Result<Renewed, AllocError>
    ensures anew { IfOk result (λ renewed. renewed ≡ body_anew schema.now shape.now body.now) }
    ensures short { IfOk result IsRenewed }
{
    let fields = DeclaredMembers {
        required: shape.required.as_slice(),
        optional: shape.optional.as_slice(),
    };
    match decode(alloc, schema, fields, body) {
        Ok(graph) => graph_written(alloc, schema, fields, graph),
        Err(ReadFault::Broken(fault)) => Ok(Renewed::Broken(fault)),
        Err(ReadFault::Memory) => Err(AllocError),
    }
}

/// The graph in its canonical bytes.
fn graph_written(
    alloc: Global,
    schema: &Schema,
    fields: DeclaredMembers<'_>,
    graph: Graph,
) -> Result<Renewed, AllocError>
    requires { OfType schema.now (shape_seen fields) graph }
    ensures anew { IfOk result (λ renewed. renewed ≡ graph_anew schema.now (shape_seen fields.entry) (Ok graph)) }
    ensures short { IfOk result IsRenewed }
{
    match encode_typed(alloc, schema, fields, graph, Format::Sliced, LONGEST) {
        Ok(bytes) => Ok(Renewed::Written(Bytes::from_vec(bytes))),
        Err(WriteFault::TooLong(_)) => Ok(Renewed::TooLong),
        Err(WriteFault::Memory) => Err(AllocError),
        Err(WriteFault::UnknownNeedsSliced(_)) => unreachable!(),
    }
}

/// The body of a user exception.
pub(crate) fn renew_exception(
    alloc: Global,
    schema: &Schema,
    body: &[u8],
) -> Result<Renewed, AllocError>
    ensures anew { IfOk result (λ renewed. renewed ≡ exception_anew schema.now body.now) }
    ensures short { IfOk result IsRenewed }
{
    match read_exception(alloc, schema, body) {
        Ok(exception) => exception_written(alloc, schema, exception),
        Err(ReadFault::Broken(fault)) => Ok(Renewed::Broken(fault)),
        Err(ReadFault::Memory) => Err(AllocError),
    }
}

/// The exception in its canonical bytes.
fn exception_written(
    alloc: Global,
    schema: &Schema,
    exception: UserException,
) -> Result<Renewed, AllocError>
    requires { OfUserException schema.now (view_user_exception exception) }
    ensures anew { IfOk result (λ renewed. renewed ≡ raised_anew schema.now (Ok (view_user_exception exception))) }
    ensures short { IfOk result IsRenewed }
{
    match write_exception(alloc, schema, exception, Format::Sliced, LONGEST) {
        Ok(bytes) => Ok(Renewed::Written(Bytes::from_vec(bytes))),
        Err(UserExceptionFault::TooLong(_)) => Ok(Renewed::TooLong),
        Err(UserExceptionFault::Memory) => Err(AllocError),
        Err(UserExceptionFault::IllTyped(_)) => unreachable!(),
        Err(UserExceptionFault::UnknownNeedsSliced(_)) => unreachable!(),
    }
}
