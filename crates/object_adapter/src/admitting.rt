//! What is tried of a call before an object acts.

ghost use Rattle.std.specs.Prelude.{◌≡◌, ◌↔◌, IsTrue, IfOk};
ghost use Rattle.ice_encoding.specs.TypedGraph.{OfType};
ghost use Rattle.value_parts.specs.Shapes.{told_apart};
ghost use Rattle.object_adapter.specs.Refusals.{Outcome};
ghost use Rattle.object_adapter.specs.Admitting.{Comes, ModeFits, Stops, only_id};

use crate::refusal::{Refusal, Unanswered};
use class_slices::decode;
use graph_arena::Graph;
use ice_messages::Call;
use ice_types::{List, Member, Name, Schema, Shape, TypeRef};
use std::alloc::{AllocError, Global};
use value_parts::DeclaredMembers;

/// The arguments of a call of an operation that takes these, and that may be called again or not; or that
/// the mode is none for it, or else the first fault of the arguments. (Ice manual, "Request Message".)
pub(crate) fn admit(
    alloc: Global,
    schema: &Schema,
    again: bool,
    shape: &Shape,
    call: &Call,
) -> Result<Graph, Unanswered>
    ensures admits { Outcome (λ graph. Comes schema.now again shape.now call.now graph)
        (Stops schema.now again shape.now call.now) result }
    ensures typed { IfOk result (λ graph. OfType schema.now (told_apart shape.now) graph) }
{
    if !mode_fits(again, call.mode) {
        return Err(Unanswered::Refused(Refusal::BadMode));
    }
    let fields = DeclaredMembers {
        required: shape.required.as_slice(),
        optional: shape.optional.as_slice(),
    };
    Ok(decode(alloc, schema, fields, call.body.as_slice())?)
}

/// One argument of this type, which is an id.
pub(crate) fn only_id(alloc: Global, kind: TypeRef) -> Result<Shape, AllocError>
    ensures { IfOk result (λ shape. shape ≡ only_id kind) }
{
    let name = Name::of(alloc, "id")?;
    let mut required = List::new(alloc);
    match required.push(Member {
        name,
        kind,
        tag: None,
    }) {
        Ok(()) => Ok(Shape {
            required,
            optional: List::new(alloc),
        }),
        Err(error) => {
            drop(required);
            Err(error)
        }
    }
}

/// Whether an operation that may be called again, or not, takes this mode.
fn mode_fits(again: bool, mode: u8) -> bool
    ensures { IsTrue result ↔ ModeFits again mode }
{
    match again {
        true => mode == 1 || mode == 2,
        false => mode == 0,
    }
}
