//! What every object has. (Ice manual, "The Object Base Interface".)

ghost use Rattle.std.specs.Prelude.{◌≡◌, ◌<◌, ◌↔◌, IfOk, IsTrue, codes, length, slice_get};
ghost use Rattle.ice_types.specs.Tables.{Finds};
ghost use Rattle.ice_prims.specs.Bytes.{bool_bytes, text_bytes};
ghost use Rattle.ice_encoding.specs.TypedGraph.{OfType};
ghost use Rattle.value_parts.specs.Shapes.{told_apart};
ghost use Rattle.object_adapter.specs.declared.refusal.Refusal.TheVariants as refusals;
ghost use Rattle.object_adapter.specs.Refusals.{Outcome};
ghost use Rattle.object_adapter.specs.Own.{HasObjectId, IsNamed, OwnActs, OwnGives, OwnGivesIn, OwnOverflows};
ghost use Rattle.object_adapter.specs.Own.{OwnRefuses, id_in, own_shape};

use crate::admitting::{admit, only_id};
use crate::arguments::sole_text;
use crate::enclosing::enclose;
use crate::ids::ids_content;
use crate::refusal::{LONGEST, Refusal, Unanswered};
use crate::results::Results;
use graph_arena::Graph;
use ice_messages::Call;
use ice_prims::{put_bool, put_str};
use ice_types::{List, Schema, Shape, TypeRef};
use std::alloc::{AllocError, Global};

/// An operation that every object has.
#[derive(Clone, Copy)]
pub enum Own {
    /// Does nothing.
    Ping,
    /// Whether the object has the interface of an id.
    IsA,
    /// The id of its interface.
    Id,
    /// The ids of its interface, of all bases of that, and of `Object`.
    Ids,
}

/// The operation of this name that every object has.
pub(crate) fn own_of(name: &str) -> Option<Own>
    ensures { Finds (IsNamed name.now) result }
{
    match name {
        "ice_ping" => Some(Own::Ping),
        "ice_isA" => Some(Own::IsA),
        "ice_id" => Some(Own::Id),
        "ice_ids" => Some(Own::Ids),
        _ => None,
    }
}

/// The results of an operation that every object has, or why the call is refused.
pub(crate) fn act_own(
    alloc: Global,
    schema: &Schema,
    interface: u32,
    own: Own,
    call: &Call,
) -> Result<Results, Unanswered>
    ensures { Outcome (OwnActs schema.now interface own call.now)
        (OwnRefuses schema.now interface own call.now) result }
{
    let shape = own_shape(alloc, own)?;
    let results = act_by(alloc, schema, interface, own, &shape, call);
    drop(shape);
    results
}

/// The same, with the arguments that it takes.
fn act_by(
    alloc: Global,
    schema: &Schema,
    interface: u32,
    own: Own,
    shape: &Shape,
    call: &Call,
) -> Result<Results, Unanswered>
    requires { shape.now ≡ own_shape own }
    ensures { Outcome (OwnActs schema.now interface own call.now)
        (OwnRefuses schema.now interface own call.now) result }
{
    let arguments = admit(alloc, schema, true, shape, call)?;
    let results = give(alloc, schema, interface, own, &arguments);
    drop(arguments);
    results
}

/// The results with these arguments.
fn give(
    alloc: Global,
    schema: &Schema,
    interface: u32,
    own: Own,
    arguments: &Graph,
) -> Result<Results, Unanswered>
    requires { OfType schema.now (told_apart (own_shape own)) arguments.now }
    ensures { Outcome (OwnGivesIn schema.now interface own arguments.now)
        (OwnOverflows schema.now interface own arguments.now) result }
{
    let content = own_content(alloc, schema, interface, own, arguments)?;
    enclose(alloc, content.as_slice())
}

/// The arguments that it takes.
fn own_shape(alloc: Global, own: Own) -> Result<Shape, AllocError>
    ensures { IfOk result (λ shape. shape ≡ own_shape own) }
{
    match own {
        Own::IsA => only_id(alloc, TypeRef::Text),
        Own::Ping | Own::Id | Own::Ids => Ok(Shape {
            required: List::new(alloc),
            optional: List::new(alloc),
        }),
    }
}

/// What the results hold.
fn own_content(
    alloc: Global,
    schema: &Schema,
    interface: u32,
    own: Own,
    arguments: &Graph,
) -> Result<Vec<u8>, Unanswered>
    requires { OfType schema.now (told_apart (own_shape own)) arguments.now }
    ensures { Outcome (λ content. OwnGives schema.now interface own arguments.now content.items)
        (OwnOverflows schema.now interface own arguments.now) result }
{
    match own {
        Own::Ping => Ok(Vec::new(alloc)),
        Own::IsA => {
            let has = has_object_id(schema, interface, sole_text(arguments));
            Ok(bool_content(alloc, has)?)
        }
        Own::Id => text_content(alloc, id_of(schema, interface)),
        Own::Ids => ids_content(alloc, schema, interface),
    }
}

/// The content of results that are a truth value.
fn bool_content(alloc: Global, value: bool) -> Result<Vec<u8>, AllocError>
    ensures { IfOk result (λ content. content.items ≡ bool_bytes value) }
{
    let mut out = Vec::new(alloc);
    put_bool(&mut out, value)?;
    Ok(out)
}

/// The content of results that are a text, where it is not longer than results may be.
fn text_content(alloc: Global, text: &str) -> Result<Vec<u8>, Unanswered>
    ensures { Outcome (λ content. content.items ≡ text_bytes text.now)
        (λ refusal. (refusal ≡ refusals.TooLong) × (LONGEST < length text.now)) result }
{
    if text.len() > LONGEST as usize {
        return Err(Unanswered::Refused(Refusal::TooLong));
    }
    let mut out = Vec::new(alloc);
    put_str(&mut out, text)?;
    Ok(out)
}

/// The id of the interface, and nothing where there is none.
pub(crate) fn id_of(schema: &Schema, interface: u32) -> &str
    ensures { result.now ≡ id_in (slice_get schema.now.interfaces interface) }
{
    match schema.interfaces().get(interface as usize) {
        Some(decl) => decl.id.as_str(),
        None => "",
    }
}

/// Whether it is the id that every object has.
fn is_object(id: &str) -> bool
    ensures { IsTrue result ↔ (id.now ≡ codes "::Ice::Object") }
{
    id == "::Ice::Object"
}

/// Whether it is the id of the interface, of one of its bases, or of `Object`.
fn has_object_id(schema: &Schema, interface: u32, id: &str) -> bool
    ensures { IsTrue result ↔ HasObjectId schema.now interface id.now }
{
    if is_object(id) {
        return true;
    }
    schema.rules();
    match schema.interface(id) {
        Some(at) => schema.interface_is_a(interface, at),
        None => false,
    }
}
