//! The value of a type that is all zeros. (Ice manual, "Structures", "Classes".)

ghost use Rattle.std.specs.Prelude.{◌≡◌, IfOk, map, slice_get, suc};
ghost use Rattle.ice_types.specs.declared.schema.TheConstants.{MOST_DEPTH};
ghost use Rattle.graph_arena.specs.View.{view};
ghost use Rattle.value_checks.specs.Zeros as spec;
ghost use Rattle.value_checks.specs.Zeros.{zero_of};

use graph_arena::Value;
use ice_types::{List, MOST_DEPTH, Member, Name, Schema, TypeRef};
use std::alloc::{AllocError, Global};

/// The value of a type that is all zeros: false, 0, the empty text, no items, no pairs, the first
/// enumerator, the null proxy, the null reference, and a struct of such members. It is refused where there
/// is no memory for it. (Ice manual, "Structures", "Classes".)
pub fn zero(alloc: Global, schema: &Schema, kind: TypeRef) -> Result<Value, AllocError>
    ensures { IfOk result (λ value. view value ≡ zero_of schema.now MOST_DEPTH kind) }
{
    zero_at(alloc, schema, MOST_DEPTH, kind)
}

/// Of a type that nests at most so deep.
#[cycle(zeros)]
fn zero_at(alloc: Global, schema: &Schema, levels: u32, kind: TypeRef) -> Result<Value, AllocError>
    ensures { IfOk result (λ value. view value ≡ zero_of schema.now levels kind) }
{
    if levels == 0 {
        Ok(Value::Reference(None))
    } else {
        zero_form(alloc, schema, levels - 1, kind)
    }
}

/// Of a type whose parts nest at most so deep.
#[cycle(zeros)]
#[tactic(auto, unfolding(crate::specs::Zeros::zero_of))]
fn zero_form(
    alloc: Global,
    schema: &Schema,
    levels: u32,
    kind: TypeRef,
) -> Result<Value, AllocError>
    ensures { IfOk result (λ value. view value ≡ zero_of schema.now (suc levels) kind) }
{
    match kind {
        TypeRef::Bool => Ok(Value::Bool(false)),
        TypeRef::Byte => Ok(Value::Byte(0)),
        TypeRef::Short => Ok(Value::Short(0)),
        TypeRef::Int => Ok(Value::Int(0)),
        TypeRef::Long => Ok(Value::Long(0)),
        TypeRef::Text => Ok(Value::Text(Name::of(alloc, "")?)),
        TypeRef::Seq(_) => Ok(Value::Seq(List::new(alloc))),
        TypeRef::Dict(_) => Ok(Value::Pairs(List::new(alloc))),
        TypeRef::Struct(at) => {
            let members = members_of(schema, at);
            Ok(Value::Members(zeros(alloc, schema, levels, members)?))
        }
        TypeRef::Enum(at) => Ok(Value::Enum(first_number(schema, at))),
        TypeRef::Proxy(_) => Ok(Value::Proxy(None)),
        TypeRef::Class(_) => Ok(Value::Reference(None)),
    }
}

/// The members of the struct at a place, none where no struct is.
fn members_of(schema: &Schema, at: u32) -> &[Member]
    ensures { result.now ≡ spec.members_in (slice_get schema.now.structs at) }
{
    match schema.structs().get(at as usize) {
        Some(decl) => decl.members.as_slice(),
        None => &[],
    }
}

/// The number of the first enumerator of the enum at a place.
fn first_number(schema: &Schema, at: u32) -> u32
    ensures { result ≡ spec.first_number (spec.entries_in (slice_get schema.now.enums at)) }
{
    match schema.enums().get(at as usize) {
        Some(decl) => match decl.entries.as_slice().first() {
            Some(entry) => entry.number,
            None => 0,
        },
        None => 0,
    }
}

/// Of the type of each member.
#[cycle(zeros)]
fn zeros(
    alloc: Global,
    schema: &Schema,
    levels: u32,
    members: &[Member],
) -> Result<List<Value>, AllocError>
    ensures { IfOk result (λ values. map view values ≡ map (λ m. zero_of schema.now levels m.kind) members.now) }
{
    let mut values = Vec::with_capacity(alloc, members.len())?;
    for member in members {
        values.push(zero_at(alloc, schema, levels, member.kind)?)?;
    }
    Ok(List::from_vec(values))
}
