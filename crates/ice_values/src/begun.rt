//! A value with parts, before the first of them.

ghost use Rattle.std.specs.Prelude.{◌≡◌, ◌<◌, ◌^◌, [], suc, IfOk};
ghost use Rattle.ice_types.specs.declared.kind.TypeRef.TheVariants as kinds;
ghost use Rattle.ice_values.specs.Cost.{wants, weight};
ghost use Rattle.ice_values.specs.Frames.{opened};
ghost use Rattle.ice_values.specs.Leaves.{ReadsLeaf};
ghost use Rattle.ice_values.specs.Rests.{starts_at};

use crate::frame::{Assembly, Each, Frame, Pairs, Part, Parts};
use crate::left::Left;
use crate::sorted::SortedPairs;
use ice_prims::{Cursor, Kind, ReadFault};
use ice_types::{List, Schema, TypeRef};
use std::alloc::{AllocError, Global};

/// A value of the type, whose parts nest at most so deep: its size is read, where it has one. A type
/// without parts is a fault.
pub(crate) fn begun(
    alloc: Global,
    schema: &Schema,
    levels: u32,
    kind: TypeRef,
    cursor: &mut Cursor<'_>,
) -> Result<Frame, ReadFault>
    ensures starts { ReadsLeaf opened result cursor.new (starts_at schema.now levels kind cursor.old) }
    ensures less { IfOk result (λ f. wants schema.now f < weight schema.now (suc levels)) }
{
    match kind {
        TypeRef::Seq(at) => begun_seq(alloc, schema, levels, at, cursor),
        TypeRef::Dict(at) => begun_dict(alloc, schema, levels, at, cursor),
        TypeRef::Struct(at) => begun_struct(alloc, schema, levels, at, cursor),
        TypeRef::Bool
        | TypeRef::Byte
        | TypeRef::Short
        | TypeRef::Int
        | TypeRef::Long
        | TypeRef::Text
        | TypeRef::Enum(_)
        | TypeRef::Proxy(_)
        | TypeRef::Class(_) => Err(ReadFault::Broken(cursor.fault(Kind::LeftOver))),
    }
}

fn begun_seq(
    alloc: Global,
    schema: &Schema,
    levels: u32,
    at: u32,
    cursor: &mut Cursor<'_>,
) -> Result<Frame, ReadFault>
    ensures starts { ReadsLeaf opened result cursor.new (starts_at schema.now levels (kinds.Seq at) cursor.old) }
    ensures less { IfOk result (λ f. wants schema.now f < weight schema.now (suc levels)) }
{
    let nowhere = cursor.fault(Kind::LeftOver);
    let decl = schema.seqs().get(at as usize).ok_or(nowhere)?;
    let count = cursor.take_size()?;
    is_within(count);
    Ok(Frame {
        levels,
        parts: Parts::Each(Each {
            sort: Assembly::Seq,
            left: Left::Items(decl.element, count),
            done: List::new(alloc),
        }),
    })
}

fn begun_dict(
    alloc: Global,
    schema: &Schema,
    levels: u32,
    at: u32,
    cursor: &mut Cursor<'_>,
) -> Result<Frame, ReadFault>
    ensures starts { ReadsLeaf opened result cursor.new (starts_at schema.now levels (kinds.Dict at) cursor.old) }
    ensures less { IfOk result (λ f. wants schema.now f < weight schema.now (suc levels)) }
{
    let nowhere = cursor.fault(Kind::LeftOver);
    let decl = schema.dicts().get(at as usize).ok_or(nowhere)?;
    let count = cursor.take_size()?;
    is_within(count);
    Ok(Frame {
        levels,
        parts: Parts::Pairs(Pairs {
            key: decl.key,
            value: decl.value,
            left: count,
            part: Part::Next,
            done: SortedPairs::new(alloc),
        }),
    })
}

fn begun_struct(
    alloc: Global,
    schema: &Schema,
    levels: u32,
    at: u32,
    cursor: &mut Cursor<'_>,
) -> Result<Frame, ReadFault>
    ensures starts { ReadsLeaf opened result cursor.new (starts_at schema.now levels (kinds.Struct at) cursor.old) }
    ensures less { IfOk result (λ f. wants schema.now f < weight schema.now (suc levels)) }
{
    let nowhere = cursor.fault(Kind::LeftOver);
    let decl = schema.structs().get(at as usize).ok_or(nowhere)?;
    // The schema says how many, and not the input.
    match with_room(alloc, decl.members.len()) {
        Ok(done) => Ok(Frame {
            levels,
            parts: Parts::Each(Each {
                sort: Assembly::Members,
                left: Left::Members(at, 0),
                done,
            }),
        }),
        Err(_) => Err(ReadFault::Memory),
    }
}

/// An empty list with room for so many.
fn with_room<T: Drop>(alloc: Global, count: usize) -> Result<List<T>, AllocError>
    ensures { IfOk result (λ items. items ≡ []) }
{
    Ok(List::from_vec(Vec::with_capacity(alloc, count)?))
}

/// A number of the type is below the type's end.
fn is_within(count: u32)
    ensures { count < 2 ^ 32 }
{
    let _ = count;
}
