//! Values without parts, as they are read.

ghost use Rattle.ice_encoding.specs.Proxy as parts;
ghost use Rattle.ice_encoding.specs.Enum.{enumerator_at};
ghost use Rattle.graph_arena.specs.View.{unboxed, view};
ghost use Rattle.ice_values.specs.Leaves.{leaf_at, ReadsLeaf, Sees};

use encaps_optionals::read_proxy;
use graph_arena::Value;
use ice_prims::{Cursor, Fault, Kind, ReadFault};
use ice_types::{Entry, Name, Proxy, Schema, TypeRef};
use std::alloc::Global;
use value_parts::has_number;

/// The value at the front of a type without parts. One of any other type is a fault.
pub(crate) fn take_leaf(
    alloc: Global,
    schema: &Schema,
    kind: TypeRef,
    cursor: &mut Cursor<'_>,
) -> Result<Value, ReadFault>
    ensures { ReadsLeaf view result cursor.new (leaf_at schema.now kind cursor.old) }
{
    let nowhere = cursor.fault(Kind::LeftOver);
    match kind {
        TypeRef::Bool => Ok(Value::Bool(cursor.take_bool()?)),
        TypeRef::Byte => Ok(Value::Byte(cursor.take_byte()?)),
        TypeRef::Short => Ok(Value::Short(cursor.take_short()?)),
        TypeRef::Int => Ok(Value::Int(cursor.take_int()?)),
        TypeRef::Long => Ok(Value::Long(cursor.take_long()?)),
        TypeRef::Text => Ok(Value::Text(Name::of(alloc, cursor.take_str()?)?)),
        TypeRef::Enum(at) => {
            let decl = schema.enums().get(at as usize).ok_or(nowhere)?;
            Ok(Value::Enum(take_enumerator(decl.entries.as_slice(), cursor)?))
        }
        TypeRef::Proxy(_) => Ok(Value::Proxy(take_proxy(alloc, cursor)?)),
        TypeRef::Seq(_) | TypeRef::Dict(_) | TypeRef::Struct(_) | TypeRef::Class(_) => {
            Err(ReadFault::Broken(nowhere))
        }
    }
}

/// A proxy, None for null.
fn take_proxy(alloc: Global, cursor: &mut Cursor<'_>) -> Result<Option<Box<Proxy>>, ReadFault>
    ensures { ReadsLeaf unboxed result cursor.new (parts.proxy.read cursor.old) }
{
    match read_proxy(alloc, cursor)? {
        Some(proxy) => Ok(Some(Box::new(alloc, proxy)?)),
        None => Ok(None),
    }
}

/// The number of one of these entries.
fn take_enumerator(entries: &[Entry], cursor: &mut Cursor<'_>) -> Result<u32, Fault>
    ensures { Sees result cursor.new (enumerator_at entries.now cursor.old) }
{
    let unknown = cursor.fault(Kind::BadEnum);
    let number = cursor.take_size()?;
    if has_number(entries, number) {
        Ok(number)
    } else {
        Err(unknown)
    }
}
