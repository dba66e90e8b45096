//! Sequences of bytes, read at once.

ghost use Rattle.std.specs.Prelude.{◌≡◌, ◌↔◌, ◌+◌, IsTrue, length};
ghost use Rattle.ice_prims.specs.declared.fault.Kind.TheVariants as kinds;
ghost use Rattle.graph_arena.specs.View.{view};
ghost use Rattle.ice_values.specs.ByteSequence.{HasByteItems, byte_sequence_at, each_byte_at};
ghost use Rattle.ice_values.specs.Leaves.{ReadsLeaf};

use graph_arena::Value;
use ice_prims::{Cursor, Fault, Kind, ReadFault};
use ice_types::{Bytes, Schema, TypeRef};
use std::alloc::Global;

/// Whether the sequence at this place of its table has bytes as its items.
pub(crate) fn has_byte_items(schema: &Schema, at: u32) -> bool
    ensures { IsTrue result ↔ HasByteItems schema.now at }
{
    match schema.seqs().get(at as usize) {
        Some(decl) => decl.element == TypeRef::Byte,
        None => false,
    }
}

/// The sequence of bytes at the front. Memory is taken for bytes that are there, and never for what the
/// size merely claims.
pub(crate) fn take_byte_sequence(alloc: Global, cursor: &mut Cursor<'_>) -> Result<Value, ReadFault>
    ensures { ReadsLeaf view result cursor.new (byte_sequence_at cursor.old) }
{
    let count = cursor.take_size()?;
    match take_each_byte(count as usize, cursor) {
        Ok(bytes) => match Vec::from_slice(alloc, bytes) {
            Ok(copy) => Ok(Value::Bytes(Bytes::from_vec(copy))),
            Err(_) => Err(ReadFault::Memory),
        },
        Err(fault) => Err(fault),
    }
}

/// So many bytes, which are not copied. Where fewer are left, the fault is behind the last of them.
fn take_each_byte<'a>(count: usize, cursor: &mut Cursor<'a>) -> Result<&'a [u8], ReadFault>
    ensures { ReadsLeaf (λ bytes. bytes.now) result cursor.new (each_byte_at count cursor.old) }
{
    if cursor.left() < count {
        return Err(ReadFault::Broken(short(cursor)));
    }
    match cursor.take_bytes(count) {
        Ok(bytes) => Ok(bytes),
        Err(fault) => Err(ReadFault::Broken(fault)),
    }
}

/// That bytes are missing behind the last one that is left.
fn short(cursor: &Cursor<'_>) -> Fault
    ensures { result ≡ record { place = cursor.now.place + length cursor.now.bytes; kind = kinds.Short } }
{
    let mut ahead = cursor.fork();
    match ahead.take_bytes(cursor.left()) {
        Ok(_) => ahead.fault(Kind::Short),
        Err(_) => unreachable!(),
    }
}
