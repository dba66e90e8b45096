//! Values, read in one piece.

ghost use Rattle.std.specs.Prelude.{◌≡◌, OnErr};
ghost use Rattle.ice_encoding.specs.Pausing.{Inside};
ghost use Rattle.ice_values.specs.Going.{ReadsValue, left_of, whole_at};

use crate::reader::ValueReader;
use graph_arena::Value;
use ice_prims::{Cursor, ReadFault};
use ice_types::{Schema, TypeRef};
use std::alloc::Global;
use value_parts::{Paused, RefPort};

/// The value of the type at the front, with the first fault from the left, at a port at which nothing
/// begins. A refusal leaves the cursor as it was, and the port anywhere on the way. Memory is taken for what is
/// read, never for what a size merely claims.
/// (Ice manual, "Data Encoding".)
pub fn read_value<P: RefPort>(
    alloc: Global,
    schema: &Schema,
    kind: TypeRef,
    cursor: &mut Cursor<'_>,
    port: &mut P,
) -> Result<Value, ReadFault>
    requires { P.room port.old ≡ 0 }
    ensures reads { (inside : Inside P)
        → ReadsValue result (whole_at P.take schema.now inside kind port.old cursor.old) port.new cursor.new }
    ensures refused { OnErr result (cursor.new ≡ cursor.old) }
{
    let mut ahead = cursor.fork();
    match read_on(alloc, schema, kind, &mut ahead, port) {
        Ok(value) => {
            *cursor = ahead;
            Ok(value)
        }
        Err(fault) => Err(fault),
    }
}

/// The same, but a refusal leaves the cursor anywhere on the way.
fn read_on<P: RefPort>(
    alloc: Global,
    schema: &Schema,
    kind: TypeRef,
    cursor: &mut Cursor<'_>,
    port: &mut P,
) -> Result<Value, ReadFault>
    requires { P.room port.old ≡ 0 }
    ensures { (inside : Inside P)
        → ReadsValue result (whole_at P.take schema.now inside kind port.old cursor.old) port.new cursor.new }
{
    let mut reader = ValueReader::new(alloc, kind);
    let result = finish(alloc, schema, &mut reader, cursor, port);
    drop(reader);
    result
}

/// Reads on up to the end of the value, at a port at which nothing begins.
fn finish<P: RefPort>(
    alloc: Global,
    schema: &Schema,
    reader: &mut ValueReader,
    cursor: &mut Cursor<'_>,
    port: &mut P,
) -> Result<Value, ReadFault>
    requires { P.room port.old ≡ 0 }
    ensures { (inside : Inside P)
        → ReadsValue result (left_of P.take schema.now inside reader.old port.old cursor.old) port.new cursor.new }
{
    match reader.go(alloc, schema, cursor, port) {
        Ok(Paused::Done(value)) => Ok(value),
        Ok(Paused::Begins(_)) => unreachable!(),
        Err(fault) => Err(fault),
    }
}
