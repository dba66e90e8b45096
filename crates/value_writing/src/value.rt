//! Values, written in one piece.

ghost use Rattle.std.specs.Prelude.{◌≡◌, OnErr};
ghost use Rattle.ice_prims.specs.Bytes.{Grows};
ghost use Rattle.ice_encoding.specs.Canonical.{HasSizes};
ghost use Rattle.graph_arena.specs.View.{view};
ghost use Rattle.value_writing.specs.Putting.{InsideWritten, WritesValue};

use crate::put_port::PutPort;
use crate::writer::ValueWriter;
use graph_arena::Value;
use std::alloc::{AllocError, Global};
use value_parts::Paused;

/// Puts the value's bytes at the end of the output, at a port at which nothing begins. Out of memory
/// leaves the output as it was, and the port anywhere on the way.
/// (Ice manual, "Data Encoding".)
pub fn write_value<P: PutPort>(
    alloc: Global,
    value: &Value,
    out: &mut Vec<u8>,
    port: &mut P,
) -> Result<(), AllocError>
    requires room { P.room port.old ≡ 0 }
    requires sizes { HasSizes (view value.now) }
    ensures writes { (inside : InsideWritten P)
        → WritesValue P.put inside (view value.now) result port.old out.old.items port.new out.new.items }
    ensures err { OnErr result (out.new.items ≡ out.old.items) }
{
    let start = out.len();
    let result = append_value(alloc, value, out, port);
    if result.is_err() {
        out.truncate(start);
    }
    result
}

/// The same, but out of memory may leave a part of them there.
fn append_value<P: PutPort>(
    alloc: Global,
    value: &Value,
    out: &mut Vec<u8>,
    port: &mut P,
) -> Result<(), AllocError>
    requires room { P.room port.old ≡ 0 }
    requires sizes { HasSizes (view value.now) }
    ensures writes { (inside : InsideWritten P)
        → WritesValue P.put inside (view value.now) result port.old out.old.items port.new out.new.items }
    ensures grows { Grows out.old.items out.new.items }
{
    let mut writer = ValueWriter::of(alloc, value)?;
    match writer.go(out, port) {
        Ok(Paused::Done(())) => Ok(()),
        Ok(Paused::Begins(_)) => unreachable!(),
        Err(error) => Err(error),
    }
}
