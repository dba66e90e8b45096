//! A user exception in bytes, with the instances that begin in it.

ghost use Rattle.std.specs.Prelude.{◌≡◌, ◌++◌, OnOk};
ghost use Rattle.ice_encoding.specs.UserExceptionWritten.{user_exception_bytes};
ghost use Rattle.graph_arena.specs.Seen.{view_slices};
ghost use Rattle.instance_writing.specs.Formats.{view_format};
ghost use Rattle.instance_writing.specs.Writable.{UserExceptionCanBeWritten, user_exception_of};

use crate::encode::put_instance;
use crate::encoder::Encoder;
use crate::format::Format;
use crate::pen::Pen;
use crate::slice::Desk;
use crate::unfinished::Unfinished;
use graph_arena::{Graph, Slice};
use ice_types::Schema;
use std::alloc::{AllocError, Global};
use value_parts::{Paused, SlicedType};

/// Puts the content, in the format, of the user exception of these slices and of the instances of the graph
/// at the end of the output, where these are named by the order in which the slices visit them first. The
/// roots of the graph are passed over. Out of memory may leave a part of it there; so may a slice or an
/// optional value of more bytes than the greatest int, or a table of more entries, which is answered as that
/// is. Slices that were kept of types that are not known have no place in compact format: of each only the
/// flags are written, and the type id where one stands, so ask before whether there are any.
/// (Ice manual, "Data Encoding for Class and Exception Types".)
pub fn write_user_exception(
    alloc: Global,
    schema: &Schema,
    format: Format,
    slices: &[Slice],
    graph: &Graph,
    out: &mut Vec<u8>,
) -> Result<(), AllocError>
    requires { UserExceptionCanBeWritten schema.now (user_exception_of (view_slices slices.now) graph.now) }
    ensures { OnOk result (out.new.items
        ≡ out.old.items ++ user_exception_bytes schema.now (view_format format)
        (user_exception_of (view_slices slices.now) graph.now)) }
{
    let encoder = Encoder {
        alloc,
        schema,
        format,
    };
    let mut pen = Pen::new(alloc);
    let mut desk = Desk::new(alloc, graph.len())?;
    let mut user_exception = Unfinished::new(slices);
    loop {
        match user_exception.go(&encoder, SlicedType::Exception, &mut pen, &mut desk, out)? {
            Paused::Done(()) => return Ok(()),
            Paused::Begins(name) => {
                put_instance(&encoder, graph, name, &mut pen, &mut desk, out)?;
            }
        }
    }
}
