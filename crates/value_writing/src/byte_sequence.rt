//! Sequences of bytes, written at once.

ghost use Rattle.std.specs.Prelude.{◌≡◌, ◌++◌, ◌<◌, ◌^◌, OnOk, length};
ghost use Rattle.ice_prims.specs.Bytes.{Grows};
ghost use Rattle.value_writing.specs.ByteSequence.{sequence_bytes};

use ice_prims::put_size;
use ice_types::Bytes;
use std::alloc::AllocError;

/// Puts the bytes as a sequence at the end of the output. Out of memory may leave a part of it there.
pub(crate) fn put_byte_sequence(bytes: &Bytes, out: &mut Vec<u8>) -> Result<(), AllocError>
    requires { length bytes.now < 2 ^ 31 }
    ensures ok { OnOk result (out.new.items ≡ out.old.items ++ sequence_bytes bytes.now) }
    ensures grows { Grows out.old.items out.new.items }
{
    put_size(out, bytes.len() as u32)?;
    out.extend_from_slice(bytes.as_slice())
}
