//! Bytes to a sink.

ghost use Rattle.std.specs.List.{flat_map};
ghost use Rattle.ice_ports.specs.Writing.{Writes};

use crate::ports::{Failed, Sink};

/// Writes all of the bytes. A sink that fails has taken a prefix of them, not all, and is not asked again.
pub fn write_all<K: Sink>(sink: &mut K, bytes: &[u8]) -> Result<(), Failed>
    ensures { Writes (K.taken sink.old) (K.taken sink.new)
        (K.failures sink.old) (K.failures sink.new) result bytes.now }
{
    let mut at = 0;
    while at < bytes.len() {
        at += sink.write(&bytes[at..])?;
    }
    Ok(())
}

/// Writes the texts one after the other, likewise.
pub fn write_pieces<K: Sink>(sink: &mut K, pieces: &[&str]) -> Result<(), Failed>
    ensures { Writes (K.taken sink.old) (K.taken sink.new)
        (K.failures sink.old) (K.failures sink.new) result
        (flat_map (λ piece. piece.now) pieces.now) }
{
    for piece in pieces {
        write_all(sink, piece.as_bytes())?;
    }
    Ok(())
}
