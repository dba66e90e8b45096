//! A message into a connection.

ghost use Rattle.std.specs.Prelude.{◌≡◌, ◌≤◌, [], ◌∷◌, IfOk, length};
ghost use Rattle.ice_encoding.specs.declared.limits.TheConstants.{LARGEST};
ghost use Rattle.ice_ports.specs.Talks.{adds};
ghost use Rattle.ice_ports.specs.declared.talk.Talk.{Talk};
ghost use Rattle.ice_messages.specs.Messages.{SpellsMessage, message_bytes};
ghost use Rattle.ice_messages.specs.Written.{IsWritable};
ghost use Rattle.talking.specs.Said.{Counts, Says, fails_said};

use crate::writing::write_bytes;
use ice_messages::{Message, WriteFault, write_message};
use ice_ports::Link;
use ice_types::Bytes;
use std::alloc::{AllocError, Global};

/// Writes a message. False where a write failed.
pub fn say<L: Link>(alloc: Global, link: &mut L, message: &Message) -> Result<bool, AllocError>
    requires writable { IsWritable message.now }
    requires short { length (message_bytes message.now) ≤ LARGEST }
    ensures did { (t : Talk) × (L.talk link.new ≡ adds (L.talk link.old) t) × Says (message.now ∷ []) t result }
    ensures counts { Counts (fails_said result) (L.Source.failures link.old, L.Sink.failures link.old)
        (L.Source.failures link.new, L.Sink.failures link.new) }
{
    let bytes = bytes_of(alloc, message)?;
    let piece = bytes.as_slice();
    Ok(write_bytes(link, piece) == piece.len())
}

/// The bytes of a message that is no longer than one may be.
fn bytes_of(alloc: Global, message: &Message) -> Result<Bytes, AllocError>
    requires writable { IsWritable message.now }
    requires short { length (message_bytes message.now) ≤ LARGEST }
    ensures { IfOk result
        (λ bytes. (bytes ≡ message_bytes message.now) × SpellsMessage bytes message.now) }
{
    match write_message(alloc, message) {
        Ok(bytes) => Ok(bytes),
        Err(WriteFault::Memory) => Err(AllocError),
        Err(WriteFault::TooLong(_)) => unreachable!(),
    }
}
