//! The next message of a connection.

ghost use Rattle.std.specs.Prelude.{◌≡◌, ◌++◌, ℕ, List, OnOk};
ghost use Rattle.ice_ports.specs.Failures.{count_after};
ghost use Rattle.ice_ports.specs.Talks.{adds};
ghost use Rattle.talking.specs.Hearing.{Hears, IsGoing, ReadsFrugally, heard_part, is_failed};

use ice_messages::{Frames, Message};
use ice_ports::{Failed, Link, MOST_OF_A_READ, read_link};
use ice_prims::{Fault, ReadFault};
use std::alloc::AllocError;

/// What came over a link.
#[derive(Drop)]
pub enum Heard {
    Message(Message),
    /// What came is no message.
    Broken(Fault),
    /// Nothing more comes.
    Ended,
    /// A read failed.
    Failed,
}

/// Reads until the next message stands. Reads nothing where it stands already.
pub fn hear<L: Link>(link: &mut L, frames: &mut Frames) -> Result<Heard, AllocError>
    requires { IsGoing frames.old }
    ensures heard { (got : List ℕ) × (L.talk link.new ≡ adds (L.talk link.old) (heard_part got result))
        × Hears (frames.old.bytes ++ got) frames.new result
        × ReadsFrugally frames.old.bytes got }
    ensures reads { L.Source.failures link.new ≡ count_after (L.Source.failures link.old) (is_failed result) }
    ensures writes { L.Sink.failures link.new ≡ L.Sink.failures link.old }
{
    let mut buffer = [0; MOST_OF_A_READ];
    loop {
        match frames.next() {
            Ok(Some(message)) => return Ok(Heard::Message(message)),
            Ok(None) => {}
            Err(ReadFault::Broken(fault)) => return Ok(Heard::Broken(fault)),
            Err(ReadFault::Memory) => return Err(AllocError),
        }
        let count = match read_link(link, &mut buffer) {
            Ok(0) => return Ok(Heard::Ended),
            Ok(count) => count,
            Err(Failed) => return Ok(Heard::Failed),
        };
        take_piece(frames, &buffer[..count])?;
    }
}

/// Puts a piece behind what the reader holds.
fn take_piece(frames: &mut Frames, piece: &[u8]) -> Result<(), AllocError>
    requires { IsGoing frames.old }
    ensures { OnOk result ((frames.new.bytes ≡ frames.old.bytes ++ piece.now) × IsGoing frames.new) }
{
    if frames.feed(piece).is_err() {
        return Err(AllocError);
    }
    Ok(())
}
