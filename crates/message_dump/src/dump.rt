//! Messages out of a source, a line each into a sink.

ghost use Rattle.std.specs.Prelude.{◌≡◌, ℕ, List};
ghost use Rattle.std.specs.Io.KnownBytes.{Consumes};
ghost use Rattle.ice_ports.specs.Failures.{count_after};
ghost use Rattle.message_dump.specs.declared.dump.Dump.TheVariants as dumps;
ghost use Rattle.message_dump.specs.Sources.{IsTold, GetsLines, ReadsFrugally, is_read_failed, is_write_failed};

use crate::telling::Telling;
use ice_ports::{Failed, MOST_OF_A_READ, Sink, Source};
use ice_prims::Fault;
use std::alloc::{AllocError, Global};

/// How many messages of one input are told: as many as a client takes of a connection.
pub const MOST_MESSAGES: u32 = ice_messages::MOST_MESSAGES;

/// What telling the messages of an input came to.
#[derive(Clone, Copy, PartialEq, Eq)]
pub enum Dump {
    /// Each message has its line, and nothing follows the last one.
    Finished,
    /// This fault follows the messages that were told. Its place counts from the first byte of the input.
    Refused(Fault),
    /// A read failed. The messages before it were told.
    ReadFailed,
    /// A write failed. The sink has taken a prefix of the lines.
    WriteFailed,
    /// Out of memory, which may come in place of any other answer. The lines of the first messages were written.
    Memory,
}

impl From<AllocError> for Dump {
    ghost from_gives = { λ _ dump. dump ≡ dumps.Memory };

    fn from(_error: AllocError) -> Dump {
        Dump::Memory
    }
}

/// Writes a line for each message of the source, as soon as the message is known and before it reads
/// on. It holds no more than one message and a piece behind it. (Ice manual, "Protocol Messages".)
pub fn dump_messages<S: Source, K: Sink>(alloc: Global, source: &mut S, sink: &mut K) -> Dump
    ensures told { (got lines : List ℕ) × Consumes (S.left source.old) (S.left source.new) got
        × IsTold (S.left source.new) got lines result
        × GetsLines result (K.taken sink.old) (K.taken sink.new) lines }
    ensures frugal { ReadsFrugally (S.left source.old) (S.left source.new) }
    ensures reads { S.failures source.new ≡ count_after (S.failures source.old) (is_read_failed result) }
    ensures writes { K.failures sink.new ≡ count_after (K.failures sink.old) (is_write_failed result) }
{
    let mut telling = Telling::new(alloc);
    let mut buffer = [0; MOST_OF_A_READ];
    loop {
        let count = match source.read(&mut buffer) {
            Ok(0) => return telling.end(),
            Ok(count) => count,
            Err(Failed) => return Dump::ReadFailed,
        };
        if let Err(stop) = telling.take(alloc, &buffer[..count], sink) {
            return stop;
        }
    }
}
