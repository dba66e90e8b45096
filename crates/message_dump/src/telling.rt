//! How far the messages of an input are told.

ghost use Rattle.std.specs.Prelude.{◌≡◌, ◌<◌, ◌+◌, ◌^◌, [], OnOk, IfOk};
ghost use Rattle.message_dump.specs.Dumps.{fault_at};
ghost use Rattle.message_dump.specs.Sources.{Waits};
ghost use Rattle.message_dump.specs.Steps.{IsSound, TakesNext, TellsOn, StepsTelling, ComesTo, untold, fed};

use crate::dump::{Dump, MOST_MESSAGES};
use crate::lines::message_line;
use ice_messages::{Frames, Message};
use ice_ports::{Failed, Sink, write_all};
use ice_prims::{Fault, Kind, ReadFault};
use std::alloc::Global;

/// How far the messages of an input are told.
#[derive(Drop)]
pub struct Telling {
    /// The bytes behind the messages that were told.
    pub frames: Frames,
    /// How many messages were told.
    pub count: u32,
    /// The place of the first byte that is held.
    pub place: u64,
}

impl Telling {
    /// Nothing is told yet. It takes no memory.
    pub fn new(alloc: Global) -> Telling
        ensures { result ≡ untold [] }
    {
        Telling {
            frames: Frames::new(alloc),
            count: 0,
            place: 0,
        }
    }

    /// Takes a piece of the input, and tells each message that is known then.
    pub fn take<K: Sink>(&mut self, alloc: Global, piece: &[u8], sink: &mut K) -> Result<(), Dump>
        requires { IsSound self.old }
        ensures told { TellsOn (fed self.old piece.now) self.new (K.taken sink.old) (K.taken sink.new)
            (K.failures sink.old) (K.failures sink.new) result }
        ensures all { OnOk result (Waits self.new.count self.new.frames.bytes) }
    {
        if self.frames.feed(piece).is_err() {
            return Err(Dump::Memory);
        }
        self.tell_known(alloc, sink)
    }

    /// What the input comes to that ends here.
    pub fn end(&self) -> Dump
        requires { IsSound self.now }
        ensures { ComesTo self.now result }
    {
        if self.frames.held() == 0 {
            Dump::Finished
        } else {
            self.refused(0, Kind::Short)
        }
    }

    /// Tells each message that is known.
    fn tell_known<K: Sink>(&mut self, alloc: Global, sink: &mut K) -> Result<(), Dump>
        requires { IsSound self.old }
        ensures told { TellsOn self.old self.new (K.taken sink.old) (K.taken sink.new)
            (K.failures sink.old) (K.failures sink.new) result }
        ensures all { OnOk result (Waits self.new.count self.new.frames.bytes) }
    {
        while self.tell_next(alloc, sink)? {}
        Ok(())
    }

    /// Tells the next message. False where none is known.
    fn tell_next<K: Sink>(&mut self, alloc: Global, sink: &mut K) -> Result<bool, Dump>
        requires { IsSound self.old }
        ensures told { TellsOn self.old self.new (K.taken sink.old) (K.taken sink.new)
            (K.failures sink.old) (K.failures sink.new) result }
        ensures step { IfOk result (StepsTelling self.old self.new) }
    {
        let Some((length, message)) = self.next()? else {
            return Ok(false);
        };
        let line = message_line(alloc, length, &message)?;
        match write_all(sink, line.as_bytes()) {
            Ok(()) => Ok(true),
            Err(Failed) => Err(Dump::WriteFailed),
        }
    }

    /// The next message and its length, where it is known. The bytes of the message are held no longer.
    fn next(&mut self) -> Result<Option<(usize, Message)>, Dump>
        requires { IsSound self.old }
        ensures { TakesNext self.old self.new result }
    {
        let held = self.frames.held();
        if self.count == MOST_MESSAGES {
            return if held == 0 {
                Ok(None)
            } else {
                Err(self.refused(0, Kind::Endless))
            };
        }
        match self.frames.next() {
            Ok(None) => Ok(None),
            Ok(Some(message)) => {
                let length = held - self.frames.held();
                self.count += 1;
                self.place += length as u64;
                Ok(Some((length, message)))
            }
            Err(ReadFault::Broken(fault)) => Err(self.refused(fault.place, fault.kind)),
            Err(ReadFault::Memory) => Err(Dump::Memory),
        }
    }

    /// A fault so many bytes behind the first byte that is held.
    fn refused(&self, behind: u64, kind: Kind) -> Dump
        requires { self.now.place + behind < 2 ^ 64 }
        ensures { result ≡ Dump.Refused (fault_at (self.now.place + behind) kind) }
    {
        Dump::Refused(Fault {
            place: self.place + behind,
            kind,
        })
    }
}
