//! Messages that come in pieces.

ghost use Rattle.std.specs.Prelude.{◌≡◌, ◌≤◌, drop, length};
ghost use Rattle.ice_messages.specs.Framing.{Feeds, NextOf, nothing_held};

use crate::fault::FeedFault;
use crate::message::Message;
use crate::next::next_in;
use ice_prims::{Fault, ReadFault};
use std::alloc::Global;
use std::marker::Model;

/// A reader of messages that come in pieces, as from a connection. Contracts see the bytes that it holds and the fault
/// that has stopped it.
#[derive(Drop)]
pub struct Frames {
    alloc: Global,
    /// What was fed. The messages that were handed out stand before `head`.
    fed: Vec<u8>,
    head: usize,
    stopped: Option<Fault>,
}

impl Model for Frames {
    ghost use Rattle.std.specs.Prelude.{◌≤◌, drop, length};
    ghost use Rattle.ice_messages.specs.Framing.{Held};

    ghost Value = { Held };

    ghost view = { λ f. record { bytes = drop f.head f.fed.items; stopped = f.stopped } };

    ghost invariant = { λ f. f.head ≤ length f.fed.items };
}

impl Frames {
    /// A reader that holds nothing, which takes no memory.
    pub fn new(alloc: Global) -> Frames
        ensures { result ≡ nothing_held }
    {
        Frames {
            alloc,
            fed: Vec::new(alloc),
            head: 0,
            stopped: None,
        }
    }

    /// Takes a piece of any length, behind those before it. `Stopped` after a fault; it and want of memory leave the
    /// reader as it was.
    pub fn feed(&mut self, piece: &[u8]) -> Result<(), FeedFault>
        ensures { Feeds piece.now self.old self.new result }
    {
        if self.stopped.is_some() {
            return Err(FeedFault::Stopped);
        }
        self.forget();
        self.fed.extend_from_slice(piece)?;
        Ok(())
    }

    /// Moves what is held to the front, once it is no more than what stands before it: so each byte is moved at most as
    /// often as one was handed out.
    fn forget(&mut self)
        ensures { self.new ≡ self.old }
    {
        if self.head >= self.fed.len() - self.head {
            self.fed.drain(..self.head);
            self.head = 0;
        }
    }

    /// Lets go of so many bytes.
    fn skip(&mut self, count: usize)
        requires { count ≤ length self.old.bytes }
        ensures { self.new ≡ record { bytes = drop count self.old.bytes; stopped = self.old.stopped } }
    {
        self.head += count;
    }

    /// The next message, whose bytes are held no longer. None while it is not whole. After a fault, whose place counts
    /// from the first byte of its message, the reader has stopped and answers that fault again. Want of memory
    /// leaves the reader as it was.
    pub fn next(&mut self) -> Result<Option<Message>, ReadFault>
        ensures { NextOf self.old self.new result }
    {
        if let Some(fault) = self.stopped {
            return Err(ReadFault::Broken(fault));
        }
        match next_in(self.alloc, &self.fed[self.head..]) {
            Ok(None) => Ok(None),
            Ok(Some((message, length))) => {
                self.skip(length);
                Ok(Some(message))
            }
            Err(ReadFault::Broken(fault)) => {
                self.stopped = Some(fault);
                Err(ReadFault::Broken(fault))
            }
            Err(ReadFault::Memory) => Err(ReadFault::Memory),
        }
    }

    /// How many bytes are held.
    pub fn held(&self) -> usize
        ensures { result ≡ length self.now.bytes }
    {
        self.fed.len() - self.head
    }
}
