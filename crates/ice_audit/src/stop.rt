//! What stops the reading of a stream.

ghost use Rattle.std.specs.Prelude.{◌≡◌};
ghost use Rattle.ice_audit.specs.declared.stop.Halt.TheVariants as halts;

use crate::verdict::Why;
use std::alloc::{AllocError, AllocFailed};

/// What is wrong with a stream, and how many of its bytes stand before that.
#[derive(Clone, Copy, PartialEq, Eq)]
pub struct Stop {
    pub place: u64,
    pub why: Why,
}

/// Why a stream was not read to its end.
#[derive(PartialEq, Eq, Drop)]
pub enum Halt {
    /// It is no good.
    Found(Stop),
    /// Out of memory, which may come in place of any other answer.
    Memory,
}

/// What a stream has come to.
#[derive(Clone, Copy, PartialEq, Eq)]
pub enum Stage {
    /// Its end has to send a validate message first, and has sent none.
    Fresh,
    Open,
    /// Its end has sent a close message.
    Closed,
}

impl Stage {
    ghost use Rattle.std.specs.Prelude.{◌≡◌};
    ghost use Rattle.ice_audit.specs.Stops.{is_fresh, is_closed};

    pub fn is_fresh(self) -> bool
        ensures { result ≡ is_fresh self }
    {
        matches!(self, Stage::Fresh)
    }

    pub fn is_closed(self) -> bool
        ensures { result ≡ is_closed self }
    {
        matches!(self, Stage::Closed)
    }
}

impl From<AllocError> for Halt {
    ghost from_gives = { λ _ halt. halt ≡ halts.Memory };

    fn from(_error: AllocError) -> Halt {
        Halt::Memory
    }
}

impl<T: Drop> From<AllocFailed<T>> for Halt {
    ghost from_gives = { λ _ halt. halt ≡ halts.Memory };

    fn from(_error: AllocFailed<T>) -> Halt {
        Halt::Memory
    }
}
