//! Why a message was not written, or bytes not taken.

ghost use Rattle.std.specs.Prelude.{◌≡◌};
ghost use Rattle.ice_messages.specs.declared.fault.WriteFault.TheVariants as write_faults;
ghost use Rattle.ice_messages.specs.declared.fault.FeedFault.TheVariants as feed_faults;

use std::alloc::{AllocError, AllocFailed};
use thiserror::Error;

/// Why a message was not written.
#[derive(Debug, PartialEq, Eq, Drop, Error)]
pub enum WriteFault {
    /// The message would have so many bytes, more than 1,048,576. A number that 64 bits cannot hold is told as the
    /// greatest that they can.
    #[error("the message has {0} bytes")]
    TooLong(u64),
    /// Out of memory, which may come in place of any other answer.
    #[error("no memory")]
    Memory,
}

/// Why bytes were not taken.
#[derive(Debug, PartialEq, Eq, Drop, Error)]
pub enum FeedFault {
    /// The bytes before them had a fault.
    #[error("the bytes before had a fault")]
    Stopped,
    /// Out of memory, which may come in place of any other answer.
    #[error("no memory")]
    Memory,
}

impl From<AllocError> for WriteFault {
    ghost from_gives = { λ _ e. e ≡ write_faults.Memory };

    fn from(_error: AllocError) -> WriteFault {
        WriteFault::Memory
    }
}

impl From<AllocError> for FeedFault {
    ghost from_gives = { λ _ e. e ≡ feed_faults.Memory };

    fn from(_error: AllocError) -> FeedFault {
        FeedFault::Memory
    }
}
