//! Why a text stands for nothing.

ghost use Rattle.std.specs.Prelude.{◌≡◌};
ghost use Rattle.ice_proxy.specs.declared.fault.TextFault.TheVariants as faults;

use std::alloc::{AllocError, AllocFailed};
use thiserror::Error;

/// Why a text stands for nothing.
#[derive(Clone, Copy, Debug, PartialEq, Eq, Error)]
pub enum TextFault {
    /// What begins at this byte cannot stand there, or something lacks where the text ends.
    #[error("byte {place}: cannot stand here")]
    Broken { place: u32 },
    /// Out of memory, which may come in place of any other answer.
    #[error("memory ran out")]
    Memory,
}

impl From<AllocError> for TextFault {
    ghost from_gives = { λ _ fault. fault ≡ faults.Memory };

    fn from(_error: AllocError) -> TextFault {
        TextFault::Memory
    }
}

impl<T: Drop> From<AllocFailed<T>> for TextFault {
    ghost from_gives = { λ _ fault. fault ≡ faults.Memory };

    fn from(_error: AllocFailed<T>) -> TextFault {
        TextFault::Memory
    }
}
