//! Why files mean nothing.

ghost use Rattle.std.specs.Prelude.{◌≡◌};
ghost use Rattle.slice_faults.specs.declared.fault.CheckFault.TheVariants as faults;

use slice_meaning::CheckKind;
use std::alloc::AllocError;
use thiserror::Error;

/// Why files mean nothing.
#[derive(Clone, Copy, Debug, PartialEq, Eq, Error)]
pub enum CheckFault {
    /// The first fault, by its file, counted from 0, and the first byte of what is wrong.
    #[error("file {file}, byte {place}: this may not stand here")]
    At {
        file: u32,
        place: u32,
        kind: CheckKind,
    },
    /// Memory ran out.
    #[error("memory ran out")]
    Memory,
}

impl From<AllocError> for CheckFault {
    ghost from_gives = { λ _ fault. fault ≡ faults.Memory };

    fn from(_error: AllocError) -> CheckFault {
        CheckFault::Memory
    }
}
