//! Why a text has no tokens.

ghost use Rattle.std.specs.Prelude.{◌≡◌};
ghost use Rattle.slice_lexer.specs.declared.fault.LexFault.TheVariants as faults;

use std::alloc::{AllocError, AllocFailed};
use thiserror::Error;

/// Why a text has no tokens. A number is the place of the byte at which the defect begins.
#[derive(Clone, Copy, Debug, PartialEq, Eq, Error)]
pub enum LexFault {
    /// A byte that begins no token stands outside comments and strings.
    #[error("byte {0}: no token begins like this")]
    BadByte(u32),
    /// A string has no closing quote on its line.
    #[error("byte {0}: the string is not closed on its line")]
    OpenString(u32),
    /// A comment has no `*/`.
    #[error("byte {0}: the comment is not closed")]
    OpenComment(u32),
    /// A number goes on with what is no digit of it, has no digit or is above 9,223,372,036,854,775,808.
    #[error("byte {0}: not a number")]
    BadNumber(u32),
    /// The text has more than 1,000,000 bytes.
    #[error("the text has more than 1,000,000 bytes")]
    TooLong,
    /// Memory ran out.
    #[error("memory ran out")]
    Memory,
}

impl From<AllocError> for LexFault {
    ghost from_gives = { λ _ fault. fault ≡ faults.Memory };

    fn from(_error: AllocError) -> LexFault {
        LexFault::Memory
    }
}

impl<T: Drop> From<AllocFailed<T>> for LexFault {
    ghost from_gives = { λ _ fault. fault ≡ faults.Memory };

    fn from(_error: AllocFailed<T>) -> LexFault {
        LexFault::Memory
    }
}
