//! Why tokens are no file.

ghost use Rattle.std.specs.Prelude.{◌≡◌};
ghost use Rattle.slice_syntax.specs.declared.fault.Stop.TheVariants as stops;

use slice_lexer::TokenKind;
use std::alloc::{AllocError, AllocFailed};
use thiserror::Error;

/// Why tokens are no file of Slice.
#[derive(Clone, Copy, Debug, PartialEq, Eq, Error)]
pub enum SyntaxFault {
    /// The first token after which no file can go on, by its first byte and its kind. At the end of
    /// the text that is the text's length, and None.
    #[error("byte {place}: no file goes on like this")]
    Expected {
        place: u32,
        found: Option<TokenKind>,
    },
    /// Memory ran out.
    #[error("memory ran out")]
    Memory,
}

/// Why a part of a file was not read.
#[derive(Clone, Copy, Debug, PartialEq, Eq)]
pub(crate) enum Stop {
    /// No file goes on with the token at which the cursor stands.
    Refused,
    Memory,
}

impl From<AllocError> for Stop {
    ghost from_gives = { λ _ stop. stop ≡ stops.Memory };

    fn from(_error: AllocError) -> Stop {
        Stop::Memory
    }
}

impl<T: Drop> From<AllocFailed<T>> for Stop {
    ghost from_gives = { λ _ stop. stop ≡ stops.Memory };

    fn from(_error: AllocFailed<T>) -> Stop {
        Stop::Memory
    }
}
