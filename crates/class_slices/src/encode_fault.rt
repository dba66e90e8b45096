//! Why a graph is not encoded.

ghost use Rattle.std.specs.Prelude.{◌≡◌};
ghost use Rattle.class_slices.specs.Encoding.{of_write};
ghost use Rattle.class_slices.specs.declared.encode_fault.EncodeFault.TheVariants as faults;

use crate::write_fault::WriteFault;
use std::alloc::AllocError;

/// Why a graph is not encoded.
#[derive(Clone, Copy)]
pub enum EncodeFault {
    /// The first part that is not of its type: an instance by its place, or the roots, which are None.
    IllTyped(Option<u32>),
    /// Compact format has no place for a slice of a class that is not known: the first instance that has one,
    /// by its place, of those that the roots lead to, in the order of their first visits.
    UnknownNeedsSliced(u32),
    /// Its encapsulation has so many bytes, which is more than the limit.
    TooLong(u64),
    /// Out of memory, which may come in place of any other answer.
    Memory,
}

impl From<WriteFault> for EncodeFault {
    ghost from_gives = { λ fault e. e ≡ of_write fault };

    fn from(fault: WriteFault) -> EncodeFault {
        match fault {
            WriteFault::UnknownNeedsSliced(place) => EncodeFault::UnknownNeedsSliced(place),
            WriteFault::TooLong(length) => EncodeFault::TooLong(length),
            WriteFault::Memory => EncodeFault::Memory,
        }
    }
}

impl From<AllocError> for EncodeFault {
    ghost from_gives = { λ _ e. e ≡ faults.Memory };

    fn from(_error: AllocError) -> EncodeFault {
        EncodeFault::Memory
    }
}
