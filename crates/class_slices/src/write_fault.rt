//! Why a graph of a type is not written.

ghost use Rattle.std.specs.Prelude.{◌≡◌};
ghost use Rattle.class_slices.specs.declared.write_fault.WriteFault.TheVariants as faults;

use std::alloc::AllocError;

/// Why a graph of a type is not written.
#[derive(Clone, Copy)]
pub enum WriteFault {
    /// Compact format has no place for a slice of a class that is not known: the first instance that has one,
    /// by its place, of those that the roots lead to, in the order of their first visits.
    UnknownNeedsSliced(u32),
    /// Its encapsulation has so many bytes, which is more than the limit.
    TooLong(u64),
    /// Out of memory, which may come in place of any other answer.
    Memory,
}

impl From<AllocError> for WriteFault {
    ghost from_gives = { λ _ e. e ≡ faults.Memory };

    fn from(_error: AllocError) -> WriteFault {
        WriteFault::Memory
    }
}
