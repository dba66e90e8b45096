//! Why an exception is not written.

ghost use Rattle.std.specs.Prelude.{◌≡◌};
ghost use Rattle.class_slices.specs.declared.user_exception_fault.UserExceptionFault.TheVariants as faults;

use std::alloc::AllocError;

/// Why an exception is not written.
#[derive(Clone, Copy)]
pub enum UserExceptionFault {
    /// The first part that is not of its type: an instance by its place, or the exception's own slices, which
    /// are None.
    IllTyped(Option<u32>),
    /// Compact format has no place for a slice that is not known: the exception itself has one, which is None,
    /// or else the first instance that has one, by its place, of those that its slices lead to, in the order
    /// of their first visits.
    UnknownNeedsSliced(Option<u32>),
    /// Its encapsulation has so many bytes, which is more than the limit.
    TooLong(u64),
    /// Out of memory, which may come in place of any other answer.
    Memory,
}

impl From<AllocError> for UserExceptionFault {
    ghost from_gives = { λ _ e. e ≡ faults.Memory };

    fn from(_error: AllocError) -> UserExceptionFault {
        UserExceptionFault::Memory
    }
}
