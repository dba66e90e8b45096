//! Why something is not added.

ghost use Rattle.std.specs.Prelude.{◌≡◌};
ghost use Rattle.object_adapter.specs.declared.add_fault.AddFault.TheVariants as add_faults;

use std::alloc::AllocError;

/// Why an object or a place is not added.
#[derive(Clone, Copy)]
pub enum AddFault {
    /// One has its key already.
    Twice,
    /// There are as many as may be.
    Full,
    /// Out of memory, which may come in place of any other answer.
    Memory,
}

impl From<AllocError> for AddFault {
    ghost from_gives = { λ _ e. e ≡ add_faults.Memory };

    fn from(_error: AllocError) -> AddFault {
        AddFault::Memory
    }
}
