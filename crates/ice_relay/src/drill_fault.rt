//! Why a drill has no line.

ghost use Rattle.std.specs.Prelude.{◌≡◌};
ghost use Rattle.ice_relay.specs.declared.drill_fault.DrillFault.TheVariants as faults;

use std::alloc::AllocError;

/// Why a drill has no line.
#[derive(Clone, Copy)]
pub enum DrillFault {
    /// An encapsulation of the graph has so many bytes, which is more than 1,048,576.
    TooLong(u64),
    /// Out of memory, which may come in place of any other answer.
    Memory,
}

impl From<AllocError> for DrillFault {
    ghost from_gives = { λ _ e. e ≡ faults.Memory };

    fn from(_error: AllocError) -> DrillFault {
        DrillFault::Memory
    }
}
