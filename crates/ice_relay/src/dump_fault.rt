//! Why the line that tells a value is not there, or not whole.

ghost use Rattle.std.specs.Prelude.{◌≡◌};
ghost use Rattle.ice_relay.specs.Faults.{of_broken};
ghost use Rattle.ice_relay.specs.Pages.{of_tell};
ghost use Rattle.ice_relay.specs.declared.dump_fault.DumpFault.TheVariants as faults;

use ice_ports::PortFault;
use ice_prims::{Fault, ReadFault};
use std::alloc::AllocError;

/// Why the line that tells a value is not there, or not whole.
#[derive(Clone, Copy)]
pub enum DumpFault {
    /// The input is no encapsulation of a value of the type: its first fault. Nothing was written.
    Broken(Fault),
    /// A write failed. The sink has taken less than the line.
    WriteFailed,
    /// Out of memory, which may come in place of any other answer. Nothing was written.
    Memory,
    /// Out of memory. The sink has taken the beginning of the line.
    MemoryAfter,
}

impl From<ReadFault> for DumpFault {
    ghost from_gives = { λ fault e. e ≡ of_broken fault };

    fn from(fault: ReadFault) -> DumpFault {
        match fault {
            ReadFault::Broken(fault) => DumpFault::Broken(fault),
            ReadFault::Memory => DumpFault::Memory,
        }
    }
}

impl From<PortFault> for DumpFault {
    ghost from_gives = { λ fault e. e ≡ of_tell fault };

    fn from(fault: PortFault) -> DumpFault {
        match fault {
            PortFault::Failed => DumpFault::WriteFailed,
            PortFault::Memory => DumpFault::MemoryAfter,
        }
    }
}

impl From<AllocError> for DumpFault {
    ghost from_gives = { λ _ e. e ≡ faults.Memory };

    fn from(_error: AllocError) -> DumpFault {
        DumpFault::Memory
    }
}
