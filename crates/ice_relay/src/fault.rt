//! Why an input gives no canonical encapsulation, whether it came as bytes or as a text.

ghost use Rattle.std.specs.Prelude.{◌≡◌};
ghost use Rattle.ice_relay.specs.Faults.{of_json, of_read, of_write};
ghost use Rattle.ice_relay.specs.declared.fault.RelayFault.TheVariants as faults;

use class_slices::WriteFault;
use graph_json::{JsonFault, JsonKind};
use ice_prims::{Fault, ReadFault};
use std::alloc::AllocError;

/// Why an input gives no canonical encapsulation. Bytes are `Broken`, a text of JSON is `TextRefused`.
#[derive(Clone, Copy)]
pub enum RelayFault {
    /// The input is no encapsulation of a value of the type: its first fault.
    Broken(Fault),
    /// The text lists no graph of the type, or is not read, for this reason.
    TextRefused(JsonKind),
    /// An instance has an unknown slice, which only sliced format can carry.
    NeedsSliced,
    /// The canonical encapsulation has so many bytes, which is more than the limit.
    TooLong(u64),
    /// Out of memory, which may come in place of any other answer.
    Memory,
}

impl From<ReadFault> for RelayFault {
    ghost from_gives = { λ fault e. e ≡ of_read fault };

    fn from(fault: ReadFault) -> RelayFault {
        match fault {
            ReadFault::Broken(fault) => RelayFault::Broken(fault),
            ReadFault::Memory => RelayFault::Memory,
        }
    }
}

impl From<JsonFault> for RelayFault {
    ghost from_gives = { λ fault e. e ≡ of_json fault };

    fn from(fault: JsonFault) -> RelayFault {
        match fault {
            JsonFault::Refused(kind) => RelayFault::TextRefused(kind),
            JsonFault::Memory => RelayFault::Memory,
        }
    }
}

impl From<WriteFault> for RelayFault {
    ghost from_gives = { λ fault e. e ≡ of_write fault };

    fn from(fault: WriteFault) -> RelayFault {
        match fault {
            WriteFault::UnknownNeedsSliced(_) => RelayFault::NeedsSliced,
            WriteFault::TooLong(length) => RelayFault::TooLong(length),
            WriteFault::Memory => RelayFault::Memory,
        }
    }
}

impl From<AllocError> for RelayFault {
    ghost from_gives = { λ _ e. e ≡ faults.Memory };

    fn from(_error: AllocError) -> RelayFault {
        RelayFault::Memory
    }
}
