//! Why files on a shelf gave no schema.

ghost use Rattle.std.specs.Prelude.{◌≡◌};
ghost use Rattle.slice_meaning.specs.Printed.{broken_at, lexer_name, lexer_place};
ghost use Rattle.slice_check.specs.Answers.{IsFault, of_port};
ghost use Rattle.slice_check.specs.declared.fault.LoadFault.TheVariants as faults;

use ice_ports::PortFault;
use ice_types::Name;
use slice_lexer::LexFault;
use std::alloc::{AllocError, AllocFailed, Global};

/// Why a file on a shelf, with all that it includes, gave no schema.
#[derive(Debug, Drop)]
pub enum LoadFault {
    /// A text, an include or a declaration is at fault.
    Text {
        /// The name on the shelf of the file that the fault is in.
        file: Name,
        /// The first byte of what is wrong, counted from 0.
        place: u32,
        /// The word that is printed for what is wrong.
        kind: Name,
    },
    /// The shelf failed, and has counted that.
    Shelf,
    /// Memory ran out, which may come in place of any other answer.
    Memory,
}

impl From<AllocError> for LoadFault {
    ghost from_gives = { λ _ fault. fault ≡ faults.Memory };

    fn from(_error: AllocError) -> LoadFault {
        LoadFault::Memory
    }
}

impl<T: Drop> From<AllocFailed<T>> for LoadFault {
    ghost from_gives = { λ _ fault. fault ≡ faults.Memory };

    fn from(_error: AllocFailed<T>) -> LoadFault {
        LoadFault::Memory
    }
}

impl From<PortFault> for LoadFault {
    ghost from_gives = { λ given fault. fault ≡ of_port given };

    fn from(fault: PortFault) -> LoadFault {
        match fault {
            PortFault::Failed => LoadFault::Shelf,
            PortFault::Memory => LoadFault::Memory,
        }
    }
}

/// This fault, or want of memory for its words.
pub(crate) fn text_fault(alloc: Global, file: &str, place: u32, kind: &str) -> LoadFault
    ensures { IsFault (broken_at file.now place kind.now) result }
{
    match (Name::of(alloc, file), Name::of(alloc, kind)) {
        (Ok(file), Ok(kind)) => LoadFault::Text { file, place, kind },
        _ => LoadFault::Memory,
    }
}

/// A fault of the lexer, or want of memory.
pub(crate) fn lexer_fault(alloc: Global, file: &str, fault: LexFault) -> LoadFault
    ensures fault { IsFault (broken_at file.now (lexer_place fault) (lexer_name fault)) result }
    ensures memory { fault ≡ LexFault.Memory → result ≡ LoadFault.Memory }
{
    match fault {
        LexFault::BadByte(place) => text_fault(alloc, file, place, "BadByte"),
        LexFault::OpenString(place) => text_fault(alloc, file, place, "OpenString"),
        LexFault::OpenComment(place) => text_fault(alloc, file, place, "OpenComment"),
        LexFault::BadNumber(place) => text_fault(alloc, file, place, "BadNumber"),
        LexFault::TooLong => text_fault(alloc, file, 0, "TooLong"),
        LexFault::Memory => LoadFault::Memory,
    }
}
