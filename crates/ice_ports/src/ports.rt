//! What the outside does, whatever it is made of.
ghost use Rattle.std.specs.Prelude.{◌≡◌, ℕ, ◌<◌, ◌≤◌, List, Option, length, IfOk, is_err};
ghost use Rattle.std.specs.Io.{ReadsAtMost, WritesAtMost};
ghost use Rattle.std.specs.Io.KnownBytes.{ReadConsumes, WriteAppends};
ghost use Rattle.ice_ports.specs.Failures.{count_after};
ghost use Rattle.ice_ports.specs.Files.{Finds, IsThere, is_failed};
ghost use Rattle.ice_ports.specs.Talks.{read_part, write_part};
ghost use Rattle.ice_ports.specs.declared.talk.Talk.{Talk};

use ice_types::Bytes;
use std::alloc::{AllocError, Global};

/// The most bytes that one read asks for.
pub const MOST_OF_A_READ: usize = 4096;

/// A read or a write failed. The object that was asked has counted it.
#[derive(Clone, Copy, Debug, PartialEq, Eq)]
pub struct Failed;

/// Why an object of the outside gave nothing.
#[derive(Clone, Copy, Debug, PartialEq, Eq)]
pub enum PortFault {
    /// It failed, and has counted that.
    Failed,
    /// Out of memory for what it gives. It has counted nothing.
    Memory,
}

/// Why a shelf gave no answer.
pub type ShelfFault = PortFault;

impl From<Failed> for PortFault {
    ghost use Rattle.std.specs.Prelude.{◌≡◌};
    ghost use Rattle.ice_ports.specs.declared.ports.PortFault.TheVariants as faults;

    ghost from_gives = { λ _ fault. fault ≡ faults.Failed };

    fn from(_failed: Failed) -> PortFault {
        PortFault::Failed
    }
}

impl From<AllocError> for PortFault {
    ghost use Rattle.std.specs.Prelude.{◌≡◌};
    ghost use Rattle.ice_ports.specs.declared.ports.PortFault.TheVariants as faults;

    ghost from_gives = { λ _ fault. fault ≡ faults.Memory };

    fn from(_error: AllocError) -> PortFault {
        PortFault::Memory
    }
}

/// Where bytes come from.
pub trait Source {
    // The bytes that are not read yet, where the source tells them.
    ghost left: { Self → Option (List ℕ) };

    // How many reads failed, as far as u64 counts.
    ghost failures: { Self → ℕ };

    // A read of this part can lead from the one to the other: what it leaves as it was is said here.
    ghost reads: { Self → Talk → Self → Type 0 } = { λ _ _ _. Unit {0} };

    /// Puts bytes at the start of `into`, which has at most `MOST_OF_A_READ`, and answers how many.
    /// 0 for a slice that is not empty is the end. `Failed` took nothing and is counted once; no other
    /// answer is counted.
    fn read(&mut self, into: &mut [u8]) -> Result<usize, Failed>
        requires { length into.old ≤ MOST_OF_A_READ }
        ensures bound { ReadsAtMost result into.new }
        ensures bytes { ReadConsumes (left self.old) (left self.new) result into.new }
        ensures count { failures self.new ≡ count_after (failures self.old) (is_err result) }
        ensures reads { reads self.old (read_part result into.new) self.new };
}

/// Where bytes go.
pub trait Sink {
    // The bytes that were taken, where the sink tells them.
    ghost taken: { Self → Option (List ℕ) };

    // How many writes failed, as far as u64 counts.
    ghost failures: { Self → ℕ };

    // A write of this part can lead from the one to the other: what it leaves as it was is said here.
    ghost writes: { Self → Talk → Self → Type 0 } = { λ _ _ _. Unit {0} };

    /// Takes a prefix of `piece` and answers its length, 0 for an empty piece alone.
    /// `Failed` took none and is counted once; no other answer is counted.
    fn write(&mut self, piece: &[u8]) -> Result<usize, Failed>
        ensures bound { WritesAtMost result piece.now }
        ensures bytes { WriteAppends (taken self.old) (taken self.new) result piece.now }
        ensures progress { IfOk result (λ n. 0 < length piece.now → 0 < n) }
        ensures count { failures self.new ≡ count_after (failures self.old) (is_err result) }
        ensures writes { writes self.old (write_part result piece.now) self.new };
}

/// Files by name.
pub trait Shelf {
    // The names and contents in order, where the shelf tells them.
    ghost files: { Self → Option (List (List ℕ × List ℕ)) };

    // How many loads failed, as far as u64 counts.
    ghost failures: { Self → ℕ };

    /// The content of the first file of this name, or None where there is none. `Failed` is counted
    /// once and no other answer is; `Memory` comes for a file that is there. After each answer the
    /// files are as they were.
    fn load(&mut self, alloc: Global, name: &str) -> Result<Option<Bytes>, PortFault>
        ensures found { Finds (files self.old) name.now result }
        ensures kept { files self.new ≡ files self.old }
        ensures count { failures self.new ≡ count_after (failures self.old) (is_failed result) }
        ensures memory { result ≡ Err PortFault.Memory → IsThere (files self.old) name.now };
}
