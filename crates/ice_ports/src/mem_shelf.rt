//! A shelf of files in memory.
ghost use Rattle.std.specs.Prelude.{◌≡◌, Some, IsSome, IfOk, option_copied};
ghost use Rattle.ice_ports.specs.Files.{Finds, file_named, is_failed};
ghost use Rattle.ice_ports.specs.Plan.{new_plan, fails_now, after_call};

use super::fault_plan::FaultPlan;
use super::ports::{PortFault, Shelf};
use ice_types::{Bytes, List, Name};
use std::alloc::{AllocError, Global};
use std::marker::Model;

/// Files in memory, of which the first of a name counts. The calls of the given numbers fail.
#[derive(Drop)]
pub struct MemShelf {
    files: List<(Name, Bytes)>,
    plan: FaultPlan,
}

impl Model for MemShelf {
    ghost use Rattle.ice_ports.specs.Memory.{Folder};

    ghost Value = { Folder };

    ghost view = { λ s. record { files = s.files; plan = s.plan } };
}

impl MemShelf {
    /// Has these files. `fails` lists the calls that fail, from 0.
    pub fn new(files: List<(Name, Bytes)>, fails: List<u64>) -> MemShelf
        ensures { result ≡ record { files = files; plan = new_plan fails } }
    {
        MemShelf {
            files,
            plan: FaultPlan::new(fails),
        }
    }

    /// How many calls were made, as far as u64 counts.
    pub fn calls(&self) -> u64
        ensures { result ≡ self.now.plan.calls }
    {
        self.plan.calls
    }

    /// How many calls failed, as far as u64 counts.
    pub fn failures(&self) -> u64
        ensures { result ≡ self.now.plan.failures }
    {
        self.plan.failures
    }
}

impl Shelf for MemShelf {
    ghost files = { λ s. Some s.files };

    ghost failures = { λ s. s.plan.failures };

    fn load(&mut self, alloc: Global, name: &str) -> Result<Option<Bytes>, PortFault>
        ensures found { Finds (Some self.old.files) name.now result }
        ensures kept { self.new.files ≡ self.old.files }
        ensures fails { is_failed result ≡ fails_now self.old.plan }
        ensures memory { result ≡ Err PortFault.Memory
            → IsSome (file_named self.old.files name.now) }
        ensures plan { self.new.plan ≡ after_call self.old.plan (fails_now self.old.plan) }
    {
        let fails = self.plan.fails_now();
        if self.plan.count(fails).is_err() {
            return Err(PortFault::Failed);
        }
        match first_named(self.files.as_slice(), name) {
            Some(content) => Ok(Some(copied(alloc, content)?)),
            None => Ok(None),
        }
    }
}

/// The content of the first file of this name.
fn first_named<'a>(files: &'a [(Name, Bytes)], name: &str) -> Option<&'a Bytes>
    ensures { option_copied result ≡ file_named files.now name.now }
{
    for file in files {
        if file.0.as_str() == name {
            return Some(&file.1);
        }
    }
    None
}

/// A copy of the bytes.
fn copied(alloc: Global, bytes: &Bytes) -> Result<Bytes, AllocError>
    ensures { IfOk result (λ copy. copy ≡ bytes.now) }
{
    Ok(List::from_vec(Vec::from_slice(alloc, bytes.as_slice())?))
}
