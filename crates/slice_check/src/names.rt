//! The names of the files that are loaded.

use std::alloc::{AllocError, Global};
use std::collections::BTreeSet;

/// The names of the files that are loaded, each found in less than linear time.
#[derive(Drop)]
pub(crate) struct Names {
    held: BTreeSet<String>,
}

impl Names {
    ghost use Rattle.std.specs.Prelude.{◌≡◌, List, [], ◌∷◌, length, Contains, OnOk};
    ghost use Rattle.std.specs.BTreeSet.{contains_text};
    ghost use Rattle.slice_meaning.specs.Names.{Name};
    ghost use Rattle.slice_check.specs.Held.{Holds};

    /// No names.
    pub(crate) fn new(alloc: Global) -> Names
        ensures { Holds result.held [] }
    {
        Names {
            held: BTreeSet::new(alloc),
        }
    }

    /// How many names there are.
    pub(crate) fn len(&self) -> usize
        ensures { (names : List Name) → Holds self.now.held names → result ≡ length names }
    {
        self.held.len()
    }

    /// Whether the name is there.
    pub(crate) fn has(&self, name: &str) -> bool
        ensures { result ≡ contains_text self.now.held name.now }
    {
        self.held.contains(name)
    }

    /// Puts in a name that is not there.
    pub(crate) fn insert(&mut self, alloc: Global, name: &str) -> Result<(), AllocError>
        ensures { (names : List Name) → Holds self.old.held names → (Contains names name.now → ⊥)
            → OnOk result (Holds self.new.held (name.now ∷ names)) }
    {
        self.held.insert(String::from_str(alloc, name)?)?;
        Ok(())
    }
}
