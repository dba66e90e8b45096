//! Names without regard to case.

use std::alloc::{AllocError, Global};
use std::collections::BTreeSet;

/// Names in lower case, with the scopes that have them.
#[derive(Drop)]
pub struct Lowered {
    pub names: BTreeSet<(String, usize)>,
}

impl Lowered {
    ghost use Rattle.std.specs.Prelude.{◌≡◌, OnOk, OnErr, IfOk, List, ℕ, true, false};
    ghost use Rattle.std.specs.Str.{str_to_ascii_lowercase};
    ghost use Rattle.slice_meaning.specs.Finding.{has_lowered, IsSame, IsChanged};

    /// No names.
    pub fn new(alloc: Global) -> Lowered
        ensures { (word : List ℕ) (scope : ℕ) → has_lowered result word scope ≡ false }
    {
        Lowered {
            names: BTreeSet::new(alloc),
        }
    }

    /// Whether a name of this scope is equal to this one without regard to case.
    pub fn has(&self, alloc: Global, name: &str, scope: usize) -> Result<bool, AllocError>
        ensures { IfOk result (λ has. has ≡ has_lowered self.now (str_to_ascii_lowercase name.now) scope) }
    {
        let key = (name.to_ascii_lowercase(alloc)?, scope);
        Ok(self.names.contains(&key))
    }

    /// Puts a name in. Want of memory leaves the names as they were.
    pub fn insert(&mut self, alloc: Global, name: &str, scope: usize) -> Result<(), AllocError>
        ensures ok { OnOk result
            (IsChanged (str_to_ascii_lowercase name.now) scope true (has_lowered self.old) (has_lowered self.new)) }
        ensures err { OnErr result (IsSame (has_lowered self.old) (has_lowered self.new)) }
    {
        let key = (name.to_ascii_lowercase(alloc)?, scope);
        self.names.insert(key)?;
        Ok(())
    }
}
