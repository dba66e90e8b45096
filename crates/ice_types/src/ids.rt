//! The rows of a schema by type id.

ghost use Rattle.std.specs.Prelude.{◌≡◌, List, ℕ, None, Some, IfOk, OnOk, OnErr, cond, bytes_eq, string_bytes};
ghost use Rattle.ice_types.specs.Ids.{row_in};

use crate::kind::RowRef;
use std::alloc::{AllocError, Global};
use std::collections::BTreeMap;

/// The row of each type id.
#[derive(Drop)]
pub(crate) struct Ids {
    rows: BTreeMap<String, RowRef>,
    alloc: Global,
}

impl Ids {
    /// No ids, which take no memory.
    pub fn new(alloc: Global) -> Ids
        ensures { (id : List ℕ) → row_in result id ≡ None }
    {
        Ids {
            rows: BTreeMap::new(alloc),
            alloc,
        }
    }

    /// What gives memory.
    pub fn alloc(&self) -> Global {
        self.alloc
    }

    /// The row of this id.
    pub fn get(&self, id: &str) -> Option<RowRef>
        ensures { result ≡ row_in self.now id.now }
    {
        self.rows.get(id).copied()
    }

    /// A copy of the id, to be put in.
    pub fn copied(&self, id: &str) -> Result<String, AllocError>
        ensures { IfOk result (λ copy. string_bytes copy ≡ id.now) }
    {
        Ok(String::from_str(self.alloc, id)?)
    }

    /// Puts an id in, with its row. Out of memory leaves the ids as they were.
    pub fn insert(&mut self, id: String, row: RowRef) -> Result<(), AllocError>
        ensures ok { OnOk result ((other : List ℕ) →
            row_in self.new other ≡ cond (bytes_eq (string_bytes id) other) (Some row) (row_in self.old other)) }
        ensures err { OnErr result ((other : List ℕ) → row_in self.new other ≡ row_in self.old other) }
    {
        self.rows.insert(id, row)?;
        Ok(())
    }
}
