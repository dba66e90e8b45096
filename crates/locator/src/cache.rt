//! Places that were found, and are kept.

ghost use Rattle.locator.specs.Caches as caches;

use crate::key::Key;
use ice_types::{Endpoint, List};
use indexmap::IndexMap;
use std::alloc::{AllocError, Global};
use std::marker::Model;

/// How many places a cache keeps at most.
pub const MOST_KEPT: usize = 1_000;

/// Endpoints by what they were found for, in the order in which the keys came. Contracts see the list of them.
/// (Ice manual, "Locators".)
#[derive(Drop)]
pub struct Cache {
    places: IndexMap<Key, List<Endpoint>>,
}

impl Model for Cache {
    ghost use Rattle.std.specs.Prelude.{◌≤◌, length};
    ghost use Rattle.locator.specs.Caches.{Kept};
    ghost use Rattle.locator.specs.declared.cache.TheConstants.{MOST_KEPT};

    ghost Value = { Kept };

    ghost view = { λ c. c.places.entries };

    ghost invariant = { λ c. length c.places.entries ≤ MOST_KEPT };
}

impl Cache {
    ghost use Rattle.std.specs.Prelude.{◌≡◌, ◌≤◌, [], length, OnOk, OnErr, option_copied};

    /// A cache that keeps nothing, and takes no memory.
    pub fn new(alloc: Global) -> Cache
        ensures { result ≡ [] }
    {
        Cache {
            places: IndexMap::new(alloc),
        }
    }

    /// How many places are kept.
    pub fn len(&self) -> usize
        ensures len { result ≡ length self.now }
        ensures most { result ≤ MOST_KEPT }
    {
        self.places.len()
    }

    /// The endpoints that are kept by the key. It takes no memory, and does not grow with what is kept.
    pub fn get(&self, key: &Key) -> Option<&List<Endpoint>>
        ensures { option_copied result ≡ caches.kept_by key.now self.now }
    {
        self.places.get(key)
    }

    /// Keeps the endpoints by the key: a key that is there keeps its place in the order, and a new one is the
    /// newest, for which the oldest goes where as many are kept as may be. Out of memory changes nothing.
    pub fn keep(&mut self, key: Key, endpoints: List<Endpoint>) -> Result<(), AllocError>
        ensures ok { OnOk result (self.new ≡ caches.keeping key endpoints self.old) }
        ensures err { OnErr result (self.new ≡ self.old) }
    {
        self.places.insert(key, endpoints)?;
        if self.places.len() > MOST_KEPT {
            self.places.shift_remove_index(0);
        }
        Ok(())
    }

    /// Forgets what is kept by the key, and takes no memory.
    pub fn forget(&mut self, key: &Key)
        ensures { self.new ≡ caches.without key.now self.old }
    {
        self.places.shift_remove(key);
    }
}
