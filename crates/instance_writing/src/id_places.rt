//! The places of type ids, by their texts.

ghost use Rattle.std.specs.Prelude.{◌≡◌, List, ℕ, None, Some, IfOk, OnOk, OnErr, cond, bytes_eq, string_bytes};
ghost use Rattle.instance_writing.specs.Pens.{place_in};

use std::alloc::{AllocError, Global};
use std::collections::BTreeMap;

/// The place of each type id that was written as a text.
#[derive(Drop)]
pub(crate) struct IdPlaces {
    places: BTreeMap<String, u32>,
    alloc: Global,
}

impl IdPlaces {
    /// No ids, which take no memory.
    pub fn new(alloc: Global) -> IdPlaces
        ensures { (id : List ℕ) → place_in result id ≡ None }
    {
        IdPlaces {
            places: BTreeMap::new(alloc),
            alloc,
        }
    }

    /// The place of this id.
    pub fn get(&self, id: &str) -> Option<u32>
        ensures { result ≡ place_in self.now id.now }
    {
        self.places.get(id).copied()
    }

    /// A copy of the id, to be put in.
    pub fn copied(&self, id: &str) -> Result<String, AllocError>
        ensures { IfOk result (λ copy. string_bytes copy ≡ id.now) }
    {
        Ok(String::from_str(self.alloc, id)?)
    }

    /// Puts an id in, with its place. Out of memory leaves the ids as they were.
    pub fn insert(&mut self, id: String, place: u32) -> Result<(), AllocError>
        ensures ok { OnOk result ((other : List ℕ) →
            place_in self.new other ≡ cond (bytes_eq (string_bytes id) other) (Some place) (place_in self.old other)) }
        ensures err { OnErr result ((other : List ℕ) → place_in self.new other ≡ place_in self.old other) }
    {
        self.places.insert(id, place)?;
        Ok(())
    }
}
