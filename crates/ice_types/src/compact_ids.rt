//! The classes of a schema by compact id.

ghost use Rattle.std.specs.Prelude.{◌≡◌, ◌≤◌, ◌<◌, ◌+◌, ℕ, None, Some, OnOk, cond, nat_eq};
ghost use Rattle.ice_types.specs.Ids.{class_in, room_in};

use std::alloc::{AllocError, Global};
use std::collections::HashMap;

/// The class of each compact id.
#[derive(Drop)]
pub(crate) struct CompactIds {
    classes: HashMap<u32, u32>,
}

impl CompactIds {
    /// No compact ids, which take no memory.
    pub fn new(alloc: Global) -> CompactIds
        ensures { (number : ℕ) → class_in result number ≡ None }
    {
        CompactIds {
            classes: HashMap::new(alloc),
        }
    }

    /// The class of this compact id.
    pub fn get(&self, number: u32) -> Option<u32>
        ensures { result ≡ class_in self.now number }
    {
        self.classes.get(&number).copied()
    }

    /// Takes the memory for so many more compact ids.
    pub fn make_room(&mut self, more: usize) -> Result<(), AllocError>
        ensures room { OnOk result (more ≤ room_in self.new) }
        ensures same { (number : ℕ) → class_in self.new number ≡ class_in self.old number }
        ensures kept { room_in self.old ≤ room_in self.new }
    {
        self.classes.reserve(more)
    }

    /// Puts a compact id in, with its class. It takes no memory.
    pub fn put(&mut self, number: u32, class: u32)
        requires { 0 < room_in self.old }
        ensures put { (other : ℕ) →
            class_in self.new other ≡ cond (nat_eq number other) (Some class) (class_in self.old other) }
        ensures room { room_in self.old ≤ room_in self.new + 1 }
    {
        let Ok(_) = self.classes.insert(number, class) else {
            unreachable!()
        };
    }
}
