//! The ids under which slices of instances stand: type ids, and compact ids as texts `#n`. (Ice manual,
//! "Compact Type IDs".)

ghost use Rattle.std.specs.Prelude.{◌≡◌, ◌↔◌, IfOk, IsTrue};
ghost use Rattle.ice_types.specs.CompactIds.{IsKeptId, is_numbered, number_in, numbered_id};
ghost use Rattle.ice_types.specs.Tables.{Finds, HasCompactId};

use crate::name::Name;
use crate::schema::{MOST_NUMBER, Schema};
use itoa::Buffer;
use std::alloc::{AllocError, Global};

/// Whether a text begins with `#`, as no type id does. It takes no memory.
pub fn is_numbered(id: &str) -> bool
    ensures { result ≡ is_numbered id.now }
{
    id.starts_with('#')
}

/// The compact id n that the text `#n` stands for, n in decimal without leading zeros; None of every other text.
pub fn number_in(id: &str) -> Option<u32>
    ensures { result ≡ number_in id.now }
{
    let digits = id.strip_prefix('#')?;
    let number = digits.parse::<u32>().ok()?;
    let mut printed = Buffer::new();
    if printed.format(number) == digits && number <= MOST_NUMBER {
        return Some(number);
    }
    None
}

/// The text `#n` of a compact id n.
pub fn numbered_id(alloc: Global, number: u32) -> Result<Name, AllocError>
    ensures { IfOk result (λ id. id ≡ numbered_id number) }
{
    let mut printed = Buffer::new();
    Name::joined(alloc, "#", printed.format(number))
}

impl Schema {
    /// The class of this compact id. It takes no memory.
    pub fn class_numbered(&self, number: u32) -> Option<u32>
        ensures { Finds (HasCompactId self.now number) result }
    {
        self.compact_ids.get(number)
    }

    /// Whether a slice that is kept of an instance may have this id: a type id that no class of the schema has and that
    /// does not begin with `#`, or `#n` for a number n that can be a compact id and is that of no class. It takes no
    /// memory.
    pub fn kept_id(&self, id: &str) -> bool
        ensures { IsTrue result ↔ IsKeptId self.now id.now }
    {
        self.rules();
        if !is_numbered(id) {
            return self.class(id).is_none();
        }
        match number_in(id) {
            Some(number) => self.class_numbered(number).is_none(),
            None => false,
        }
    }
}
