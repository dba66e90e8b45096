//! How a reference to a class instance is read.

ghost use Rattle.std.specs.Prelude.{ℕ, Option};
ghost use Rattle.ice_encoding.specs.Port.{Reader};
ghost use Rattle.ice_encoding.specs.Pausing as pausing;
ghost use Rattle.value_parts.specs.Taking.{TakesMet, NarrowsOnMet};

use ice_prims::{Cursor, ReadFault};

/// What stands at a reference.
#[derive(Clone, Copy, PartialEq, Eq)]
pub enum Met {
    /// An instance that has begun, by its name; None for null.
    Known(Option<u32>),
    /// The instance of this name begins here.
    Begins(u32),
}

/// How a reference is read, and what is remembered of those before it.
/// (Ice manual, "Data Encoding for Class and Exception Types".)
pub trait RefPort {
    /// What stands at a reference, by the place of the declared class, None where any class may stand.
    ghost take: { Option ℕ → Reader Self pausing.Met };

    /// How many instances may still begin at most.
    ghost room: { Self → ℕ };

    /// The reference at the front. A refusal may leave the cursor and the port anywhere on the way.
    fn take_ref(&mut self, declared: Option<u32>, cursor: &mut Cursor<'_>) -> Result<Met, ReadFault>
        ensures takes { TakesMet result (take declared self.old cursor.old) self.new cursor.new }
        ensures room { NarrowsOnMet result (room self.old) (room self.new) };
}
