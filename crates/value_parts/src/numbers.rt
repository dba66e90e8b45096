//! References as numbers.

ghost use Rattle.std.specs.Prelude.{◌≡◌};
ghost use Rattle.ice_encoding.specs.Port.{number_of};
ghost use Rattle.value_parts.specs.Numbering.{number_taken};

use crate::port::{Met, RefPort};
use ice_prims::{Cursor, ReadFault};
use std::marker::Model;

/// Each reference is its number: 0 for null, else one more than the number. No instance begins.
#[derive(Drop)]
pub struct Numbers;

impl Model for Numbers {
    ghost Value = { Unit {0} };

    ghost view = { λ n. tt };
}

impl RefPort for Numbers {
    ghost take = { number_taken };

    ghost room = { λ s. 0 };

    fn take_ref(
        &mut self,
        _declared: Option<u32>,
        cursor: &mut Cursor<'_>,
    ) -> Result<Met, ReadFault> {
        Ok(Met::Known(number_of(cursor.take_size()?)))
    }
}

/// The reference that a size stands for: 0 is null, any other one more than the number.
fn number_of(size: u32) -> Option<u32>
    ensures { result ≡ number_of size }
{
    if size == 0 { None } else { Some(size - 1) }
}
