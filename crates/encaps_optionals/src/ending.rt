//! The end of a bound.

ghost use Rattle.encaps_optionals.specs.Answers.{Fills};

use ice_prims::{Cursor, Fault, Kind};

/// That nothing is left of a bound. `LeftOver` at the first byte that is left. Nothing moves.
pub fn end(cursor: &Cursor<'_>) -> Result<(), Fault>
    ensures { Fills result cursor.now }
{
    if cursor.left() == 0 {
        Ok(())
    } else {
        Err(cursor.fault(Kind::LeftOver))
    }
}
