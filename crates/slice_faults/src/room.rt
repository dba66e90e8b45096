//! Room in the tables of the schema.

ghost use Rattle.std.specs.Prelude.{◌+◌, ◌<◌, ◌≤◌, OnErr, OnOk};
ghost use Rattle.ice_types.specs.declared.rows.TheConstants.{MOST_ROWS};

use ice_types::MOST_ROWS;
use std::alloc::AllocError;

/// Want of memory exactly where a table of so many rows is full, which no text within the limits fills.
pub(crate) fn has_room(rows: usize) -> Result<(), AllocError>
    ensures ok { OnOk result (rows + 1 < MOST_ROWS) }
    ensures full { OnErr result (MOST_ROWS ≤ rows + 1) }
{
    if rows < MOST_ROWS - 1 {
        Ok(())
    } else {
        Err(AllocError)
    }
}
