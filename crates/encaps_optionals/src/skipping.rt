//! Values of unknown optional members, which are passed over by their format. (Ice manual, "Data
//! Encoding for Optional Values".)

ghost use Rattle.std.specs.Prelude.{◌≤◌};
ghost use Rattle.ice_prims.specs.Taking.{Takes};
ghost use Rattle.ice_encoding.specs.Skipping.{passed_at};
ghost use Rattle.encaps_optionals.specs.Answers.{PassesOver, skipped_at};

use crate::prefix::{bound_by_int, bound_by_size};
use ice_prims::{Cursor, Fault};

/// What became of the value of an unknown member.
#[derive(Clone, Copy, PartialEq, Eq)]
pub enum Skipped {
    /// It was passed over.
    Passed,
    /// It is a reference to a class instance, which was not passed over.
    Reference,
}

/// Goes on after a value of this format, 0 to 7, whatever it says; a reference, format 7, is left to the
/// caller. The first fault of the value, and then the cursor stays as it was. It takes no memory.
pub fn skip_format(cursor: &mut Cursor<'_>, format: u8) -> Result<Skipped, Fault>
    requires { format ≤ 7 }
    ensures { Takes (λ skipped. skipped) result cursor.old cursor.new (skipped_at format cursor.old) }
{
    if format == 7 {
        return Ok(Skipped::Reference);
    }
    pass_over(cursor, format)?;
    Ok(Skipped::Passed)
}

/// Goes on after a value of this format, 0 to 6.
fn pass_over(cursor: &mut Cursor<'_>, format: u8) -> Result<(), Fault>
    requires { format ≤ 6 }
    ensures { PassesOver result cursor.old cursor.new (passed_at format cursor.old) }
{
    match format {
        0 => {
            cursor.take_bytes(1)?;
        }
        1 => {
            cursor.take_bytes(2)?;
        }
        2 => {
            cursor.take_bytes(4)?;
        }
        3 => {
            cursor.take_bytes(8)?;
        }
        4 => {
            cursor.take_size()?;
        }
        5 => {
            bound_by_size(cursor)?;
        }
        _ => {
            bound_by_int(cursor)?;
        }
    }
    Ok(())
}
