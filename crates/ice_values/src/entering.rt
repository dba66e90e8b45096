//! Values of optional members behind their lengths. (Ice manual, "Data Encoding for Optional Values".)

ghost use Rattle.std.specs.Prelude.{◌≡◌};
ghost use Rattle.value_parts.specs.Prefixes.{prefix_seen};
ghost use Rattle.ice_values.specs.Entering.{entered_at, left_at, Enters, Leaves};

use encaps_optionals::{bound_by_int, bound_by_size};
use ice_prims::{Cursor, Fault, Kind};
use value_parts::Prefix;

/// Goes on to a value behind its prefix. Where that sets a bound, the cursor is over the bound alone, and
/// the one behind it is answered. The first fault of the prefix, and then the cursor stays as it was.
pub(crate) fn enter<'a>(
    prefix: Prefix,
    cursor: &mut Cursor<'a>,
) -> Result<Option<Cursor<'a>>, Fault>
    ensures { Enters result cursor.new (entered_at (prefix_seen prefix) cursor.old) }
{
    match prefix {
        Prefix::NoLength => Ok(None),
        Prefix::OwnSize => match bound_by_size(&mut cursor.fork()) {
            Ok(_) => Ok(None),
            Err(fault) => Err(fault),
        },
        Prefix::AsSize => match bound_by_size(cursor) {
            Ok(bound) => Ok(Some(bounded(bound, cursor))),
            Err(fault) => Err(fault),
        },
        Prefix::AsInt => match bound_by_int(cursor) {
            Ok(bound) => Ok(Some(bounded(bound, cursor))),
            Err(fault) => Err(fault),
        },
    }
}

/// Goes on in this bound, and answers where the cursor was.
fn bounded<'a>(bound: Cursor<'a>, cursor: &mut Cursor<'a>) -> Cursor<'a>
    ensures before { result ≡ cursor.old }
    ensures after { cursor.new ≡ bound.entry }
{
    let behind = cursor.fork();
    *cursor = bound;
    behind
}

/// Goes on behind a value that ends here. `LeftOver` at the first byte that its bound has left.
pub(crate) fn leave<'a>(behind: Option<Cursor<'a>>, cursor: &mut Cursor<'a>) -> Result<(), Fault>
    ensures { Leaves result cursor.new (left_at behind.entry cursor.old) }
{
    if let Some(behind) = behind {
        if cursor.left() > 0 {
            return Err(cursor.fault(Kind::LeftOver));
        }
        *cursor = behind;
    }
    Ok(())
}
