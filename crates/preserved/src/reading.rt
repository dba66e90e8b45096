//! A slice that is passed over, and what is kept of it.

ghost use Rattle.std.specs.Prelude.{◌≡◌, IfOk};
ghost use Rattle.ice_prims.specs.Taking.{Takes};
ghost use Rattle.ice_encoding.specs.Skipping.{bound_behind};
ghost use Rattle.ice_encoding.specs.Flags.{flags_of};
ghost use Rattle.ice_encoding.specs.Flags as spec;
ghost use Rattle.ice_encoding.specs.Graph.{unknown};
ghost use Rattle.ice_encoding.specs.Slices.{unknown_at, slice_size};
ghost use Rattle.graph_arena.specs.Seen.{view_slice};
ghost use Rattle.preserved.specs.Unknown.{FindsUnknown};

use graph_arena::{Slice, UnknownSlice};
use ice_prims::{Cursor, Fault, Kind};
use ice_types::{List, Name};
use std::alloc::{AllocError, Global};

/// What stands behind the optional members of a slice.
pub(crate) const END_MARKER: u8 = 255;

/// What stands in a slice behind its type id and its size, and what its flags say.
#[derive(Clone, Copy)]
pub struct UnknownPart<'a> {
    /// The bytes of its members, without the end marker of optional ones.
    pub bytes: &'a [u8],
    /// Whether that marker stood behind them.
    pub optionals: bool,
    /// Whether no slice follows.
    pub last: bool,
}

/// Passes over a slice with a size, from behind its type id on to its table. `BadSize` at the size where
/// it is below 4, `Short` there where fewer bytes are left; with optional members `BadTag` at the last
/// byte where that is no end marker, `Short` where there is none. A fault leaves the cursor as it was, and
/// it takes no memory. (Ice manual, "Data Encoding for Class and Exception Types".)
pub fn skip_slice<'a>(cursor: &mut Cursor<'a>, flags: u8) -> Result<UnknownPart<'a>, Fault>
    ensures takes { Takes (λ part. part.bytes.now) result cursor.old cursor.new
        (unknown_at (flags_of flags).has_optional cursor.old) }
    ensures flags { IfOk result (λ part. (part.optionals ≡ (flags_of flags).has_optional)
        × (part.last ≡ (flags_of flags).is_last)) }
{
    let optionals = is_odd(flags / 4);
    let mut ahead = cursor.fork();
    let bound = slice_bound(&mut ahead)?;
    let bytes = without_marker(optionals, &bound)?;
    *cursor = ahead;
    Ok(UnknownPart {
        bytes,
        optionals,
        last: is_odd(flags / 32),
    })
}

/// Whether the lowest bit of the flags is set, once those below it are shifted out.
fn is_odd(flags: u8) -> bool
    ensures { result ≡ spec.is_odd flags }
{
    flags % 2 == 1
}

/// What the size of a slice counts behind itself, as a cursor of its own. `BadSize` at the size where it
/// is below 4, `Short` there where fewer bytes are left. A fault leaves the cursor as it was.
pub fn slice_bound<'a>(cursor: &mut Cursor<'a>) -> Result<Cursor<'a>, Fault>
    ensures { Takes (λ bound. bound) result cursor.old cursor.new (bound_behind slice_size cursor.old) }
{
    let mut ahead = cursor.fork();
    let size = ahead.take_int()?;
    if size < 4 {
        return Err(cursor.fault(Kind::BadSize));
    }
    let length = (size - 4) as usize;
    if ahead.left() < length {
        return Err(cursor.fault(Kind::Short));
    }
    let bound = ahead.split(length)?;
    *cursor = ahead;
    Ok(bound)
}

/// The bytes before the end marker of optional members, where that stands behind them.
fn without_marker<'a>(optionals: bool, bound: &Cursor<'a>) -> Result<&'a [u8], Fault>
    ensures { FindsUnknown optionals bound.now result }
{
    let mut ahead = bound.fork();
    let length = ahead.left();
    if !optionals {
        return ahead.take_bytes(length);
    }
    if length == 0 {
        return Err(ahead.fault(Kind::Short));
    }
    let bytes = ahead.take_bytes(length - 1)?;
    let wrong = ahead.fault(Kind::BadTag);
    if ahead.take_byte()? != END_MARKER {
        return Err(wrong);
    }
    Ok(bytes)
}

/// The slice that is kept of a type id, what stood behind it, and the names in its table. Out of memory
/// leaves nothing.
pub fn keep(
    alloc: Global,
    id: Name,
    part: &UnknownPart<'_>,
    table: List<u32>,
) -> Result<Slice, AllocError>
    ensures { IfOk result (λ slice. view_slice slice ≡ unknown id part.now.bytes.now part.now.optionals table) }
{
    let mut bytes = Vec::new(alloc);
    bytes.extend_from_slice(part.bytes)?;
    let kept = UnknownSlice {
        id,
        bytes: List::from_vec(bytes),
        optionals: part.optionals,
        table,
    };
    Ok(Slice::Unknown(Box::new(alloc, kept)?))
}
