//! Lengths that stand before the value of an optional member. (Ice manual, "Data Encoding for Optional
//! Values".)

ghost use Rattle.ice_prims.specs.Taking.{Takes};
ghost use Rattle.ice_encoding.specs.Parts.{size};
ghost use Rattle.ice_encoding.specs.Skipping.{count, bound_behind};

use ice_prims::{Cursor, Fault, Kind};

/// The bytes that a size counts, as a cursor of its own in which places go on counting. `Short` at the
/// size where fewer are left. A refusal leaves the cursor as it was. It takes no memory.
pub fn bound_by_size<'a>(cursor: &mut Cursor<'a>) -> Result<Cursor<'a>, Fault>
    ensures { Takes (λ bound. bound) result cursor.old cursor.new (bound_behind size cursor.old) }
{
    let mut ahead = cursor.fork();
    let length = ahead.take_size()?;
    if ahead.left() < length as usize {
        return Err(cursor.fault(Kind::Short));
    }
    let bound = ahead.split(length as usize)?;
    *cursor = ahead;
    Ok(bound)
}

/// The bytes that an int counts, as a cursor of its own in which places go on counting. `BadSize` at the
/// int where it is negative, `Short` there where fewer are left. A refusal leaves the cursor as it was. It
/// takes no memory.
pub fn bound_by_int<'a>(cursor: &mut Cursor<'a>) -> Result<Cursor<'a>, Fault>
    ensures { Takes (λ bound. bound) result cursor.old cursor.new (bound_behind count cursor.old) }
{
    let mut ahead = cursor.fork();
    let length = ahead.take_int()?;
    if length < 0 {
        return Err(cursor.fault(Kind::BadSize));
    }
    if ahead.left() < length as usize {
        return Err(cursor.fault(Kind::Short));
    }
    let bound = ahead.split(length as usize)?;
    *cursor = ahead;
    Ok(bound)
}
