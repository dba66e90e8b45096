//! The flags of a slice. (Ice manual, "Data Encoding for Class and Exception Types".)

ghost use Rattle.std.specs.Prelude.{◌≡◌};
ghost use Rattle.ice_encoding.specs.Exceptions as exceptions;
ghost use Rattle.ice_encoding.specs.Flags.{flags_of, has_id, is_odd};
ghost use Rattle.ice_encoding.specs.Flags as spec;
ghost use Rattle.slice_heads.specs.Seen.{by_flag, view_before};
ghost use Rattle.slice_heads.specs.Heads.{SeesFlags};
ghost use Rattle.slice_heads.specs.Sorts.{may_begin};

use crate::before::Before;
use ice_prims::{Cursor, Fault, Kind};
use value_parts::{Optionals, SlicedType};

/// Whether the lowest bit of the flags is set, once those below it are shifted out.
pub fn is_odd(flags: u8) -> bool
    ensures { result ≡ is_odd flags }
{
    flags % 2 == 1
}

/// The flags of a slice that may stand behind this one.
pub fn take_flags(sort: SlicedType, before: Before, cursor: &mut Cursor<'_>) -> Result<u8, Fault>
    ensures { SeesFlags sort (view_before before) result cursor.old cursor.new }
{
    let wrong = cursor.fault(Kind::BadFlags);
    let flags = cursor.take_byte()?;
    if flags >= 64 || !may_begin(sort, before, flags) {
        return Err(wrong);
    }
    Ok(flags)
}

/// Whether a slice with these flags may stand there.
fn may_begin(sort: SlicedType, before: Before, flags: u8) -> bool
    ensures { result ≡ may_begin sort (view_before before) (flags_of flags) }
{
    match sort {
        SlicedType::Class => may_stand(before, flags),
        SlicedType::Exception => may_be_raised(before, flags),
    }
}

/// Whether a slice of an instance with these flags may stand there. The first one has a type id, and each behind a
/// slice with a size has both; behind one without a size it has neither. A table comes with a size alone.
fn may_stand(before: Before, flags: u8) -> bool
    ensures { result ≡ spec.may_stand (view_before before) (flags_of flags) }
{
    let has_id = has_id(flags);
    let has_table = is_odd(flags / 8);
    let has_size = is_odd(flags / 16);
    match before {
        Before::First => has_id && (has_size || !has_table),
        Before::OnlyUnknown | Before::Derived { sized: true, .. } => has_id && has_size,
        Before::Derived { sized: false, .. } => !has_id && !has_size && !has_table,
    }
}

/// Whether a slice of an exception with these flags may stand there. The bits of a type id are clear; behind
/// a slice with a size each has one, behind one without a size none has.
fn may_be_raised(before: Before, flags: u8) -> bool
    ensures { result ≡ exceptions.may_be_raised (view_before before) (flags_of flags) }
{
    let has_id = has_id(flags);
    let has_table = is_odd(flags / 8);
    let has_size = is_odd(flags / 16);
    match before {
        Before::First => !has_id && (has_size || !has_table),
        Before::OnlyUnknown | Before::Derived { sized: true, .. } => !has_id && has_size,
        Before::Derived { sized: false, .. } => !has_id && !has_size && !has_table,
    }
}

/// Whether a type id stands behind the flags.
fn has_id(flags: u8) -> bool
    ensures { result ≡ has_id (flags_of flags).id }
{
    flags % 4 != 0
}

/// Where the optional members of a slice stand, by its flag.
pub fn optionals(flagged: bool) -> Optionals
    ensures { result ≡ by_flag flagged }
{
    if flagged {
        Optionals::Marked
    } else {
        Optionals::Absent
    }
}
