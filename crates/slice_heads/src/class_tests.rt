//! The class of a slice, or the exception, and whether the slice may stand where it does.
//! (Ice manual, "Data Encoding for Class and Exception Types".)

ghost use Rattle.std.specs.Prelude.{◌≡◌, Some};
ghost use Rattle.ice_encoding.specs.Flags.{flags_of};
ghost use Rattle.value_parts.specs.SlicedType.{rows_of};
ghost use Rattle.value_parts.specs.SliceIds.{id_of};
ghost use Rattle.slice_heads.specs.Heads.{Tests};
ghost use Rattle.slice_heads.specs.Seen.{view_before};
ghost use Rattle.slice_heads.specs.Sorts.{class_by, ends_by, is_over};

use crate::before::Before;
use crate::flags::is_odd;
use ice_prims::{Cursor, Fault, Kind};
use ice_types::Schema;
use value_parts::{SliceId, SlicedType};

/// The class of a slice, or the exception: by its id, or of an instance without one the base that follows.
pub fn class_in(sort: SlicedType, schema: &Schema, before: Before, id: SliceId<'_>) -> Option<u32>
    ensures { result ≡ class_by sort (rows_of sort schema.now) (view_before before) (id_of id.entry) }
{
    match sort {
        SlicedType::Exception => id.row(sort, schema),
        SlicedType::Class => match before {
            Before::Derived { sized: false, base } => Some(base),
            Before::First | Before::OnlyUnknown | Before::Derived { sized: true, .. } => {
                id.row(sort, schema)
            }
        },
    }
}

/// Whether a slice of the class may stand here: the base of the one before it; a known one, or one with a
/// size; and of a known one the last or not.
pub fn test_class(
    sort: SlicedType,
    schema: &Schema,
    before: Before,
    flags: u8,
    flags_place: u64,
    id_place: u64,
    class: Option<u32>,
) -> Result<(), Fault>
    ensures { Tests sort schema.now (view_before before) (flags_of flags) flags_place id_place class result }
{
    if let Before::Derived { base, .. } = before
        && class != Some(base)
    {
        return Err(Fault {
            place: id_place,
            kind: Kind::WrongBase,
        });
    }
    match class {
        None if is_odd(flags / 16) => Ok(()),
        None => Err(Fault {
            place: id_place,
            kind: Kind::UnknownClass,
        }),
        Some(class) if ends_well(sort, schema, class, flags) => Ok(()),
        Some(_) => Err(Fault {
            place: flags_place,
            kind: Kind::BadLast,
        }),
    }
}

/// Whether a slice of a known class tells rightly that it is the last: of an instance exactly where the class
/// has no base; of an exception nowhere else, but it need not.
fn ends_well(sort: SlicedType, schema: &Schema, class: u32, flags: u8) -> bool
    ensures { result ≡ ends_by sort (rows_of sort schema.now) (Some class) (flags_of flags) }
{
    let is_last = is_odd(flags / 32);
    let is_base = sort.base_of(schema, class).is_none();
    match sort {
        SlicedType::Class => is_last == is_base,
        SlicedType::Exception => !is_last || is_base,
    }
}

/// Whether no slice has to follow: what is kept of an exception is the last where nothing is left behind it.
pub fn is_over(sort: SlicedType, before: Before, cursor: &Cursor<'_>) -> bool
    ensures { result ≡ is_over sort (view_before before) cursor.now.bytes }
{
    match sort {
        SlicedType::Class => false,
        SlicedType::Exception => match before {
            Before::OnlyUnknown => cursor.left() == 0,
            Before::First | Before::Derived { .. } => false,
        },
    }
}
