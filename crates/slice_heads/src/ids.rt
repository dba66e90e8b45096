//! The id of a slice. (Ice manual, "Data Encoding for Class and Exception Types" and "Compact Type IDs".)

ghost use Rattle.std.specs.Prelude.{◌≡◌, OnOk};
ghost use Rattle.ice_encoding.specs.Flags.{as_index, as_text};
ghost use Rattle.value_parts.specs.declared.sliced_type.SlicedType.TheVariants as sorts;
ghost use Rattle.slice_heads.specs.Heads.{FindsId, ReadsId, ReadsIdIn, TakesTypeId};

use crate::arena::Arena;
use ice_prims::{Cursor, Fault, Kind, ReadFault};
use ice_types::is_numbered;
use value_parts::{SliceId, SlicedType};

/// The id of a slice with these flags.
pub fn take_id<'a>(
    sort: SlicedType,
    flags: u8,
    cursor: &mut Cursor<'a>,
    arena: &mut Arena<'a>,
) -> Result<SliceId<'a>, ReadFault>
    ensures id { ReadsId sort flags result arena.old cursor.old arena.new cursor.new }
    ensures instances { OnOk result (arena.new.instances ≡ arena.old.instances) }
{
    match sort {
        SlicedType::Class => take_counted_id(flags, cursor, arena),
        SlicedType::Exception => Ok(SliceId::Text(take_type_id(cursor)?)),
    }
}

/// That of a slice of an instance: a type id, which takes the next index, or the index of one, or a compact id.
fn take_counted_id<'a>(
    flags: u8,
    cursor: &mut Cursor<'a>,
    arena: &mut Arena<'a>,
) -> Result<SliceId<'a>, ReadFault>
    ensures id { ReadsId sorts.Class flags result arena.old cursor.old arena.new cursor.new }
    ensures instances { OnOk result (arena.new.instances ≡ arena.old.instances) }
{
    match flags % 4 {
        0 => Ok(SliceId::Text("")),
        1 => take_new_id(cursor, arena),
        2 => take_indexed_id(cursor, arena),
        _ => Ok(SliceId::Number(cursor.take_size()?)),
    }
}

/// A type id, which takes the next index.
fn take_new_id<'a>(cursor: &mut Cursor<'a>, arena: &mut Arena<'a>) -> Result<SliceId<'a>, ReadFault>
    ensures id { ReadsIdIn as_text sorts.Class result arena.old cursor.old arena.new cursor.new }
    ensures instances { OnOk result (arena.new.instances ≡ arena.old.instances) }
{
    let id = take_type_id(cursor)?;
    arena.add_id(id)?;
    Ok(SliceId::Text(id))
}

/// The type id of an index.
fn take_indexed_id<'a>(cursor: &mut Cursor<'a>, arena: &Arena<'a>) -> Result<SliceId<'a>, ReadFault>
    ensures { ReadsIdIn as_index sorts.Class result arena.now cursor.old arena.now cursor.new }
{
    let unknown = cursor.fault(Kind::BadTypeId);
    let index = cursor.take_size()?;
    Ok(SliceId::Text(id_at(arena, index, unknown)?))
}

/// A type id as a text, which does not begin with `#`.
fn take_type_id<'a>(cursor: &mut Cursor<'a>) -> Result<&'a str, Fault>
    ensures { TakesTypeId result cursor.old cursor.new }
{
    let numbered = cursor.fault(Kind::BadTypeId);
    let id = cursor.take_str()?;
    if is_numbered(id) {
        return Err(numbered);
    }
    Ok(id)
}

/// The type id of an index, counted from 1.
fn id_at<'a>(arena: &Arena<'a>, index: u32, unknown: Fault) -> Result<&'a str, ReadFault>
    ensures { FindsId unknown index arena.now.ids result }
{
    if index == 0 {
        return Err(ReadFault::Broken(unknown));
    }
    match arena.id(index - 1) {
        Some(id) => Ok(id),
        None => Err(ReadFault::Broken(unknown)),
    }
}
