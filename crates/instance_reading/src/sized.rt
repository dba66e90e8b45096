//! A slice with a size: its members, in which references are places in its table, or what is kept of it, and
//! the size of the table.
//! (Ice manual, "Data Encoding for Class and Exception Types".)

ghost use Rattle.std.specs.Prelude.{◌≡◌, true, false};
ghost use Rattle.ice_encoding.specs.Pausing.{Inside, in_place};
ghost use Rattle.ice_encoding.specs.OptionalMembers.{slice_members_at};
ghost use Rattle.ice_encoding.specs.Classes.{own_members};
ghost use Rattle.ice_encoding.specs.Classes as classes;
ghost use Rattle.ice_encoding.specs.Flags.{flags_of};
ghost use Rattle.ice_values.specs.Advancing.{ReadsMembers};
ghost use Rattle.value_parts.specs.SlicedType.{rows_of};
ghost use Rattle.slice_heads.specs.Seen.{view_next, view_references};
ghost use Rattle.value_parts.specs.SliceIds.{id_of};
ghost use Rattle.instance_reading.specs.Slices.{OpensUnknown, OpensSized, ReadsPlaces, ReadsSized};
ghost use Rattle.instance_reading.specs.Slices.{SeesTable, first_outside};
ghost use Rattle.slice_heads.specs.Sorts as sorts;

use encaps_optionals::end;
use graph_arena::Members;
use ice_prims::{Cursor, Fault, Kind, ReadFault};
use ice_types::{List, Schema};
use ice_values::read_members;
use preserved::{UnknownPart, skip_slice, slice_bound};
use slice_heads::{Before, InTable, Reference, Untabled, is_odd, optionals};
use std::alloc::Global;
use value_parts::{RefPort, SliceId, SlicedType};

/// The members of a slice, and the references that were met in them, all of which are places in the
/// slice's table.
#[derive(Drop)]
pub(crate) struct SizedMembers {
    pub members: Members,
    pub uses: Vec<Reference>,
}

/// What stands in a slice with a size before its table.
#[derive(Drop)]
pub(crate) enum Body<'a> {
    /// The members of a known class, and the references that were met in them, which are places in the
    /// slice's table.
    Members {
        class: u32,
        members: Members,
        uses: Vec<Reference>,
    },
    /// What is kept of a class that is not known.
    Unknown {
        id: SliceId<'a>,
        part: UnknownPart<'a>,
    },
}

/// A slice whose table is being read.
#[derive(Drop)]
pub(crate) struct OpenSlice<'a> {
    pub body: Body<'a>,
    /// What the next slice follows, None where this one is the last.
    pub next: Option<Before>,
    /// The entries that are read.
    pub table: List<u32>,
    /// How many entries are left.
    pub left: u32,
}

/// A slice of a known class begins behind its type id: its size and members, and the size of its table.
pub(crate) fn open_sized<'a>(
    alloc: Global,
    sort: SlicedType,
    schema: &Schema,
    class: u32,
    flags: u8,
    cursor: &mut Cursor<'_>,
) -> Result<OpenSlice<'a>, ReadFault>
    ensures { OpensSized sort schema.now (flags_of flags) class result cursor.old cursor.new }
{
    let read = match read_sized(alloc, sort, schema, class, flags, cursor) {
        Ok(read) => read,
        Err(fault) => return Err(fault),
    };
    match take_table(flags, read.uses.as_slice(), cursor) {
        Ok(left) => Ok(OpenSlice {
            body: Body::Members {
                class,
                members: read.members,
                uses: read.uses,
            },
            next: behind_base(sort, schema, class, true),
            table: List::new(alloc),
            left,
        }),
        Err(fault) => {
            drop(read);
            Err(ReadFault::Broken(fault))
        }
    }
}

/// A slice of a class that is not known begins behind its type id: its size and its bytes, and the size of
/// its table.
pub(crate) fn open_unknown<'a>(
    alloc: Global,
    id: SliceId<'a>,
    flags: u8,
    cursor: &mut Cursor<'a>,
) -> Result<OpenSlice<'a>, Fault>
    ensures { OpensUnknown (id_of id.entry) (flags_of flags) result cursor.old cursor.new }
{
    let part = skip_slice(cursor, flags)?;
    let left = take_table(flags, &[], cursor)?;
    Ok(OpenSlice {
        body: Body::Unknown { id, part },
        next: behind_unknown(flags),
        table: List::new(alloc),
        left,
    })
}

/// What the next slice follows behind one of a class that is not known, None behind the last.
fn behind_unknown(flags: u8) -> Option<Before>
    ensures { view_next result ≡ sorts.behind_unknown (flags_of flags).is_last }
{
    if is_odd(flags / 32) {
        return None;
    }
    Some(Before::OnlyUnknown)
}

/// What the next slice follows behind one of a known class, which is the last where that has no base.
pub(crate) fn behind_base(
    sort: SlicedType,
    schema: &Schema,
    class: u32,
    sized: bool,
) -> Option<Before>
    ensures { view_next result ≡ sorts.behind_base sized (classes.base_of (rows_of sort schema.now) class) }
{
    let base = sort.base_of(schema, class)?;
    Some(Before::Derived { sized, base })
}

/// The size of a slice, and its members, with places in its table as references.
fn read_sized(
    alloc: Global,
    sort: SlicedType,
    schema: &Schema,
    class: u32,
    flags: u8,
    cursor: &mut Cursor<'_>,
) -> Result<SizedMembers, ReadFault>
    ensures { ReadsSized sort schema.now class (flags_of flags).has_table
        (flags_of flags).has_optional result cursor.old cursor.new }
{
    let mut bound = slice_bound(cursor)?;
    match read_in_bound(alloc, sort, schema, class, flags, &mut bound) {
        Ok(read) => match end(&bound) {
            Ok(()) => Ok(read),
            Err(fault) => {
                drop(read);
                Err(ReadFault::Broken(fault))
            }
        },
        Err(fault) => Err(fault),
    }
}

/// The members, in the bound that the size gives.
fn read_in_bound(
    alloc: Global,
    sort: SlicedType,
    schema: &Schema,
    class: u32,
    flags: u8,
    bound: &mut Cursor<'_>,
) -> Result<SizedMembers, ReadFault>
    ensures { ReadsPlaces sort schema.now class (flags_of flags).has_table
        (flags_of flags).has_optional result bound.old bound.new }
{
    let flagged = is_odd(flags / 4);
    read_places(
        alloc,
        sort,
        schema,
        class,
        is_odd(flags / 8),
        flagged,
        bound,
    )
}

/// The members of a class, with places in a table as references, where there is a table.
pub(crate) fn read_places(
    alloc: Global,
    sort: SlicedType,
    schema: &Schema,
    class: u32,
    tabled: bool,
    flagged: bool,
    bound: &mut Cursor<'_>,
) -> Result<SizedMembers, ReadFault>
    ensures { ReadsPlaces sort schema.now class tabled flagged result bound.old bound.new }
{
    if tabled {
        read_tabled(alloc, sort, schema, class, flagged, bound)
    } else {
        read_untabled(alloc, sort, schema, class, flagged, bound)
    }
}

/// The members of a slice that has a table.
fn read_tabled(
    alloc: Global,
    sort: SlicedType,
    schema: &Schema,
    class: u32,
    flagged: bool,
    bound: &mut Cursor<'_>,
) -> Result<SizedMembers, ReadFault>
    ensures { ReadsPlaces sort schema.now class true flagged result bound.old bound.new }
{
    let mut port = InTable::new(alloc);
    match read_own(alloc, sort, schema, class, flagged, bound, &mut port) {
        Ok(members) => Ok(SizedMembers {
            members,
            uses: port.into_uses(),
        }),
        Err(fault) => Err(fault),
    }
}

/// The members of a slice that has none.
fn read_untabled(
    alloc: Global,
    sort: SlicedType,
    schema: &Schema,
    class: u32,
    flagged: bool,
    bound: &mut Cursor<'_>,
) -> Result<SizedMembers, ReadFault>
    ensures { ReadsPlaces sort schema.now class false flagged result bound.old bound.new }
{
    let mut port = Untabled::new();
    match read_own(alloc, sort, schema, class, flagged, bound, &mut port) {
        Ok(members) => {
            port.is_unused();
            Ok(SizedMembers {
                members,
                uses: Vec::new(alloc),
            })
        }
        Err(fault) => Err(fault),
    }
}

/// The members that a class has itself, at a port at which nothing begins.
fn read_own<P: RefPort>(
    alloc: Global,
    sort: SlicedType,
    schema: &Schema,
    class: u32,
    flagged: bool,
    bound: &mut Cursor<'_>,
    port: &mut P,
) -> Result<Members, ReadFault>
    requires { P.room port.old ≡ 0 }
    ensures { (inside : Inside P)
        → ReadsMembers result
        (slice_members_at (in_place P.take inside) (rows_of sort schema.now) flagged
        (own_members (rows_of sort schema.now) class) port.old bound.old) port.new bound.new }
{
    read_members(
        alloc,
        schema,
        sort.own_fields(schema, class),
        optionals(flagged),
        bound,
        port,
    )
}

/// How many entries the table of a slice has. Each place that was met in the slice is among them, else
/// the first that is not has the fault. A slice without a table has none.
fn take_table(flags: u8, uses: &[Reference], cursor: &mut Cursor<'_>) -> Result<u32, Fault>
    ensures { SeesTable (flags_of flags).has_table (view_references uses.now) result cursor.old cursor.new }
{
    if !is_odd(flags / 8) {
        return Ok(0);
    }
    let count = cursor.take_size()?;
    match first_outside(uses, count as usize) {
        Some(place) => Err(Fault {
            place,
            kind: Kind::BadReference,
        }),
        None => Ok(count),
    }
}

/// The place of the first reference that is past a table's end.
pub(crate) fn first_outside(uses: &[Reference], count: usize) -> Option<u64>
    ensures { result ≡ first_outside count (view_references uses.now) }
{
    for used in uses {
        if used.name as usize >= count {
            return Some(used.place);
        }
    }
    None
}
