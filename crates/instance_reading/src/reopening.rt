//! An unknown slice, read as one of a class. (Ice manual, "Data Encoding for Class and Exception Types".)

ghost use Rattle.std.specs.Prelude.{◌≡◌, IfOk, true};
ghost use Rattle.ice_encoding.specs.CanonicalGraph.{is_there};
ghost use Rattle.ice_encoding.specs.Reopening.{reopened};
ghost use Rattle.ice_encoding.specs.Slices.{unknown_bytes};
ghost use Rattle.ice_prims.specs.Rest.{whole};
ghost use Rattle.ice_prims.specs.Taking.{GivesUnlessMemory};
ghost use Rattle.graph_arena.specs.Seen.{view_slice};
ghost use Rattle.preserved.specs.Unknown.{IsUnknown};
ghost use Rattle.instance_reading.specs.Reopened.{Resolves, members_reopened, reopened_slice};

use crate::sized::{SizedMembers, first_outside, read_places};
use encaps_optionals::end;
use graph_arena::{Slice, resolve_members};
use ice_prims::{Cursor, Fault, Kind, ReadFault, put_byte};
use ice_types::Schema;
use std::alloc::{AllocError, Global};
use value_parts::SlicedType;

/// What stands behind the optional members of a slice, and is not kept.
const END_MARKER: u8 = 255;

/// An unknown slice as one of a class of the schema: its bytes are the members of the class, and the references
/// in them are those of its table. The first fault from the left, whose place counts from the first byte
/// that is kept, or out of memory; nothing is left of either.
/// (Ice manual, "Data Encoding for Class and Exception Types".)
pub fn reopen(alloc: Global, schema: &Schema, class: u32, slice: &Slice) -> Result<Slice, ReadFault>
    requires { IsUnknown (view_slice slice.now) }
    ensures { GivesUnlessMemory view_slice result (reopened_slice schema.now class (view_slice slice.now)) }
{
    match slice {
        Slice::Known { .. } => unreachable!(),
        Slice::Unknown(kept) => {
            let bytes = kept.bytes.as_slice();
            reopen_bytes(
                alloc,
                schema,
                class,
                bytes,
                kept.optionals,
                kept.table.as_slice(),
            )
        }
    }
}

/// The same of the bytes that are kept, whether optional members stand in them, and the names in the table.
fn reopen_bytes(
    alloc: Global,
    schema: &Schema,
    class: u32,
    bytes: &[u8],
    optionals: bool,
    table: &[u32],
) -> Result<Slice, ReadFault>
    ensures { GivesUnlessMemory view_slice result (reopened schema.now class bytes.now optionals table.now) }
{
    if !optionals {
        return reopen_members(alloc, schema, class, optionals, table, bytes);
    }
    let marked = marked(alloc, bytes)?;
    reopen_members(alloc, schema, class, optionals, table, marked.as_slice())
}

/// The bytes with the end marker behind them.
fn marked(alloc: Global, bytes: &[u8]) -> Result<Vec<u8>, AllocError>
    ensures { IfOk result (λ all. all.items ≡ unknown_bytes true bytes.now) }
{
    let mut all = Vec::new(alloc);
    all.extend_from_slice(bytes)?;
    put_byte(&mut all, END_MARKER)?;
    Ok(all)
}

/// The same of all bytes of the members, the end marker of optional ones among them.
fn reopen_members(
    alloc: Global,
    schema: &Schema,
    class: u32,
    optionals: bool,
    table: &[u32],
    bytes: &[u8],
) -> Result<Slice, ReadFault>
    ensures { GivesUnlessMemory view_slice result
        (members_reopened schema.now class optionals table.now (whole bytes.now)) }
{
    let mut bound = Cursor::new(bytes);
    let tabled = is_there(table);
    match read_places(
        alloc,
        SlicedType::Class,
        schema,
        class,
        tabled,
        optionals,
        &mut bound,
    ) {
        Ok(read) => match end(&bound) {
            Ok(()) => resolve(class, read, table),
            Err(fault) => {
                drop(read);
                Err(ReadFault::Broken(fault))
            }
        },
        Err(fault) => Err(fault),
    }
}

/// The slice of these members, with the names in the table in place of places in it.
fn resolve(class: u32, mut read: SizedMembers, table: &[u32]) -> Result<Slice, ReadFault>
    ensures { Resolves class read table.now result }
{
    match first_outside(read.uses.as_slice(), table.len()) {
        Some(place) => {
            drop(read);
            Err(ReadFault::Broken(Fault {
                place,
                kind: Kind::BadReference,
            }))
        }
        None => {
            resolve_members(&mut read.members, table);
            Ok(Slice::Known {
                class,
                members: read.members,
            })
        }
    }
}

/// Whether there is an entry.
fn is_there(table: &[u32]) -> bool
    ensures { result ≡ is_there table.now }
{
    !table.is_empty()
}
