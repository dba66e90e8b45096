//! Members with the instances that begin in them, without recursion over instances.

ghost use Rattle.ice_encoding.specs.Flags.{all_slices};
ghost use Rattle.ice_encoding.specs.Instances.{graph_at, most_instances};
ghost use Rattle.ice_encoding.specs.References.{inline_at};
ghost use Rattle.value_parts.specs.Shapes.{handed, shape_seen};
ghost use Rattle.ice_values.specs.Unread.{left_of_members};
ghost use Rattle.instance_reading.specs.Stacked.{ReadsGraph, ReadsRoots, instance_within, roots_at};

use crate::nesting::read_instance;
use graph_arena::{Instance, Members};
use ice_prims::{Cursor, ReadFault};
use ice_types::Schema;
use ice_values::MembersReader;
use slice_heads::Arena;
use std::alloc::Global;
use value_parts::{DeclaredMembers, Optionals, Paused};

/// The members of a whole content, and the instances that begin in it, each named by its place.
#[derive(Drop)]
pub struct Content {
    pub roots: Members,
    pub instances: Vec<Instance>,
}

/// The members that fill a content, with the instances that begin in it: slices of known classes, in
/// either format, and at most 100,000 instances. The first fault from the left, or out of memory, leaves
/// the cursor anywhere on the way; a reference to an instance whose class does not fit is the fault where
/// there is no other.
/// (Ice manual, "Data Encoding for Class and Exception Types".)
pub fn read_content<'a>(
    alloc: Global,
    schema: &Schema,
    fields: DeclaredMembers<'_>,
    cursor: &mut Cursor<'a>,
) -> Result<Content, ReadFault>
    ensures { ReadsGraph result (graph_at schema.now all_slices (shape_seen fields.entry) cursor.old) cursor.new }
{
    let mut arena = Arena::new(alloc);
    match read_roots(alloc, schema, fields, cursor, &mut arena) {
        Ok(roots) => match arena.all_fit(schema) {
            Ok(()) => Ok(Content {
                roots,
                instances: arena.into_instances(),
            }),
            Err(fault) => {
                drop(roots);
                drop(arena);
                Err(ReadFault::Broken(fault))
            }
        },
        Err(fault) => {
            drop(arena);
            Err(fault)
        }
    }
}

/// The members, and what is met in them, before it is known whether classes fit.
fn read_roots<'a>(
    alloc: Global,
    schema: &Schema,
    fields: DeclaredMembers<'_>,
    cursor: &mut Cursor<'a>,
    arena: &mut Arena<'a>,
) -> Result<Members, ReadFault>
    ensures { ReadsRoots result
        (roots_at schema.now (shape_seen fields.entry) arena.old cursor.old) arena.new cursor.new }
{
    let mut reader = MembersReader::new(alloc, Optionals::ToEnd);
    let result = read_through(alloc, schema, fields, &mut reader, cursor, arena);
    drop(reader);
    result
}

/// Reads on to the end of the members, with the instances that begin in them.
fn read_through<'a>(
    alloc: Global,
    schema: &Schema,
    fields: DeclaredMembers<'_>,
    reader: &mut MembersReader<'a>,
    cursor: &mut Cursor<'a>,
    arena: &mut Arena<'a>,
) -> Result<Members, ReadFault>
    ensures { ReadsRoots result
        (left_of_members (inline_at most_instances) schema.now (instance_within schema.now most_instances)
        (handed fields.entry) reader.old arena.old cursor.old) arena.new cursor.new }
{
    loop {
        match reader.go(alloc, schema, fields, cursor, arena) {
            Ok(Paused::Done(members)) => return Ok(members),
            Ok(Paused::Begins(name)) => {
                read_instance(alloc, schema, name, cursor, arena)?;
            }
            Err(fault) => return Err(fault),
        }
    }
}
