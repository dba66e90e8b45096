//! A user exception with the instances that begin in it.
//! (Ice manual, "Data Encoding for Class and Exception Types".)

ghost use Rattle.ice_encoding.specs.Exceptions.{user_exception_at};
ghost use Rattle.ice_encoding.specs.Flags.{all_slices};
ghost use Rattle.ice_encoding.specs.Instances.{most_instances};
ghost use Rattle.value_parts.specs.declared.sliced_type.SlicedType.TheVariants as sorts;
ghost use Rattle.instance_reading.specs.Stacked.{ReadsUserException, ReadsSlices, exception_slices, instance_within};
ghost use Rattle.instance_reading.specs.Unfinished.{left_slices};

use crate::nesting::read_instance;
use crate::unfinished::Unfinished;
use encaps_optionals::end;
use graph_arena::{Instance, Slice};
use ice_prims::{Cursor, ReadFault};
use ice_types::{List, Schema};
use slice_heads::Arena;
use std::alloc::Global;
use std::mem;
use value_parts::{Paused, SlicedType};

/// The slices of a user exception, in which a known one names an exception of the schema by its place, and
/// the instances that begin in them, each named by its place.
#[derive(Drop)]
pub struct UserExceptionContent {
    pub slices: List<Slice>,
    pub instances: Vec<Instance>,
}

/// What an encapsulation of a user exception holds: its slices, from the most derived exception on, with the
/// instances that begin in them, up to the end of the bytes. Slices of exceptions that the schema lacks are
/// kept; the last of them is the last of all where nothing is left behind it, its flag or not. The first fault
/// from the left, or out of memory, leaves the cursor anywhere on the way; `LeftOver` where bytes are left; a
/// reference to an instance whose class does not fit is the fault where there is no other.
/// (Ice manual, "Data Encoding for Class and Exception Types".)
pub fn read_user_exception<'a>(
    alloc: Global,
    schema: &Schema,
    cursor: &mut Cursor<'a>,
) -> Result<UserExceptionContent, ReadFault>
    ensures { ReadsUserException result (user_exception_at schema.now all_slices cursor.old) cursor.new }
{
    let mut arena = Arena::new(alloc);
    match read_slices(alloc, schema, cursor, &mut arena) {
        Ok(slices) => match end(cursor) {
            Ok(()) => match arena.all_fit(schema) {
                Ok(()) => Ok(UserExceptionContent {
                    slices,
                    instances: arena.into_instances(),
                }),
                Err(fault) => {
                    drop(slices);
                    drop(arena);
                    Err(ReadFault::Broken(fault))
                }
            },
            Err(fault) => {
                drop(slices);
                drop(arena);
                Err(ReadFault::Broken(fault))
            }
        },
        Err(fault) => {
            drop(arena);
            Err(fault)
        }
    }
}

/// The slices, and what is met in them, before it is known whether classes fit.
fn read_slices<'a>(
    alloc: Global,
    schema: &Schema,
    cursor: &mut Cursor<'a>,
    arena: &mut Arena<'a>,
) -> Result<List<Slice>, ReadFault>
    ensures { ReadsSlices result (exception_slices schema.now arena.old cursor.old) arena.new cursor.new }
{
    let mut user_exception = Unfinished::new(alloc, 0, cursor);
    let result = read_through(alloc, schema, &mut user_exception, cursor, arena);
    drop(user_exception);
    result
}

/// Reads on to the end of the slices, with the instances that begin in them.
fn read_through<'a>(
    alloc: Global,
    schema: &Schema,
    user_exception: &mut Unfinished<'a>,
    cursor: &mut Cursor<'a>,
    arena: &mut Arena<'a>,
) -> Result<List<Slice>, ReadFault>
    ensures { ReadsSlices result
        (left_slices (instance_within schema.now most_instances) sorts.Exception schema.now user_exception.old
        arena.old cursor.old) arena.new cursor.new }
{
    loop {
        match user_exception.go(alloc, SlicedType::Exception, schema, cursor, arena) {
            Ok(Paused::Done(())) => {
                return Ok(mem::replace(&mut user_exception.slices, List::new(alloc)));
            }
            Ok(Paused::Begins(name)) => {
                read_instance(alloc, schema, name, cursor, arena)?;
            }
            Err(fault) => return Err(fault),
        }
    }
}
