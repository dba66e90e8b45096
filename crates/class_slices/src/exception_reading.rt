//! The exception in an encapsulation.

ghost use Rattle.std.specs.Prelude.{◌≡◌, IfOk};
ghost use Rattle.ice_prims.specs.Rest.{whole};
ghost use Rattle.ice_prims.specs.Taking.{GivesUnlessMemory, TakesUnlessMemory};
ghost use Rattle.ice_encoding.specs.Encapsulation.{encapsulated_at};
ghost use Rattle.ice_encoding.specs.Exceptions.{exception_at, user_exception_at};
ghost use Rattle.ice_encoding.specs.Flags.{all_slices};
ghost use Rattle.ice_encoding.specs.UserExceptionTyped.{OfUserException};
ghost use Rattle.graph_arena.specs.Seen.{view_content};
ghost use Rattle.class_slices.specs.Seen.{no_members, view_user_exception};
ghost use Rattle.instance_reading.specs.Stacked.{view_user_exception as view_read};

use crate::enclosing::left_are_bytes;
use crate::user_exception::UserException;
use encaps_optionals::{end, open_encaps};
use graph_arena::{Graph, Members, ThinList};
use ice_prims::{Cursor, ReadFault};
use ice_types::{List, Schema};
use instance_reading::{UserExceptionContent, read_user_exception};
use std::alloc::Global;

/// The exception that the whole input holds in one encapsulation, or the first fault: slices in either format,
/// those of exceptions that the schema lacks kept, and each instance named by the order in which it begins.
/// Nothing may follow the slices, or the encapsulation.
/// (Ice manual, "Data Encoding for Class and Exception Types".)
pub fn read_exception(
    alloc: Global,
    schema: &Schema,
    input: &[u8],
) -> Result<UserException, ReadFault>
    ensures reads { GivesUnlessMemory view_user_exception result
        (exception_at schema.now all_slices (whole input.now)) }
    ensures typed { IfOk result (λ user_exception. OfUserException schema.now (view_user_exception user_exception)) }
{
    let mut cursor = Cursor::new(input);
    // A text is of its type since what is read are bytes.
    left_are_bytes(&cursor);
    let content = take_content(alloc, schema, &mut cursor)?;
    match end(&cursor) {
        Ok(()) => {
            schema.rules();
            Ok(UserException {
                slices: content.slices,
                graph: Graph::of(none(alloc), content.instances),
            })
        }
        Err(fault) => {
            drop(content);
            Err(ReadFault::Broken(fault))
        }
    }
}

/// What the encapsulation that begins here holds, whatever follows it. The cursor goes on after it; a fault
/// leaves the cursor as it was.
fn take_content(
    alloc: Global,
    schema: &Schema,
    cursor: &mut Cursor<'_>,
) -> Result<UserExceptionContent, ReadFault>
    ensures { TakesUnlessMemory view_read result cursor.old cursor.new
        (encapsulated_at (user_exception_at schema.now all_slices) cursor.old) }
{
    let mut ahead = cursor.fork();
    let mut inside = open_encaps(&mut ahead)?;
    let content = read_user_exception(alloc, schema, &mut inside)?;
    *cursor = ahead;
    Ok(content)
}

/// No members.
fn none(alloc: Global) -> Members
    ensures { view_content result ≡ no_members }
{
    Members {
        required: List::new(alloc),
        optional: ThinList::new(),
    }
}
