//! The encapsulation of an exception, or why there is none.

ghost use Rattle.std.specs.Prelude.{◌≡◌, ◌++◌, [], IfOk};
ghost use Rattle.ice_encoding.specs.UserExceptionTyped.{OfUserException};
ghost use Rattle.ice_encoding.specs.UserExceptionWritten.{user_exception_bytes};
ghost use Rattle.instance_writing.specs.Formats.{view_format};
ghost use Rattle.instance_writing.specs.Writable.{UserExceptionCanBeWritten};
ghost use Rattle.class_slices.specs.Enclosing.{unsized};
ghost use Rattle.class_slices.specs.ExceptionEncoding.{EncodesException};
ghost use Rattle.class_slices.specs.Seen.{IsRooted, view_user_exception};

use crate::enclosing::{begin_encaps, end_encaps};
use crate::exception_unknown::allow;
use crate::naming::{numbered, rooted};
use crate::user_exception::UserException;
use crate::user_exception_fault::UserExceptionFault;
use ice_types::Schema;
use instance_writing::{Format, write_user_exception};
use std::alloc::{AllocError, Global};
use value_checks::{first_ill_instance, is_user_exception};

/// The canonical encapsulation of the exception in the format, where the exception is of its type, the format
/// can carry it, and the encapsulation is not longer than the limit; else the first part that is not of its
/// type, the first that compact format cannot carry, or the length, in this order. The instances that its
/// slices lead to are named by the order of their first visits; the others are left out.
/// (Ice manual, "Data Encoding for Class and Exception Types".)
pub fn write_exception(
    alloc: Global,
    schema: &Schema,
    user_exception: UserException,
    format: Format,
    limit: u32,
) -> Result<Vec<u8>, UserExceptionFault>
    ensures { EncodesException schema.now (view_format format) (view_user_exception user_exception) limit result }
{
    if !is_user_exception(
        schema,
        &user_exception.graph,
        user_exception.slices.as_slice(),
    ) {
        drop(user_exception);
        return Err(UserExceptionFault::IllTyped(None));
    }
    let user_exception = rooted(alloc, user_exception)?;
    match first_ill_instance(alloc, schema, &user_exception.graph) {
        Ok(None) => write_typed(alloc, schema, user_exception, format, limit),
        Ok(Some(place)) => {
            drop(user_exception);
            Err(UserExceptionFault::IllTyped(Some(place)))
        }
        Err(_) => {
            drop(user_exception);
            Err(UserExceptionFault::Memory)
        }
    }
}

/// The same of an exception of its type, whose slices stand for the roots of its graph.
fn write_typed(
    alloc: Global,
    schema: &Schema,
    user_exception: UserException,
    format: Format,
    limit: u32,
) -> Result<Vec<u8>, UserExceptionFault>
    requires typed { OfUserException schema.now (view_user_exception user_exception) }
    requires rooted { IsRooted user_exception }
    ensures { EncodesException schema.now (view_format format) (view_user_exception user_exception) limit result }
{
    // Its contract says what every graph keeps.
    user_exception.graph.len();
    match allow(
        user_exception.slices.as_slice(),
        &user_exception.graph,
        format,
    ) {
        Ok(()) => {}
        Err(fault) => {
            drop(user_exception);
            return Err(fault);
        }
    }
    let numbered = numbered(alloc, user_exception)?;
    let begun = begun_with(alloc, schema, format, &numbered);
    drop(numbered);
    let out = begun?;
    match end_encaps(out, limit) {
        Ok(out) => Ok(out),
        Err(length) => Err(UserExceptionFault::TooLong(length)),
    }
}

/// An encapsulation that has begun, with the bytes of an exception whose instances are named by the order of
/// their first visits.
fn begun_with(
    alloc: Global,
    schema: &Schema,
    format: Format,
    numbered: &UserException,
) -> Result<Vec<u8>, AllocError>
    requires { UserExceptionCanBeWritten schema.now (view_user_exception numbered.now) }
    ensures { IfOk result (λ out. out.items
        ≡ unsized [] ++ user_exception_bytes schema.now (view_format format) (view_user_exception numbered.now)) }
{
    let mut out = begin_encaps(alloc)?;
    write_user_exception(
        alloc,
        schema,
        format,
        numbered.slices.as_slice(),
        &numbered.graph,
        &mut out,
    )?;
    Ok(out)
}
