//! Reading a call and an answer. (Ice manual, "Protocol Messages".)

ghost use Rattle.std.specs.Prelude.{◌≡◌, ◌<◌, ℕ, List};
ghost use Rattle.ice_prims.specs.Number.{text_at};
ghost use Rattle.ice_encoding.specs.Identity.{identity};
ghost use Rattle.ice_encoding.specs.Bounds.{claimed};
ghost use Rattle.ice_messages.specs.Calls.{mode, encapsulation, call, answer, answer_by, missing};
ghost use Rattle.ice_messages.specs.Answers.{ReadsPart};
ghost use Rattle.ice_prims.specs.Taking.{Takes};

use crate::message::{Answer, Call};
use crate::read_context::take_context;
use encaps_optionals::{claimed_size, take_facet};
use ice_encoding::SMALLEST;
use ice_prims::{Cursor, Fault, Kind, ReadFault};
use ice_types::{Bytes, Identity, List, Name};
use std::alloc::Global;

/// A call: whose operation it is, its facet, name, mode, context and arguments.
pub fn take_call(alloc: Global, cursor: &mut Cursor<'_>) -> Result<Call, ReadFault>
    ensures { ReadsPart result cursor.new (call.read cursor.old) }
{
    let identity = take_identity(alloc, cursor)?;
    let facet = take_facet(alloc, cursor)?;
    let operation = take_text(alloc, cursor)?;
    let mode = take_mode(cursor)?;
    let context = take_context(alloc, cursor)?;
    let body = take_encapsulation(alloc, cursor)?;
    Ok(Call {
        identity,
        facet,
        operation,
        mode,
        context,
        body,
    })
}

/// A string, as a text of its own.
pub fn take_text(alloc: Global, cursor: &mut Cursor<'_>) -> Result<Name, ReadFault>
    ensures { ReadsPart result cursor.new (text_at cursor.old) }
{
    Ok(Name::of(alloc, cursor.take_str()?)?)
}

fn take_identity(alloc: Global, cursor: &mut Cursor<'_>) -> Result<Identity, ReadFault>
    ensures { ReadsPart result cursor.new (identity.read cursor.old) }
{
    let name = take_text(alloc, cursor)?;
    let category = take_text(alloc, cursor)?;
    Ok(Identity { name, category })
}

/// 0 normal, 1 nonmutating, 2 idempotent.
fn take_mode(cursor: &mut Cursor<'_>) -> Result<u8, ReadFault>
    ensures { ReadsPart result cursor.new (mode.read cursor.old) }
{
    let wrong = cursor.fault(Kind::BadMode);
    let mode = cursor.take_byte()?;
    if mode <= 2 {
        Ok(mode)
    } else {
        Err(ReadFault::Broken(wrong))
    }
}

/// An encapsulation from its size on, whatever its version and content.
fn take_encapsulation(alloc: Global, cursor: &mut Cursor<'_>) -> Result<Bytes, ReadFault>
    ensures { ReadsPart result cursor.new (encapsulation.read cursor.old) }
{
    let mut ahead = cursor.fork();
    let claim = ahead.take_int()?;
    let size = claimed_size(cursor.place(), cursor.left(), SMALLEST, claim)?;
    let bytes = cursor.take_bytes(size)?;
    Ok(Bytes::from_vec(Vec::from_slice(alloc, bytes)?))
}

/// An answer: its status, and what follows by the status.
pub fn take_answer(alloc: Global, cursor: &mut Cursor<'_>) -> Result<Answer, ReadFault>
    ensures { ReadsPart result cursor.new (answer.read cursor.old) }
{
    let wrong = cursor.fault(Kind::BadStatus);
    match cursor.take_byte()? {
        0 => Ok(Answer::Done(take_encapsulation(alloc, cursor)?)),
        1 => Ok(Answer::Raised(take_encapsulation(alloc, cursor)?)),
        2 => take_missing(alloc, 2, cursor),
        3 => take_missing(alloc, 3, cursor),
        4 => take_missing(alloc, 4, cursor),
        status if status <= 7 => Ok(Answer::Unknown {
            status,
            text: take_text(alloc, cursor)?,
        }),
        _ => Err(ReadFault::Broken(wrong)),
    }
}

/// The identity, the facet and the operation that were called and are not there.
fn take_missing(alloc: Global, status: u8, cursor: &mut Cursor<'_>) -> Result<Answer, ReadFault>
    ensures { ReadsPart result cursor.new ((missing status).read cursor.old) }
{
    let identity = take_identity(alloc, cursor)?;
    let facet = take_facet(alloc, cursor)?;
    let operation = take_text(alloc, cursor)?;
    Ok(Answer::Missing {
        status,
        identity,
        facet,
        operation,
    })
}
