//! Writing a message. (Ice manual, "Protocol Messages".)

ghost use Rattle.std.specs.Prelude.{pos, ◌≡◌, ◌++◌, ◌≤◌, ◌<◌, ℕ, List, [], length, OnOk};
ghost use Rattle.std.specs.List.{flat_map};
ghost use Rattle.ice_encoding.specs.declared.limits.TheConstants.{LARGEST};
ghost use Rattle.ice_encoding.specs.Parts.{Each, both, int, text, times};
ghost use Rattle.ice_encoding.specs.Identity as names;
ghost use Rattle.ice_messages.specs.declared.message.Message.TheVariants.{Request, Batch, Reply, Validate, Close};
ghost use Rattle.ice_messages.specs.Context as entries;
ghost use Rattle.ice_messages.specs.Calls as form;
ghost use Rattle.ice_messages.specs.Messages.{calls};
ghost use Rattle.ice_messages.specs.Written.{IsBody, IsWritable, IsWritableAnswer, IsWritableCall};
ghost use Rattle.ice_messages.specs.Written.{Puts, PutsHeader, Writes};

use crate::fault::WriteFault;
use crate::lengths::{batch_length, reply_length, request_length};
use crate::message::{Answer, Call, HEADER_BYTES, Message};
use ice_encoding::LARGEST;
use ice_prims::{put_byte, put_int, put_size, put_str};
use ice_types::{Bytes, Identity, Name};
use std::alloc::{AllocError, Global};

/// The bytes of the message, where they are not more than a message may have: `TooLong` with their number otherwise.
pub fn write_message(alloc: Global, message: &Message) -> Result<Bytes, WriteFault>
    requires { IsWritable message.now }
    ensures { Writes result message.now }
{
    match message {
        Message::Request { id, call } => write_request(alloc, *id, call),
        Message::Batch { calls } => write_batch(alloc, calls.as_slice()),
        Message::Reply { id, answer } => write_reply(alloc, *id, answer),
        Message::Validate => write_header(alloc, 3),
        Message::Close => write_header(alloc, 4),
    }
}

/// The bytes of a request with this id, as `write_message` has them. (Ice manual, "Request Message".)
pub fn write_request(alloc: Global, id: i32, call: &Call) -> Result<Bytes, WriteFault>
    requires { IsWritableCall call.now }
    ensures { Writes result (Request id call.now) }
{
    let mut out = begin(alloc, 0, request_length(call))?;
    put_request(&mut out, id, call)?;
    Ok(Bytes::from_vec(out))
}

/// The bytes of a batch of the calls, as `write_message` has them. (Ice manual, "Batch Request Message".)
pub fn write_batch(alloc: Global, calls: &[Call]) -> Result<Bytes, WriteFault>
    requires { Each IsWritableCall calls.now }
    ensures { Writes result (Batch calls.now) }
{
    let mut out = begin(alloc, 1, batch_length(calls))?;
    put_batch(&mut out, calls)?;
    Ok(Bytes::from_vec(out))
}

/// The bytes of a reply with this id, as `write_message` has them. (Ice manual, "Reply Message".)
pub fn write_reply(alloc: Global, id: i32, answer: &Answer) -> Result<Bytes, WriteFault>
    requires { IsWritableAnswer answer.now }
    ensures { Writes result (Reply id answer.now) }
{
    let mut out = begin(alloc, 2, reply_length(answer))?;
    put_reply(&mut out, id, answer)?;
    Ok(Bytes::from_vec(out))
}

/// A message of this type that has nothing but its header: 3 validate, 4 close.
fn write_header(alloc: Global, kind: u8) -> Result<Bytes, WriteFault>
    ensures validate { kind ≡ 3 → Writes result Validate }
    ensures close { kind ≡ 4 → Writes result Close }
{
    Ok(Bytes::from_vec(begin(alloc, kind, HEADER_BYTES as u64)?))
}

/// The header of a message of this type and so many bytes, where they are not more than a message may have.
fn begin(alloc: Global, kind: u8, length: u64) -> Result<Vec<u8>, WriteFault>
    ensures { PutsHeader kind length result }
{
    if length > LARGEST as u64 {
        return Err(WriteFault::TooLong(length));
    }
    let mut out = Vec::with_capacity(alloc, length as usize)?;
    out.extend_from_slice(&[b'I', b'c', b'e', b'P', 1, 0, 1, 0, kind, 0])?;
    put_int(&mut out, length as i32)?;
    Ok(out)
}

/// The id of a request, and its call.
fn put_request(out: &mut Vec<u8>, id: i32, call: &Call) -> Result<(), AllocError>
    requires writable { IsWritableCall call.now }
    requires fits { length (form.call.put call.now) ≤ LARGEST }
    ensures { OnOk result (Puts (both int form.call) (id, call.now) out.old.items out.new.items) }
{
    put_int(out, id)?;
    put_call(out, call)
}

/// A count, and so many calls.
fn put_batch(out: &mut Vec<u8>, items: &[Call]) -> Result<(), AllocError>
    requires writable { Each IsWritableCall items.now }
    requires fits { length (calls.put items.now) ≤ LARGEST }
    ensures { OnOk result (Puts calls items.now out.old.items out.new.items) }
{
    put_int(out, items.len() as i32)?;
    put_calls(out, items)
}

/// The calls, one after the other.
fn put_calls(out: &mut Vec<u8>, items: &[Call]) -> Result<(), AllocError>
    requires writable { Each IsWritableCall items.now }
    requires fits { length (flat_map form.call.put items.now) ≤ LARGEST }
    ensures { OnOk result (Puts (times form.call (length items.now)) items.now out.old.items out.new.items) }
{
    for call in items {
        put_call(out, call)?;
    }
    Ok(())
}

/// A call: whose operation it is, its facet, name, mode, context and arguments.
fn put_call(out: &mut Vec<u8>, call: &Call) -> Result<(), AllocError>
    requires writable { IsWritableCall call.now }
    requires fits { length (form.call.put call.now) ≤ LARGEST }
    ensures { OnOk result (Puts form.call call.now out.old.items out.new.items) }
{
    put_identity(out, &call.identity)?;
    put_facet(out, &call.facet)?;
    put_text(out, &call.operation)?;
    put_byte(out, call.mode)?;
    put_context(out, call.context.as_slice())?;
    put_body(out, &call.body)
}

/// A size, and so many entries.
fn put_context(out: &mut Vec<u8>, context: &[(Name, Name)]) -> Result<(), AllocError>
    requires rising { entries.AreRising context.now }
    requires fits { length (entries.context.put context.now) ≤ LARGEST }
    ensures { OnOk result (Puts entries.context context.now out.old.items out.new.items) }
{
    put_size(out, context.len() as u32)?;
    put_entries(out, context)
}

/// The entries, each a name and its value.
fn put_entries(out: &mut Vec<u8>, pairs: &[(Name, Name)]) -> Result<(), AllocError>
    requires { length (flat_map (both text text).put pairs.now) ≤ LARGEST }
    ensures { OnOk result (Puts (times (both text text) (length pairs.now)) pairs.now out.old.items out.new.items) }
{
    for (name, value) in pairs {
        put_text(out, name)?;
        put_text(out, value)?;
    }
    Ok(())
}

/// The id of a reply, and its answer.
fn put_reply(out: &mut Vec<u8>, id: i32, answer: &Answer) -> Result<(), AllocError>
    requires writable { IsWritableAnswer answer.now }
    requires fits { length (form.answer.put answer.now) ≤ LARGEST }
    ensures { OnOk result (Puts (both int form.answer) (id, answer.now) out.old.items out.new.items) }
{
    put_int(out, id)?;
    put_answer(out, answer)
}

/// A status, and what follows it.
fn put_answer(out: &mut Vec<u8>, answer: &Answer) -> Result<(), AllocError>
    requires writable { IsWritableAnswer answer.now }
    requires fits { length (form.answer.put answer.now) ≤ LARGEST }
    ensures { OnOk result (Puts form.answer answer.now out.old.items out.new.items) }
{
    put_byte(out, status_of(answer))?;
    put_answered(out, answer)
}

/// The status of an answer.
fn status_of(answer: &Answer) -> u8
    ensures { result ≡ form.status_of answer.now }
{
    match answer {
        Answer::Done(_) => 0,
        Answer::Raised(_) => 1,
        Answer::Missing { status, .. } | Answer::Unknown { status, .. } => *status,
    }
}

/// What follows the status.
fn put_answered(out: &mut Vec<u8>, answer: &Answer) -> Result<(), AllocError>
    requires writable { IsWritableAnswer answer.now }
    requires fits { length ((form.answer_by (form.status_of answer.now)).put answer.now) ≤ LARGEST }
    ensures { OnOk result
        (Puts (form.answer_by (form.status_of answer.now)) answer.now out.old.items out.new.items) }
{
    match answer {
        Answer::Done(body) | Answer::Raised(body) => put_body(out, body),
        Answer::Missing {
            identity,
            facet,
            operation,
            ..
        } => put_missing(out, identity, facet, operation),
        Answer::Unknown { text, .. } => put_text(out, text),
    }
}

/// An encapsulation, as it is.
fn put_body(out: &mut Vec<u8>, body: &Bytes) -> Result<(), AllocError>
    requires writable { IsBody body.now }
    requires fits { length body.now ≤ LARGEST }
    ensures { OnOk result (Puts form.encapsulation body.now out.old.items out.new.items) }
{
    out.extend_from_slice(body.as_slice())
}

/// The identity, the facet and the operation that were called and are not there.
fn put_missing(
    out: &mut Vec<u8>,
    identity: &Identity,
    facet: &Name,
    operation: &Name,
) -> Result<(), AllocError>
    requires { length (form.missed.put (identity.now, (facet.now, operation.now))) ≤ LARGEST }
    ensures { OnOk result
        (Puts form.missed (identity.now, (facet.now, operation.now)) out.old.items out.new.items) }
{
    put_identity(out, identity)?;
    put_facet(out, facet)?;
    put_text(out, operation)
}

/// A name and a category.
fn put_identity(out: &mut Vec<u8>, identity: &Identity) -> Result<(), AllocError>
    requires { length (names.identity.put identity.now) ≤ LARGEST }
    ensures { OnOk result (Puts names.identity identity.now out.old.items out.new.items) }
{
    put_text(out, &identity.name)?;
    put_text(out, &identity.category)
}

/// No text for the default facet, else one.
fn put_facet(out: &mut Vec<u8>, facet: &Name) -> Result<(), AllocError>
    requires { length (names.facet.put facet.now) ≤ LARGEST }
    ensures { OnOk result (Puts names.facet facet.now out.old.items out.new.items) }
{
    if facet.as_str().is_empty() {
        return put_size(out, 0);
    }
    put_size(out, 1)?;
    put_text(out, facet)
}

/// A text: its size and its bytes.
fn put_text(out: &mut Vec<u8>, what: &Name) -> Result<(), AllocError>
    requires { length (text.put what.now) ≤ LARGEST }
    ensures { OnOk result (Puts text what.now out.old.items out.new.items) }
{
    put_str(out, what.as_str())
}
