//! How many bytes a message has. A number that 64 bits cannot hold is told as the greatest that they can.

ghost use Rattle.std.specs.Prelude.{◌≡◌, ◌+◌, ◌-◌, ◌^◌, ◌≤◌, ◌<◌, ℕ, ℤ, List, length, min, drop};
ghost use Rattle.std.specs.List.{flat_map};
ghost use Rattle.ice_prims.specs.Bytes.{text_bytes};
ghost use Rattle.ice_encoding.specs.Parts.{both, text};
ghost use Rattle.ice_encoding.specs.Identity as names;
ghost use Rattle.ice_messages.specs.Calls as form;
ghost use Rattle.ice_messages.specs.Messages.{message_bytes};
ghost use Rattle.ice_messages.specs.declared.message.Message.TheVariants.{Request, Batch, Reply};
ghost use Rattle.ice_messages.specs.Written.{told, IsWritableAnswer};

use crate::message::{Answer, Call, HEADER_BYTES};
use encaps_optionals::size_length;
use ice_types::{Identity, Name};

/// How many bytes an id or a count has.
const INT_BYTES: u64 = 4;

/// How many bytes a request of the call has, whatever its id.
pub fn request_length(call: &Call) -> u64
    ensures { (id : ℤ) → result ≡ told (length (message_bytes (Request id call.now))) }
{
    call_length(call).saturating_add(HEADER_BYTES as u64 + INT_BYTES)
}

/// How many bytes a batch of the calls has.
pub fn batch_length(calls: &[Call]) -> u64
    ensures { result ≡ told (length (message_bytes (Batch calls.now))) }
{
    calls_length(calls).saturating_add(HEADER_BYTES as u64 + INT_BYTES)
}

/// How many bytes a reply with the answer has, whatever its id.
pub fn reply_length(answer: &Answer) -> u64
    requires { IsWritableAnswer answer.now }
    ensures { (id : ℤ) → result ≡ told (length (message_bytes (Reply id answer.now))) }
{
    answer_length(answer).saturating_add(HEADER_BYTES as u64 + INT_BYTES)
}

fn calls_length(calls: &[Call]) -> u64
    ensures { result ≡ told (length (flat_map form.call.put calls.now)) }
{
    let mut length: u64 = 0;
    for call in calls {
        length = length.saturating_add(call_length(call));
    }
    length
}

fn call_length(call: &Call) -> u64
    ensures { result ≡ told (length (form.call.put call.now)) }
{
    identity_length(&call.identity)
        .saturating_add(facet_length(&call.facet))
        .saturating_add(text_length(&call.operation))
        .saturating_add(1)
        .saturating_add(size_length(call.context.len()) as u64)
        .saturating_add(entries_length(call.context.as_slice()))
        .saturating_add(call.body.len() as u64)
}

fn entries_length(entries: &[(Name, Name)]) -> u64
    ensures { result ≡ told (length (flat_map (both text text).put entries.now)) }
{
    let mut length: u64 = 0;
    for (name, value) in entries {
        length = length
            .saturating_add(text_length(name))
            .saturating_add(text_length(value));
    }
    length
}

fn answer_length(answer: &Answer) -> u64
    requires { IsWritableAnswer answer.now }
    ensures { result ≡ told (length (form.answer.put answer.now)) }
{
    answered_length(answer).saturating_add(1)
}

/// How many bytes follow the status.
fn answered_length(answer: &Answer) -> u64
    requires { IsWritableAnswer answer.now }
    ensures { result ≡ told (length ((form.answer_by (form.status_of answer.now)).put answer.now)) }
{
    match answer {
        Answer::Done(body) | Answer::Raised(body) => body.len() as u64,
        Answer::Missing {
            identity,
            facet,
            operation,
            ..
        } => identity_length(identity)
            .saturating_add(facet_length(facet))
            .saturating_add(text_length(operation)),
        Answer::Unknown { text, .. } => text_length(text),
    }
}

fn identity_length(identity: &Identity) -> u64
    ensures { result ≡ told (length (names.identity.put identity.now)) }
{
    text_length(&identity.name).saturating_add(text_length(&identity.category))
}

fn facet_length(facet: &Name) -> u64
    ensures { result ≡ told (length (names.facet.put facet.now)) }
{
    if facet.as_str().is_empty() {
        1
    } else {
        text_length(facet) + 1
    }
}

fn text_length(text: &Name) -> u64
    ensures exact { result ≡ told (length (text_bytes text.now)) }
    ensures fits { result < 2 ^ 63 + 6 }
{
    let length = text.as_str().len();
    size_length(length) as u64 + length as u64
}
