//! The line that tells a message.

ghost use Rattle.std.specs.Prelude.{◌≡◌, ◌++◌, IfOk, codes, string_bytes};
ghost use Rattle.std.specs.Fmt.{decimal, signed_decimal};
ghost use Rattle.ice_messages.specs.Calls.{status_of};
ghost use Rattle.ice_proxy.specs.PrintedWords.{identity_escapes, in_quotes, quoted_text};
ghost use Rattle.message_dump.specs.Lines.{◌&◌, message_line};

use ice_messages::{Answer, Call, Message};
use ice_proxy::{escape_identity, quote};
use std::alloc::{AllocError, Global};

/// How many bytes of a reply stand before its body: header, id and status.
pub const BEFORE_REPLY_BODY: usize = 19;

/// The line that tells a message of so many bytes. (Ice manual, "Protocol Messages".)
pub fn message_line(alloc: Global, length: usize, message: &Message) -> Result<String, AllocError>
    ensures { IfOk result (λ line. string_bytes line ≡ message_line length message.now) }
{
    match message {
        Message::Request { id, call } => request_line(alloc, *id, call),
        Message::Batch { calls } => {
            let count = calls.len();
            format!(in alloc; "batch {count}\n")
        }
        Message::Reply { id, answer } => {
            let bytes = length.saturating_sub(BEFORE_REPLY_BODY);
            reply_line(alloc, *id, status_of(answer), bytes)
        }
        Message::Validate => format!(in alloc; "validate\n"),
        Message::Close => format!(in alloc; "close\n"),
    }
}

/// The line of a request, whatever its length.
fn request_line(alloc: Global, id: i32, call: &Call) -> Result<String, AllocError>
    ensures { IfOk result (λ line. string_bytes line ≡ message_line 0 (Message.Request id call.now)) }
{
    let target = target_words(alloc, call)?;
    let (mode, entries, bytes) = (call.mode, call.context.len(), call.body.len());
    numbered_line(alloc, id, &target, mode, entries, bytes)
}

/// The identity, the facet and the operation that are called, each in quotes.
fn target_words(alloc: Global, call: &Call) -> Result<String, AllocError>
    ensures { IfOk result (λ words. string_bytes words ≡ in_quotes (identity_escapes call.now.identity)
        & (quoted_text call.now.facet & quoted_text call.now.operation)) }
{
    let identity = escape_identity(alloc, &call.identity)?;
    let facet = quote(alloc, call.facet.as_str())?;
    let operation = quote(alloc, call.operation.as_str())?;
    three_words(alloc, identity.as_str(), facet.as_str(), operation.as_str())
}

/// The first word in quotes and the others as they are, with a blank between.
fn three_words(alloc: Global, first: &str, second: &str, third: &str) -> Result<String, AllocError>
    ensures { IfOk result (λ words. string_bytes words ≡ codes "\"" ++ (first.now ++ (codes "\" "
        ++ (second.now ++ (codes " " ++ third.now))))) }
{
    format!(in alloc; "\"{first}\" {second} {third}")
}

/// The line of a request with this id, these words and these numbers.
fn numbered_line(
    alloc: Global,
    id: i32,
    target: &str,
    mode: u8,
    entries: usize,
    bytes: usize,
) -> Result<String, AllocError>
    ensures { IfOk result (λ line. string_bytes line ≡ codes "request " ++ (signed_decimal id
        ++ (codes " " ++ (target.now ++ (codes " " ++ (decimal mode ++ (codes " " ++ (decimal entries
        ++ (codes " " ++ (decimal bytes ++ codes "\n")))))))))) }
{
    format!(in alloc; "request {id} {target} {mode} {entries} {bytes}\n")
}

/// The line of a reply with this status and so many bytes behind it.
fn reply_line(alloc: Global, id: i32, status: u8, bytes: usize) -> Result<String, AllocError>
    ensures { IfOk result (λ line. string_bytes line ≡ codes "reply " ++ (signed_decimal id
        ++ (codes " " ++ (decimal status ++ (codes " " ++ (decimal bytes ++ codes "\n")))))) }
{
    format!(in alloc; "reply {id} {status} {bytes}\n")
}

/// The status of a reply.
fn status_of(answer: &Answer) -> u8
    ensures { result ≡ status_of answer.now }
{
    match answer {
        Answer::Done(_) => 0,
        Answer::Raised(_) => 1,
        Answer::Missing { status, .. } | Answer::Unknown { status, .. } => *status,
    }
}
