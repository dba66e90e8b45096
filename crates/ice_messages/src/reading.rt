//! Reading a message. (Ice manual, "Protocol Messages".)

ghost use Rattle.std.specs.Prelude.{IfOk, ◌≡◌, ◌<◌, ◌-◌, ◌≤◌, ℕ, ℤ, List, Ok, length};
ghost use Rattle.ice_prims.specs.Rest.{whole};
ghost use Rattle.ice_prims.specs.Taking.{GivesUnlessMemory, Takes};
ghost use Rattle.ice_encoding.specs.Parts.{read_times, exactly};
ghost use Rattle.ice_encoding.specs.Bounds.{filled};
ghost use Rattle.ice_messages.specs.Calls.{call};
ghost use Rattle.ice_messages.specs.Messages.{header, magic, versions, message_type, compression, body_by, calls};
ghost use Rattle.ice_messages.specs.Messages.{message_at, whole_message_at};
ghost use Rattle.ice_messages.specs.Answers.{ReadsPart, Sees};
ghost use Rattle.ice_messages.specs.Next.{IsCountedForMemory, IsWholeForMemory};
ghost use Rattle.ice_messages.specs.Written.{IsOrderly, IsWritable};

use crate::message::{Call, HEADER_BYTES, Message};
use crate::read_call::{take_answer, take_call};
use encaps_optionals::{claimed_size, end};
use ice_prims::{Cursor, Fault, Kind, ReadFault};
use ice_types::List;
use std::alloc::Global;

/// The message that the bytes are, or their first fault. A size above the number of bytes is `Short`, and bytes behind
/// the message are `LeftOver`. Out of memory comes only where a header without fault counts no more bytes than are
/// there.
pub fn read_message(alloc: Global, bytes: &[u8]) -> Result<Message, ReadFault>
    ensures message { GivesUnlessMemory (λ m. m) result (whole_message_at (whole bytes.now)) }
    ensures memory { IsWholeForMemory result bytes.now }
    ensures orderly { IfOk result IsOrderly }
    ensures writable { IfOk result IsWritable }
{
    whole_message(alloc, bytes)
}

/// The message that all of the bytes are.
fn whole_message(alloc: Global, bytes: &[u8]) -> Result<Message, ReadFault>
    ensures message { GivesUnlessMemory (λ m. m) result (whole_message_at (whole bytes.now)) }
    ensures memory { IsWholeForMemory result bytes.now }
{
    let mut cursor = Cursor::new(bytes);
    let message = take_message(alloc, &mut cursor)?;
    end(&cursor)?;
    Ok(message)
}

/// The message that begins here, whatever follows it.
pub fn take_message(alloc: Global, cursor: &mut Cursor<'_>) -> Result<Message, ReadFault>
    ensures message { ReadsPart result cursor.new (message_at cursor.old) }
    ensures memory { IsCountedForMemory result cursor.old }
{
    let there = cursor.left();
    let size_place = cursor.fork();
    let (kind, claim) = take_header(cursor)?;
    let size = claimed_size(size_place.place() + 10, there, HEADER_BYTES, claim)?;
    let mut bound = cursor.split(size - HEADER_BYTES)?;
    let message = take_body(alloc, kind, &mut bound)?;
    end(&bound)?;
    Ok(message)
}

/// What follows a header, by the message's type.
fn take_body(alloc: Global, kind: u8, cursor: &mut Cursor<'_>) -> Result<Message, ReadFault>
    ensures { ReadsPart result cursor.new ((body_by kind).read cursor.old) }
{
    match kind {
        0 => {
            let id = cursor.take_int()?;
            let call = take_call(alloc, cursor)?;
            Ok(Message::Request { id, call })
        }
        1 => Ok(Message::Batch {
            calls: take_calls(alloc, cursor)?,
        }),
        2 => {
            let id = cursor.take_int()?;
            let answer = take_answer(alloc, cursor)?;
            Ok(Message::Reply { id, answer })
        }
        3 => Ok(Message::Validate),
        _ => Ok(Message::Close),
    }
}

/// A count, and so many calls.
fn take_calls(alloc: Global, cursor: &mut Cursor<'_>) -> Result<List<Call>, ReadFault>
    ensures { ReadsPart result cursor.new (calls.read cursor.old) }
{
    let wrong = cursor.fault(Kind::BadSize);
    let count = cursor.take_int()?;
    if count < 0 {
        return Err(ReadFault::Broken(wrong));
    }
    take_each(alloc, count as u32, cursor)
}

/// So many calls, one after the other.
fn take_each(alloc: Global, count: u32, cursor: &mut Cursor<'_>) -> Result<List<Call>, ReadFault>
    ensures { ReadsPart result cursor.new (read_times call.read count cursor.old) }
{
    let mut calls = List::new(alloc);
    for _ in 0..count {
        let call = take_call(alloc, cursor)?;
        calls.push(call)?;
    }
    Ok(calls)
}

/// The type of a message, and the size that its header claims.
pub fn take_header(cursor: &mut Cursor<'_>) -> Result<(u8, i32), Fault>
    ensures { Sees result cursor.new (header.read cursor.old) }
{
    take_magic(cursor)?;
    take_versions(cursor)?;
    let kind = take_kind(cursor)?;
    take_compression(cursor)?;
    let claim = cursor.take_int()?;
    Ok((kind, claim))
}

/// `IceP`. Each byte is a part of its own.
fn take_magic(cursor: &mut Cursor<'_>) -> Result<(), Fault>
    ensures { Sees result cursor.new (magic.read cursor.old) }
{
    take_exactly(&[b'I'], Kind::BadMagic, cursor)?;
    take_exactly(&[b'c'], Kind::BadMagic, cursor)?;
    take_exactly(&[b'e'], Kind::BadMagic, cursor)?;
    take_exactly(&[b'P'], Kind::BadMagic, cursor)
}

/// The versions of the protocol and of its encoding, each 1.0.
fn take_versions(cursor: &mut Cursor<'_>) -> Result<(), Fault>
    ensures { Sees result cursor.new (versions.read cursor.old) }
{
    take_exactly(&[1, 0], Kind::BadVersion, cursor)?;
    take_exactly(&[1, 0], Kind::BadVersion, cursor)
}

/// These bytes, or a fault of this kind.
fn take_exactly(known: &[u8], kind: Kind, cursor: &mut Cursor<'_>) -> Result<(), Fault>
    ensures { Sees result cursor.new ((exactly known.now kind).read cursor.old) }
{
    let wrong = cursor.fault(kind);
    if cursor.take_bytes(known.len())? == known {
        Ok(())
    } else {
        Err(wrong)
    }
}

/// The type of a message: 0 request, 1 batch, 2 reply, 3 validate, 4 close.
fn take_kind(cursor: &mut Cursor<'_>) -> Result<u8, Fault>
    ensures { Sees result cursor.new (message_type.read cursor.old) }
{
    let wrong = cursor.fault(Kind::BadMessage);
    let kind = cursor.take_byte()?;
    if kind <= 4 { Ok(kind) } else { Err(wrong) }
}

/// That the message is not compressed.
fn take_compression(cursor: &mut Cursor<'_>) -> Result<(), Fault>
    ensures { Sees result cursor.new (compression.read cursor.old) }
{
    let compressed = cursor.fault(Kind::Compressed);
    let wrong = cursor.fault(Kind::BadStatus);
    match cursor.take_byte()? {
        0 | 1 => Ok(()),
        2 => Err(compressed),
        _ => Err(wrong),
    }
}
