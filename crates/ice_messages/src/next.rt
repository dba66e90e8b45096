//! What stands next in bytes of which some may lack.

ghost use Rattle.std.specs.Prelude.{◌≡◌, ◌++◌, ◌<◌, ◌≤◌, ℕ, List, length, drop};
ghost use Rattle.ice_messages.specs.declared.message.TheConstants.{HEADER_BYTES};
ghost use Rattle.ice_messages.specs.Streams.{good_header};
ghost use Rattle.ice_messages.specs.Next.{IsNext, StandsNext, IsCounted, size_counted};

use crate::message::{HEADER_BYTES, Message};
use crate::reading::{take_header, take_message};
use encaps_optionals::claimed_size;
use ice_encoding::LARGEST;
use ice_prims::{Cursor, Fault, ReadFault};
use std::alloc::Global;

/// A header without fault, for those of its bytes that are not there yet.
const GOOD_HEADER: [u8; HEADER_BYTES] = [73, 99, 101, 80, 1, 0, 1, 0, 3, 0, 14, 0, 0, 0];

/// The message that stands next, and how many bytes it has. None while it is not whole.
pub fn next_in(alloc: Global, bytes: &[u8]) -> Result<Option<(Message, usize)>, ReadFault>
    ensures { IsNext result bytes.now }
{
    read_next(alloc, bytes)
}

/// The same, as reading goes.
fn read_next(alloc: Global, bytes: &[u8]) -> Result<Option<(Message, usize)>, ReadFault>
    ensures { StandsNext result bytes.now }
{
    if bytes.len() < HEADER_BYTES {
        take_header(&mut Cursor::new(&completed(bytes)))?;
        return Ok(None);
    }
    if !is_counted(bytes)? {
        return Ok(None);
    }
    let mut cursor = Cursor::new(bytes);
    let message = take_message(alloc, &mut cursor)?;
    Ok(Some((message, cursor.place() as usize)))
}

/// The header that the bytes begin, where what lacks is that of a header without fault.
fn completed(bytes: &[u8]) -> [u8; HEADER_BYTES]
    requires { length bytes.now < HEADER_BYTES }
    ensures { result ≡ bytes.now ++ drop (length bytes.now) good_header }
{
    let mut header = GOOD_HEADER;
    header[..bytes.len()].copy_from_slice(bytes);
    header
}

/// Whether as many bytes are there as their header counts.
fn is_counted(bytes: &[u8]) -> Result<bool, Fault>
    requires { HEADER_BYTES ≤ length bytes.now }
    ensures { IsCounted result bytes.now }
{
    let size = size_in_header(bytes)?;
    Ok(size <= bytes.len())
}

/// The size of the message that a whole header counts.
fn size_in_header(bytes: &[u8]) -> Result<usize, Fault>
    ensures { size_counted bytes.now ≡ result }
{
    let (_, claim) = take_header(&mut Cursor::new(bytes))?;
    claimed_size(10, LARGEST, HEADER_BYTES, claim)
}
