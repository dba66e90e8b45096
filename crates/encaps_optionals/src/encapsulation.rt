//! Encapsulations: a size that counts all of it, the version 1.1, and a content. (Ice manual, "Basic
//! Data Encoding", "Encapsulations".)

ghost use Rattle.std.specs.Prelude.{◌≡◌, ◌++◌, ◌+◌, ◌<◌, ◌^◌, OnOk, OnErr, length};
ghost use Rattle.ice_prims.specs.Bytes.{Grows};
ghost use Rattle.ice_prims.specs.Taking.{Takes};
ghost use Rattle.ice_encoding.specs.declared.limits.TheConstants.{SMALLEST};
ghost use Rattle.ice_encoding.specs.Opening.{encoding, opened_at, encapsulated_bytes};
ghost use Rattle.encaps_optionals.specs.Answers.{Sees};

use crate::size::claimed_size;
use ice_encoding::{SIZE_BYTES, SMALLEST};
use ice_prims::{Cursor, Fault, Kind, put_int};
use std::alloc::AllocError;

/// The content of the encapsulation that begins here, as a cursor of its own in which places go on
/// counting; this one goes on after the encapsulation. The first fault of its size or version, and then
/// the cursor stays as it was. It takes no memory.
pub fn open_encaps<'a>(cursor: &mut Cursor<'a>) -> Result<Cursor<'a>, Fault>
    ensures { Takes (λ content. content) result cursor.old cursor.new (opened_at cursor.old) }
{
    let mut ahead = cursor.fork();
    let claim = ahead.take_int()?;
    let size = claimed_size(cursor.place(), cursor.left(), SMALLEST, claim)?;
    let mut content = ahead.split(size - SIZE_BYTES)?;
    take_version(&mut content)?;
    *cursor = ahead;
    Ok(content)
}

/// The version of the encoding, which is one part of two bytes.
fn take_version(cursor: &mut Cursor<'_>) -> Result<(), Fault>
    ensures { Sees (λ _. tt) result cursor.new (encoding.read cursor.old) }
{
    let wrong = cursor.fault(Kind::BadVersion);
    match cursor.take_bytes(2)? {
        [1, 1] => Ok(()),
        _ => Err(wrong),
    }
}

/// Appends the encapsulation that holds these bytes. Out of memory leaves the output as it was.
pub fn wrap_encaps(content: &[u8], out: &mut Vec<u8>) -> Result<(), AllocError>
    requires { length content.now + SMALLEST < 2 ^ 31 }
    ensures ok { OnOk result (out.new.items ≡ out.old.items ++ encapsulated_bytes content.now) }
    ensures err { OnErr result (out.new.items ≡ out.old.items) }
{
    let start = out.len();
    let result = append_encaps(content, out);
    if result.is_err() {
        out.truncate(start);
    }
    result
}

/// Appends as `wrap_encaps` does, but out of memory may leave a part at the end.
fn append_encaps(content: &[u8], out: &mut Vec<u8>) -> Result<(), AllocError>
    requires { length content.now + SMALLEST < 2 ^ 31 }
    ensures ok { OnOk result (out.new.items ≡ out.old.items ++ encapsulated_bytes content.now) }
    ensures err { OnErr result (Grows out.old.items out.new.items) }
{
    put_int(out, (SMALLEST + content.len()) as i32)?;
    out.extend_from_slice(&[1, 1])?;
    out.extend_from_slice(content)
}
