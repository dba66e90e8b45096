//! Encapsulations: the bytes that are left of one that is read, and the size of one that is written.
//! (Ice manual, "Basic Data Encoding", "Encapsulations".)

ghost use Rattle.std.specs.Prelude.{◌≡◌, ◌++◌, ◌≤◌, [], drop, vec_len, IfOk};
ghost use Rattle.std.specs.Int.{w32, to_le_bytes};
ghost use Rattle.ice_prims.specs.Rest.{IsBytes};
ghost use Rattle.class_slices.specs.Enclosing.{Closes, unsized};

use ice_prims::{Cursor, put_byte, put_int};
use std::alloc::{AllocError, Global};

/// That each byte that is left is a number below 256. Nothing moves.
pub fn left_are_bytes(cursor: &Cursor<'_>)
    ensures { IsBytes cursor.now.bytes }
{
    are_bytes(left_bytes(cursor));
}

/// Each is a number below 256.
fn are_bytes(bytes: &[u8])
    ensures { IsBytes bytes.now }
{
    let _ = bytes;
}

/// The bytes that are left.
fn left_bytes<'a>(cursor: &Cursor<'a>) -> &'a [u8]
    ensures { result.now ≡ cursor.now.bytes }
{
    let mut ahead = cursor.fork();
    ahead.take_bytes(ahead.left()).unwrap_or(&[])
}

/// Begins an encapsulation: the place of its size, and the version 1.1.
pub fn begin_encaps(alloc: Global) -> Result<Vec<u8>, AllocError>
    ensures { IfOk result (λ out. out.items ≡ unsized []) }
{
    let mut out = Vec::new(alloc);
    put_int(&mut out, 0)?;
    put_byte(&mut out, 1)?;
    put_byte(&mut out, 1)?;
    Ok(out)
}

/// Ends an encapsulation by its size, where it is not longer than the limit; else the length.
pub fn end_encaps(mut out: Vec<u8>, limit: u32) -> Result<Vec<u8>, u64>
    requires { 4 ≤ vec_len out }
    ensures { Closes out.items limit result }
{
    let length = out.len() as u64;
    if length > limit as u64 {
        return Err(length);
    }
    patch_size(&mut out, length as u32);
    Ok(out)
}

/// Puts the size over the first four bytes.
fn patch_size(out: &mut Vec<u8>, size: u32)
    requires { 4 ≤ vec_len out.old }
    ensures { out.new.items ≡ to_le_bytes w32 size ++ drop 4 out.old.items }
{
    let [a, b, c, d] = size.to_le_bytes();
    out[0] = a;
    out[1] = b;
    out[2] = c;
    out[3] = d;
}
