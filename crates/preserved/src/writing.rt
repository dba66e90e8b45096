//! An unknown slice, written as it was.

ghost use Rattle.std.specs.Prelude.{◌≡◌, ◌++◌, OnErr, OnOk};
ghost use Rattle.ice_prims.specs.Bytes.{Grows};
ghost use Rattle.ice_encoding.specs.Slices.{slice_size};
ghost use Rattle.graph_arena.specs.Seen.{view_slice};
ghost use Rattle.preserved.specs.Unknown.{IsUnknown, unknown_part, unknown_part_of};

use crate::reading::END_MARKER;
use graph_arena::Slice;
use ice_prims::{put_byte, put_int};
use ice_types::MOST_NUMBER;
use std::alloc::AllocError;

/// Puts the size of an unknown slice, its bytes, and the end marker of optional members where that stood
/// behind them: what stands between the type id and the table. Out of memory leaves the output as it was; so do
/// bytes of which an int cannot tell the size, which are answered as that is.
/// (Ice manual, "Data Encoding for Class and Exception Types".)
pub fn write_unknown(out: &mut Vec<u8>, part: &Slice) -> Result<(), AllocError>
    requires { IsUnknown (view_slice part.now) }
    ensures ok { OnOk result (out.new.items ≡ out.old.items ++ unknown_part_of (view_slice part.now)) }
    ensures err { OnErr result (out.new.items ≡ out.old.items) }
{
    let start = out.len();
    let result = append_unknown(out, part);
    if result.is_err() {
        out.truncate(start);
    }
    result
}

/// The same, but what is refused may leave a part of it there.
fn append_unknown(out: &mut Vec<u8>, part: &Slice) -> Result<(), AllocError>
    requires { IsUnknown (view_slice part.now) }
    ensures ok { OnOk result (out.new.items ≡ out.old.items ++ unknown_part_of (view_slice part.now)) }
    ensures grows { Grows out.old.items out.new.items }
{
    match part {
        Slice::Known { .. } => Ok(()),
        Slice::Unknown(kept) => put_unknown(out, kept.bytes.as_slice(), kept.optionals),
    }
}

/// The same of the bytes, and whether an end marker stands behind them.
fn put_unknown(out: &mut Vec<u8>, bytes: &[u8], optionals: bool) -> Result<(), AllocError>
    ensures ok { OnOk result (out.new.items ≡ out.old.items ++ unknown_part optionals bytes.now) }
    ensures grows { Grows out.old.items out.new.items }
{
    if !optionals {
        put_slice_size(out, bytes.len())?;
        return out.extend_from_slice(bytes);
    }
    put_slice_size(out, bytes.len().saturating_add(1))?;
    out.extend_from_slice(bytes)?;
    put_byte(out, END_MARKER)
}

/// Puts the size of a slice with so many bytes behind it, which counts its own four bytes too. More than an
/// int can tell are answered as want of memory. Out of memory leaves the output as it was.
pub fn put_slice_size(out: &mut Vec<u8>, length: usize) -> Result<(), AllocError>
    ensures ok { OnOk result (out.new.items ≡ out.old.items ++ slice_size.put length) }
    ensures err { OnErr result (out.new.items ≡ out.old.items) }
{
    if length > MOST_NUMBER as usize - 4 {
        return Err(AllocError);
    }
    put_int(out, (length + 4) as i32)
}
