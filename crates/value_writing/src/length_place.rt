//! Where the length of an optional value is put, once the value is written. (Ice manual, "Data Encoding
//! for Optional Values".)

ghost use Rattle.std.specs.Prelude.{◌≡◌, ◌++◌, ◌≤◌, ◌+◌, ◌<◌, ◌^◌, length, take, drop, OnOk, OnErr, IfOk};
ghost use Rattle.ice_encoding.specs.Parts.{size};
ghost use Rattle.ice_encoding.specs.Skipping.{count};
ghost use Rattle.value_parts.specs.Prefixes.{prefix_seen};
ghost use Rattle.value_writing.specs.WritingLengths.{held, length_at, with_length_at, MayBeRefused, Stands};

use ice_prims::put_size;
use ice_types::MOST_NUMBER;
use std::alloc::AllocError;
use value_parts::Prefix;

/// Where the length of a value is put, once the value is written.
#[derive(Clone, Copy)]
pub enum LengthPlace {
    /// Nowhere: the value has none, or begins with it.
    Nowhere,
    /// Before the value, which begins at this place, as a size.
    Size(usize),
    /// Over the four bytes at this place, behind which the value begins, as an int.
    Int(usize),
}

impl LengthPlace {
    /// The place of the length of a value that begins behind the output. Bytes are held for it where
    /// they are the same number for each length.
    pub(crate) fn hold(prefix: Prefix, out: &mut Vec<u8>) -> Result<LengthPlace, AllocError>
        ensures place { IfOk result (λ place. place ≡ length_at (prefix_seen prefix) (length out.old.items)) }
        ensures ok { OnOk result (out.new.items ≡ out.old.items ++ held (prefix_seen prefix)) }
        ensures err { OnErr result (out.new.items ≡ out.old.items) }
    {
        let at = out.len();
        match prefix {
            Prefix::NoLength | Prefix::OwnSize => Ok(LengthPlace::Nowhere),
            Prefix::AsSize => Ok(LengthPlace::Size(at)),
            Prefix::AsInt => {
                out.extend_from_slice(&[0, 0, 0, 0])?;
                Ok(LengthPlace::Int(at))
            }
        }
    }

    /// Puts the length of what stands behind the place. Out of memory leaves the output as it was, and
    /// so does a length above the greatest int, which is answered as that is. Where no length is put there is no
    /// such answer, and an int takes no memory.
    pub(crate) fn put(self, out: &mut Vec<u8>) -> Result<(), AllocError>
        requires { Stands self out.old.items }
        ensures ok { OnOk result (out.new.items ≡ with_length_at self out.old.items) }
        ensures err { OnErr result (out.new.items ≡ out.old.items) }
        ensures memory { OnErr result (MayBeRefused self out.old.items) }
    {
        match self {
            LengthPlace::Nowhere => Ok(()),
            LengthPlace::Size(at) => insert_size(out, at),
            LengthPlace::Int(at) => patch_int(out, at),
        }
    }
}

/// Puts the length of what stands from a place on before it, as a size.
fn insert_size(out: &mut Vec<u8>, at: usize) -> Result<(), AllocError>
    requires { at ≤ length out.old.items }
    ensures ok { OnOk result (out.new.items
        ≡ take at out.old.items ++ (size.put (length (drop at out.old.items)) ++ drop at out.old.items)) }
    ensures err { OnErr result (out.new.items ≡ out.old.items) }
{
    let end = out.len();
    let length = end - at;
    if length > MOST_NUMBER as usize {
        return Err(AllocError);
    }
    put_size(out, length as u32)?;
    let added = out.len() - end;
    out[at..].rotate_right(added);
    Ok(())
}

/// Puts the length of what stands behind the four bytes at a place over them, as an int. It takes no memory.
fn patch_int(out: &mut Vec<u8>, at: usize) -> Result<(), AllocError>
    requires { at + 4 ≤ length out.old.items }
    ensures ok { OnOk result (out.new.items
        ≡ take at out.old.items ++ (count.put (length (drop (at + 4) out.old.items)) ++ drop (at + 4) out.old.items)) }
    ensures err { OnErr result (out.new.items ≡ out.old.items) }
    ensures memory { OnErr result (2 ^ 31 ≤ length (drop (at + 4) out.old.items)) }
{
    let length = out.len() - (at + 4);
    if length > MOST_NUMBER as usize {
        return Err(AllocError);
    }
    let bytes = (length as i32).to_le_bytes();
    out[at..at + 4].copy_from_slice(&bytes);
    Ok(())
}
