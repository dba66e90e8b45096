//! Numbers at the front of bytes.

ghost use Rattle.std.specs.Prelude.{◌≡◌, ◌<◌, ◌≤◌, ◌^◌, IfSome, length, take};
ghost use Rattle.ice_prims.specs.Bytes.{size_bytes};
ghost use Rattle.ice_encoding.specs.Skipping.{count};
ghost use Rattle.canonical_values.specs.Fronts.{IsFront};

use ice_prims::Cursor;

/// The size at the front, and how many bytes it has. None where none stands there.
pub(crate) fn size_front(bytes: &[u8]) -> Option<(u32, usize)>
    ensures { IfSome result (λ f. IsFront (λ n. n < 2 ^ 31) size_bytes bytes.now f.0 f.1) }
{
    let mut cursor = Cursor::new(bytes);
    match cursor.take_size() {
        Ok(size) => Some((size, bytes.len() - cursor.left())),
        Err(_) => None,
    }
}

/// The number of the int at the front. None where none stands there that is not negative.
pub(crate) fn count_front(bytes: &[u8]) -> Option<usize>
    ensures within { IfSome result (λ n. 4 ≤ length bytes.now) }
    ensures front { IfSome result (λ n. take 4 bytes.now ≡ count.put n) }
{
    match Cursor::new(bytes).take_int() {
        Ok(number) if number >= 0 => Some(number as usize),
        _ => None,
    }
}
