//! Sizes that count what they stand in, and the bytes that a size has itself.

ghost use Rattle.std.specs.Prelude.{◌≡◌, ◌≤◌, length};
ghost use Rattle.ice_prims.specs.Bytes.{size_bytes};
ghost use Rattle.ice_encoding.specs.Bounds.{claimed};

use ice_encoding::LARGEST;
use ice_prims::{Fault, Kind};

/// The size that an int claims for what begins at `place`, where `left` bytes are left and there is no
/// smaller one than `smallest`. `TooLarge` above 1,048,576, then `Short` above `left`, then `BadSize`.
pub fn claimed_size(place: u64, left: usize, smallest: usize, claim: i32) -> Result<usize, Fault>
    ensures { claimed place left smallest claim ≡ result }
{
    let wrong = |kind| Err(Fault { place, kind });
    if claim < 0 {
        return wrong(Kind::BadSize);
    }
    let size = claim as usize;
    if size > LARGEST {
        wrong(Kind::TooLarge)
    } else if size > left {
        wrong(Kind::Short)
    } else if size < smallest {
        wrong(Kind::BadSize)
    } else {
        Ok(size)
    }
}

/// How many bytes a size has: one below 255, else five. (Ice manual, "Basic Data Encoding", "Sizes".)
pub fn size_length(size: usize) -> usize
    ensures exact { result ≡ length (size_bytes size) }
    ensures few { result ≤ 5 }
{
    if size < 255 { 1 } else { 5 }
}
