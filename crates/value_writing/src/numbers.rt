//! References as numbers, when they are written.

ghost use Rattle.value_writing.specs.Numbering.{number_put};

use crate::put_port::PutPort;
use ice_prims::put_size;
use std::alloc::AllocError;
use value_parts::Numbers;

/// Each reference is its number: 0 for null, else one more than the number. No instance begins.
impl PutPort for Numbers {
    ghost put = { number_put };

    ghost room = { λ s. 0 };

    fn put_ref(&mut self, out: &mut Vec<u8>, name: Option<u32>) -> Result<Option<u32>, AllocError> {
        match name {
            Some(number) => put_size(out, number + 1)?,
            None => put_size(out, 0)?,
        }
        Ok(None)
    }
}
