//! How a reference to a class instance is written.

ghost use Rattle.std.specs.Prelude.{ℕ, ◌<◌, ◌^◌, Option};
ghost use Rattle.ice_prims.specs.Bytes.{Grows};
ghost use Rattle.ice_encoding.specs.Port.{size_of};
ghost use Rattle.ice_encoding.specs.Pausing.{Put};
ghost use Rattle.value_writing.specs.Putting.{Puts, NarrowsOnPut};

use std::alloc::AllocError;

/// How a reference is written, and what is remembered of those before it.
/// (Ice manual, "Data Encoding for Class and Exception Types".)
pub trait PutPort {
    /// What a reference is written as.
    ghost put: { Option ℕ → Self → Put Self };

    /// How many instances may still begin at most.
    ghost room: { Self → ℕ };

    /// Puts the reference to the instance of this name, or to null, at the end of the output, and
    /// answers the instance that begins behind it, where one does. Out of memory may leave a part of
    /// it there.
    fn put_ref(&mut self, out: &mut Vec<u8>, name: Option<u32>) -> Result<Option<u32>, AllocError>
        requires { size_of name < 2 ^ 31 }
        ensures puts { Puts put name result self.old out.old.items self.new out.new.items }
        ensures grows { Grows out.old.items out.new.items }
        ensures room { NarrowsOnPut result (room self.old) (room self.new) };
}
