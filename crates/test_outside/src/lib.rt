//! The outside in memory, as tests hand it to the program: files, inputs, and the calls that fail. Crates of tests
//! alone stand on it.
#![tactic(auto)]

ghost use Rattle.std.specs.Prelude.{◌≡◌, IfOk};

use ice_ports::MemShelf;
use ice_types::{Bytes, List, Name};
use std::alloc::{AllocError, Global};

/// The bytes of a file or of an input.
pub fn bytes(alloc: Global, items: &[u8]) -> Result<Bytes, AllocError>
    ensures { IfOk result (λ bytes. bytes ≡ items.now) }
{
    Ok(List::from_vec(Vec::from_slice(alloc, items)?))
}

/// The calls that fail, counted from 0.
pub fn calls(alloc: Global, numbers: &[u64]) -> Result<List<u64>, AllocError>
    ensures { IfOk result (λ calls. calls ≡ numbers.now) }
{
    Ok(List::from_vec(Vec::from_slice(alloc, numbers)?))
}

/// A file by its name and its text.
pub fn file(alloc: Global, name: &str, text: &str) -> Result<(Name, Bytes), AllocError>
    ensures { IfOk result (λ file. (file.0 ≡ name.now) × (file.1 ≡ text.now)) }
{
    Ok((Name::of(alloc, name)?, bytes(alloc, text.as_bytes())?))
}

/// A shelf of these names and texts, where these loads fail.
pub fn shelf(
    alloc: Global,
    texts: &[(&str, &str)],
    failing: &[u64],
) -> Result<MemShelf, AllocError> {
    let mut files = List::new(alloc);
    for (name, text) in texts {
        files.push(file(alloc, name, text)?)?;
    }
    Ok(MemShelf::new(files, calls(alloc, failing)?))
}
