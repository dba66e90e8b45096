//! From a name on a shelf to a schema.

ghost use Rattle.std.specs.Prelude.{◌≡◌, IfSome};
ghost use Rattle.ice_ports.specs.Failures.{count_after};
ghost use Rattle.slice_check.specs.Answers.{Answers, is_failed};

use crate::fault::LoadFault;
use crate::walk::walk_from;
use ice_ports::Shelf;
use ice_types::Schema;
use slice_faults::{CheckFault, check};
use std::alloc::Global;

/// The schema that the file of this name means with all that it includes.
///
/// Files are loaded depth first, from this one on, each name once: so a ring of includes is no fault, and neither is a
/// file that includes itself. Each file is checked after those that it includes. The answer to a fault is `Text`:
///
/// - where a text has one (`BadByte`, `OpenString`, `OpenComment`, `BadNumber`, `TooLong`, `Expected`), or an
///   include is of a name that is not on the shelf (`NoFile`) or is one file too many (`TooManyFiles`), the first
///   such fault on the way;
/// - else the first fault of the checker, under its own name.
///
/// The place of an include is its `#`, in the file that it stands in; for the first file it is 0, in that file.
/// After `Shelf` the shelf has counted one failure more, and after any other answer none.
pub fn load<H: Shelf>(alloc: Global, shelf: &mut H, name: &str) -> Result<Schema, LoadFault>
    ensures answer { IfSome (H.files shelf.old) (λ known. Answers known name.now result) }
    ensures kept { H.files shelf.new ≡ H.files shelf.old }
    ensures count { H.failures shelf.new ≡ count_after (H.failures shelf.old) (is_failed result) }
{
    let files = walk_from(alloc, shelf, name)?;
    match check(alloc, files.trees.as_slice()) {
        Ok(schema) => Ok(schema),
        Err(CheckFault::At { file, place, kind }) => Err(files.fault(alloc, file, place, kind)),
        Err(CheckFault::Memory) => Err(LoadFault::Memory),
    }
}
