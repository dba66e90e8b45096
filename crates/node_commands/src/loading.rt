//! Files of the shelf: the schema that a Slice file means, with all that it includes, and bytes as they stand.

ghost use Rattle.std.specs.Prelude.{◌≡◌};
ghost use Rattle.node_commands.specs.Outcomes.{FindsSchema, FindsFile};

use crate::outcome::Outcome;
use ice_ports::Shelf;
use ice_types::{Bytes, Schema};
use slice_check::load;
use std::alloc::Global;

/// The schema that the file on the shelf means, or why there is none.
pub fn load_schema<H: Shelf>(
    alloc: Global,
    file: &str,
    shelf: &mut H,
) -> Result<Schema, Outcome<'static>>
    ensures found { FindsSchema (H.files shelf.old) file.now
        (H.failures shelf.old) (H.failures shelf.new) result }
    ensures kept { H.files shelf.new ≡ H.files shelf.old }
{
    Ok(load(alloc, shelf, file)?)
}

/// The bytes of the file of this name on the shelf, or why there are none.
pub(crate) fn load_bytes<'a, H: Shelf>(
    alloc: Global,
    name: &'a str,
    shelf: &mut H,
) -> Result<Bytes, Outcome<'a>>
    ensures found { FindsFile (H.files shelf.old) name.now
        (H.failures shelf.old) (H.failures shelf.new) result }
    ensures kept { H.files shelf.new ≡ H.files shelf.old }
{
    shelf.load(alloc, name)?.ok_or(Outcome::NoSuchName(name))
}
