//! The facet of an object, in a proxy and in a call. (Ice manual, "Facets".)

ghost use Rattle.ice_prims.specs.Taking.{TakesUnlessMemory};
ghost use Rattle.ice_encoding.specs.Identity.{facet};
ghost use Rattle.encaps_optionals.specs.Answers.{Sees};

use ice_prims::{Cursor, Fault, Kind, ReadFault};
use ice_types::Name;
use std::alloc::Global;

/// A sequence of at most one text; none is the default facet. `BadFacet` at its size where it counts more.
/// The first fault, or out of memory, leaves the cursor as it was.
pub fn take_facet(alloc: Global, cursor: &mut Cursor<'_>) -> Result<Name, ReadFault>
    ensures { TakesUnlessMemory (λ name. name) result cursor.old cursor.new (facet.read cursor.old) }
{
    let mut ahead = cursor.fork();
    let text = facet_text(&mut ahead)?;
    let name = Name::of(alloc, text)?;
    *cursor = ahead;
    Ok(name)
}

/// The same as a text that is lent, empty for the default facet.
pub(crate) fn facet_text<'a>(cursor: &mut Cursor<'a>) -> Result<&'a str, Fault>
    ensures { Sees (λ text. text.now) result cursor.new (facet.read cursor.old) }
{
    let wrong = cursor.fault(Kind::BadFacet);
    match cursor.take_size()? {
        0 => Ok(""),
        1 => cursor.take_str(),
        _ => Err(wrong),
    }
}
