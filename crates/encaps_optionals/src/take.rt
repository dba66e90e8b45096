//! Parts of a proxy that stand in more than one place.

ghost use Rattle.ice_prims.specs.Number.{text_at};
ghost use Rattle.ice_encoding.specs.Parts.{version};
ghost use Rattle.encaps_optionals.specs.ProxyAnswers.{ReadsPart, Sees};

use ice_prims::{Cursor, Fault, ReadFault};
use ice_types::Name;
use std::alloc::Global;

/// A string, as a text of its own.
pub fn take_text(alloc: Global, cursor: &mut Cursor<'_>) -> Result<Name, ReadFault>
    ensures { ReadsPart result cursor.new (text_at cursor.old) }
{
    Ok(Name::of(alloc, cursor.take_str()?)?)
}

/// A major and a minor number, which are one part.
pub fn take_version(cursor: &mut Cursor<'_>) -> Result<(u8, u8), Fault>
    ensures { Sees result cursor.new (version.read cursor.old) }
{
    let bytes = cursor.take_bytes(2)?;
    Ok((bytes[0], bytes[1]))
}
