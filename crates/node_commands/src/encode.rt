//! `encode [--compact] FILE TYPE`: a text of JSON in, the canonical encapsulation of the value that it notes out.

ghost use Rattle.node_commands.specs.declared.words.Task.TheVariants as tasks;
ghost use Rattle.node_commands.specs.Effects.{TakesTask};
ghost use Rattle.node_commands.specs.Outcomes.{FindsTask};

use crate::found::Found;
use crate::outcome::Outcome;
use class_slices::Format;
use ice_ports::Source;
use ice_relay::{canonical_of_text, read_text};
use ice_types::{Schema, TypeRef};
use std::alloc::Global;

/// The canonical encapsulation, in the format, of the value of the type that the text of the source notes.
pub(crate) fn encode<S: Source>(
    alloc: Global,
    format: Format,
    schema: &Schema,
    kind: TypeRef,
    source: &mut S,
) -> Result<Found, Outcome<'static>>
    ensures found { FindsTask (tasks.Encode format) (S.left source.old) schema.now kind
        (S.failures source.old) (S.failures source.new) result }
    ensures taken { TakesTask (tasks.Encode format) (S.left source.old) (S.left source.new) }
{
    let text = read_text(alloc, source)?;
    let bytes = canonical_of_text(alloc, schema, kind, format, text.as_slice())?;
    Ok(Found::Bytes(bytes))
}
