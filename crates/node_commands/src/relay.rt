//! `relay [--compact] FILE TYPE`: one encapsulation in, the canonical one out.

ghost use Rattle.node_commands.specs.declared.words.Task.TheVariants as tasks;
ghost use Rattle.node_commands.specs.Effects.{TakesTask};
ghost use Rattle.node_commands.specs.Outcomes.{FindsTask};

use crate::found::Found;
use crate::outcome::Outcome;
use class_slices::Format;
use ice_ports::Source;
use ice_relay::{canonical_of, read_input};
use ice_types::{Schema, TypeRef};
use std::alloc::Global;

/// The canonical encapsulation, in the format, of the value of the type that the source holds.
pub(crate) fn relay<S: Source>(
    alloc: Global,
    format: Format,
    schema: &Schema,
    kind: TypeRef,
    source: &mut S,
) -> Result<Found, Outcome<'static>>
    ensures found { FindsTask (tasks.Relay format) (S.left source.old) schema.now kind
        (S.failures source.old) (S.failures source.new) result }
    ensures taken { TakesTask (tasks.Relay format) (S.left source.old) (S.left source.new) }
{
    let input = read_input(alloc, source)?;
    let bytes = canonical_of(alloc, schema, kind, format, input.as_slice())?;
    Ok(Found::Bytes(bytes))
}
