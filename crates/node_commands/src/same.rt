//! `same FILE TYPE`: two encapsulations in, and whether they hold the same value.

ghost use Rattle.node_commands.specs.declared.words.Task.TheVariants as tasks;
ghost use Rattle.node_commands.specs.Effects.{TakesTask};
ghost use Rattle.node_commands.specs.Outcomes.{FindsTask};

use crate::found::Found;
use crate::outcome::Outcome;
use ice_ports::Source;
use ice_relay::{are_same, read_two};
use ice_types::{Schema, TypeRef};
use std::alloc::Global;

/// Whether the two values of the type that the source holds are the same.
pub(crate) fn same<S: Source>(
    alloc: Global,
    schema: &Schema,
    kind: TypeRef,
    source: &mut S,
) -> Result<Found, Outcome<'static>>
    ensures found { FindsTask tasks.Same (S.left source.old) schema.now kind
        (S.failures source.old) (S.failures source.new) result }
    ensures taken { TakesTask tasks.Same (S.left source.old) (S.left source.new) }
{
    let input = read_two(alloc, source)?;
    let is_same = are_same(alloc, schema, kind, input.as_slice())?;
    Ok(Found::Verdict(is_same))
}
