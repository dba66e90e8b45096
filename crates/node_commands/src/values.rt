//! The commands with FILE and TYPE: `relay`, `same`, `dump` and `encode`.

ghost use Rattle.std.specs.Prelude.{ℕ, List, Some};
ghost use Rattle.node_commands.specs.Words.{values};
ghost use Rattle.node_commands.specs.Outside.{counts};
ghost use Rattle.node_commands.specs.Causes.{Causes};
ghost use Rattle.node_commands.specs.Effects.{TakesTask, Takes, Outputs};
ghost use Rattle.node_commands.specs.Outcomes.{FindsType, CausesTask, answer_of};

use crate::dump::dump;
use crate::encode::encode;
use crate::loading::load_schema;
use crate::outcome::Outcome;
use crate::output::print_or_tell;
use crate::relay::relay;
use crate::same::same;
use crate::type_words::type_of_word;
use crate::words::Task;
use ice_ports::{Shelf, Sink, Source};
use ice_types::{Schema, TypeRef};
use std::alloc::Global;

/// Does the task with values of the type that the word names, up to the answer's last byte. Only a source of which a
/// value is asked is read.
pub fn run_task<'a, H: Shelf, S: Source, K: Sink>(
    alloc: Global,
    task: Task,
    file: &str,
    word: &'a str,
    shelf: &mut H,
    source: &mut S,
    sink: &mut K,
) -> Outcome<'a>
    ensures { (bytes : List ℕ)
        × Causes (Some (values task file.now word.now)) (H.files shelf.old) (S.left source.old)
        (counts (H.failures shelf.old) (S.failures source.old) (K.failures sink.old))
        (counts (H.failures shelf.new) (S.failures source.new) (K.failures sink.new))
        (answer_of result bytes)
        × Takes (Some (values task file.now word.now)) (S.left source.old) (S.left source.new)
        (answer_of result bytes)
        × Outputs (K.taken sink.old) (K.taken sink.new) (answer_of result bytes) }
{
    let schema = match load_schema(alloc, file, shelf) {
        Ok(schema) => schema,
        Err(outcome) => return outcome,
    };
    let outcome = match named_type(&schema, word) {
        Ok(kind) => run_with(alloc, task, &schema, kind, source, sink),
        Err(outcome) => outcome,
    };
    drop(schema);
    outcome
}

/// The type that the word names.
pub(crate) fn named_type<'a>(schema: &Schema, word: &'a str) -> Result<TypeRef, Outcome<'a>>
    ensures { FindsType schema.now word.now result }
{
    type_of_word(schema, word).ok_or(Outcome::NoSuchName(word))
}

/// Does the task with values of a type of the schema.
fn run_with<S: Source, K: Sink>(
    alloc: Global,
    task: Task,
    schema: &Schema,
    kind: TypeRef,
    source: &mut S,
    sink: &mut K,
) -> Outcome<'static>
    ensures came { (bytes : List ℕ)
        × ((shelf : ℕ) → CausesTask task (S.left source.old) schema.now kind
        (counts shelf (S.failures source.old) (K.failures sink.old))
        (counts shelf (S.failures source.new) (K.failures sink.new)) (answer_of result bytes))
        × Outputs (K.taken sink.old) (K.taken sink.new) (answer_of result bytes) }
    ensures taken { TakesTask task (S.left source.old) (S.left source.new) }
{
    match task {
        Task::Relay(format) => print_or_tell(relay(alloc, format, schema, kind, source), sink),
        Task::Same => print_or_tell(same(alloc, schema, kind, source), sink),
        Task::Dump => dump(alloc, schema, kind, source, sink),
        Task::Encode(format) => print_or_tell(encode(alloc, format, schema, kind, source), sink),
    }
}
