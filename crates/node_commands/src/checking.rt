//! `check FILE`: whether a Slice file stands, and what it defines.

ghost use Rattle.std.specs.Prelude.{◌≡◌, ℕ, List, Option, IfOk, string_bytes};
ghost use Rattle.node_commands.specs.Words.{check as wanted};
ghost use Rattle.node_commands.specs.Outside.{counts};
ghost use Rattle.node_commands.specs.Decided.{count_line, summary};
ghost use Rattle.node_commands.specs.Outcomes.{FindsBytes, text_found};

use crate::loading::load_schema;
use crate::outcome::Outcome;
use ice_ports::Shelf;
use ice_types::Schema;
use std::alloc::{AllocError, Global};

/// How many definitions there are of each sort, in the file on the shelf and all that it includes,
/// or why it is refused.
pub fn check<H: Shelf>(alloc: Global, file: &str, shelf: &mut H) -> Result<String, Outcome<'static>>
    ensures { (input : Option (List ℕ)) (source sink : ℕ)
        → FindsBytes (wanted file.now) (H.files shelf.old) input
        (counts (H.failures shelf.old) source sink)
        (counts (H.failures shelf.new) source sink) (text_found result) }
{
    let schema = load_schema(alloc, file, shelf)?;
    let text = summary(alloc, &schema);
    drop(schema);
    Ok(text?)
}

/// How many rows the tables of the schema have.
fn summary(alloc: Global, schema: &Schema) -> Result<String, AllocError>
    ensures { IfOk result (λ text. string_bytes text ≡ summary schema.now) }
{
    let types = schema.seqs().len() as u128
        + schema.dicts().len() as u128
        + schema.structs().len() as u128
        + schema.enums().len() as u128;
    let (classes, exceptions) = (schema.classes().len(), schema.exceptions().len());
    let interfaces = schema.interfaces().len();
    count_line(alloc, types, classes, exceptions, interfaces)
}

/// The line that tells so many definitions of each sort.
fn count_line(
    alloc: Global,
    types: u128,
    classes: usize,
    exceptions: usize,
    interfaces: usize,
) -> Result<String, AllocError>
    ensures { IfOk result (λ text.
        string_bytes text ≡ count_line types classes exceptions interfaces) }
{
    format!(in alloc;
        "ok: {types} types, {classes} classes, {exceptions} exceptions, {interfaces} interfaces\n"
    )
}
