//! The interfaces that OBJECT words name.

ghost use Rattle.serve_command.specs.ObjectWords.{object_of};
ghost use Rattle.serve_command.specs.Words.{objects_of};
ghost use Rattle.serve_command.specs.Steps.{ChecksInterface, FindsInterface, NamesAll, NamesOne};

use crate::object_words::ObjectWord;
use ice_types::Schema;
use node_commands::Outcome;

/// Refuses the first word whose INTERFACE names no interface of the schema.
pub(crate) fn name_all<'a>(schema: &Schema, objects: &[ObjectWord<'a>]) -> Result<(), Outcome<'a>>
    ensures { NamesAll schema.now (objects_of objects.now) result }
{
    for object in objects {
        name(schema, object)?;
    }
    Ok(())
}

/// Refuses the word where its INTERFACE names no interface of the schema.
fn name<'a>(schema: &Schema, object: &ObjectWord<'a>) -> Result<(), Outcome<'a>>
    ensures { NamesOne schema.now (object_of object.now) result }
{
    match object {
        ObjectWord::Store { interface, .. } => check(schema, interface),
        ObjectWord::Echo { interface, .. } => check(schema, interface),
        ObjectWord::Locator { .. } | ObjectWord::Place { .. } | ObjectWord::Adapter { .. } => Ok(
            (),
        ),
    }
}

/// Refuses the word where it names no interface of the schema.
fn check<'a>(schema: &Schema, word: &'a str) -> Result<(), Outcome<'a>>
    ensures { ChecksInterface schema.now word.now result }
{
    match schema.interface(word) {
        Some(_) => Ok(()),
        None => Err(Outcome::NoSuchName(word)),
    }
}

/// The interface of the schema that the word names.
pub(crate) fn interface_of<'a>(schema: &Schema, word: &'a str) -> Result<u32, Outcome<'a>>
    ensures { FindsInterface schema.now word.now result }
{
    schema.interface(word).ok_or(Outcome::NoSuchName(word))
}
