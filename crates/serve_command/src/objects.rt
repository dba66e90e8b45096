//! All OBJECT words.

ghost use Rattle.std.specs.Prelude.{IfOk};
ghost use Rattle.node_commands.specs.Words.{words_of};
ghost use Rattle.serve_command.specs.Reading.{SpellAll};

use crate::object_words::{ObjectWord, object_of};
use std::alloc::{AllocError, Global};

/// What the words ask for, each of them, in order; None where one asks for nothing.
pub(crate) fn objects_of<'a>(
    alloc: Global,
    words: &'a [String],
) -> Result<Option<Vec<ObjectWord<'a>>>, AllocError>
    ensures { IfOk result (SpellAll (words_of words.now)) }
{
    let mut objects = Vec::new(alloc);
    for word in words {
        match object_of(word.as_str()) {
            Some(object) => objects.push(object)?,
            None => return Ok(None),
        }
    }
    Ok(Some(objects))
}
