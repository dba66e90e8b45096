//! The words of the command `serve`.

ghost use Rattle.std.specs.Prelude.{◌↔◌, IfOk, IsTrue, OnErr};
ghost use Rattle.std.specs.List.{AllByRecursion};
ghost use Rattle.node_commands.specs.Words.{IsWord, words_of};
ghost use Rattle.node_commands.specs.Once.{Exactly};
ghost use Rattle.serve_command.specs.Words.{Completes, IsNoOther, IsServe, ServeForm};
ghost use Rattle.serve_command.specs.Words.{asked_of, plain_from};

use crate::apart::are_apart;
use crate::object_words::ObjectWord;
use crate::objects::objects_of;
use crate::operands::{Operands, operands_of};
use node_commands::MOST_OF_A_WORD;
use std::alloc::{AllocError, Global};

/// The most words of the command line.
pub const MOST_WORDS: usize = 64;

/// What the words of `serve` ask for.
#[derive(Drop)]
pub struct ServeCommand<'a> {
    /// How many connections are served at once.
    pub workers: u32,
    /// How many connections are accepted.
    pub connections: u32,
    /// The Slice file.
    pub file: &'a str,
    /// Where it listens, and on which port; 0 lets the net choose.
    pub host: &'a str,
    pub port: u16,
    /// The objects, and the places that locators know.
    pub objects: Vec<ObjectWord<'a>>,
}

/// What the words ask `serve` for, None where they are not of its form. Whether two identities are one is told by
/// their texts, where these stand for identities. Memory can lack only where the first word is `serve`.
pub fn serve_of<'a>(
    alloc: Global,
    words: &'a [String],
) -> Result<Option<ServeCommand<'a>>, AllocError>
    ensures asks { IfOk result (λ asked. Exactly (ServeForm (words_of words.now)) (asked_of asked)) }
    ensures memory { OnErr result (IsServe (words_of words.now)) }
{
    if words.len() > MOST_WORDS || !are_short(words) {
        return Ok(None);
    }
    match operands_of(words) {
        Some(operands) => command_of(alloc, operands),
        None => Ok(None),
    }
}

/// Whether no word is longer than a word may be.
fn are_short(words: &[String]) -> bool
    ensures { IsTrue result ↔ AllByRecursion IsWord (words_of words.now) }
{
    words.iter().all(|word| word.len() <= MOST_OF_A_WORD)
}

/// The command with these operands, None where their objects are none, or not apart.
fn command_of<'a>(
    alloc: Global,
    operands: Operands<'a>,
) -> Result<Option<ServeCommand<'a>>, AllocError>
    requires { AllByRecursion IsWord (words_of operands.objects.now) }
    ensures { IfOk result (λ asked. Exactly (Completes (plain_from operands.entry)) (asked_of asked)) }
{
    if operands.objects.is_empty() {
        return Ok(None);
    }
    let Some(objects) = objects_of(alloc, operands.objects)? else {
        return Ok(None);
    };
    if !are_apart(alloc, objects.as_slice())? {
        return Ok(None);
    }
    Ok(Some(ServeCommand {
        workers: operands.workers,
        connections: operands.connections,
        file: operands.file,
        host: operands.host,
        port: operands.port,
        objects,
    }))
}

/// Words of a form of `serve` are no form of another command.
pub fn serve_is_no_other()
    ensures { IsNoOther }
{}
