//! From the tokens of a text to what it declares.

ghost use Rattle.std.specs.Prelude.{◌≡◌, ◌≤◌, ◌⊎◌, [], ◌∷◌, length};
ghost use Rattle.slice_lexer.specs.Lexing.{Lexes};
ghost use Rattle.slice_lexer.specs.declared.lexer.TheConstants.{MOST_BYTES};
ghost use Rattle.slice_syntax.specs.declared.terminal.Terminal.TheVariants as terminals;
ghost use Rattle.slice_syntax.specs.Lexemes.{Lexemes};
ghost use Rattle.slice_syntax.specs.Reading.{read, token_at};
ghost use Rattle.slice_syntax.specs.declared.tree.File.{File};
ghost use Rattle.slice_syntax.specs.Terminals.{AreWritten, written};
ghost use Rattle.slice_syntax.specs.Files.{Notes, NotesOne, ReadsFile, directive, directives, include_of};
ghost use Rattle.slice_syntax.specs.Moving.{closing_at, end_at, whole_at};
ghost use Rattle.slice_syntax.specs.Syntax.{Answers, BreaksAt, IsBroken, IsFile};
ghost use Rattle.slice_syntax.specs.Taking.{Takes, TakesNoMemory, TakesWith};

use crate::cursor::Cursor;
use crate::directive::include_name;
use crate::fault::{Stop, SyntaxFault};
use crate::modules::modules;
use crate::terminal::{OPEN_TWO, Terminal};
use crate::tree::File;
use crate::words::file_metadata;
use ice_types::{List, Name};
use slice_lexer::Tokens;
use std::alloc::Global;

/// What the text declares, or the first token after which no file can go on.
pub fn parse(alloc: Global, text: &[u8], tokens: &Tokens) -> Result<File, SyntaxFault>
    requires lexed { Lexes text.now tokens.now }
    requires few { length text.now ≤ MOST_BYTES }
    ensures { Answers text.now tokens.now result }
{
    let mut cursor = Cursor::new(text, tokens);
    match file(alloc, &mut cursor) {
        Ok(found) => Ok(found),
        Err(Stop::Memory) => Err(SyntaxFault::Memory),
        Err(Stop::Refused) => Err(cursor.fault(text.len() as u32)),
    }
}

/// Tokens are a file, and one alone, or have a first one that no file goes on with, and never both.
pub fn one_answer()
    ensures either { (ls : Lexemes) → IsFile ls ⊎ IsBroken ls }
    ensures one_file { (ls : Lexemes) (file other : File) → ReadsFile ls file → ReadsFile ls other → file ≡ other }
    ensures one_break { (ls behind rest : Lexemes) → BreaksAt ls behind → BreaksAt ls rest → behind ≡ rest }
    ensures never_both { (ls : Lexemes) → IsFile ls → IsBroken ls → ⊥ }
{}

/// The codes that the grammar goes by are those of the words and symbols that they are called after.
pub fn words_written()
    ensures { AreWritten written }
{}

/// `{ directive | filemeta } { meta module } { directive }`, and nothing after it.
fn file(alloc: Global, cursor: &mut Cursor) -> Result<File, Stop>
    ensures { Takes (λ x. x) result cursor.new (whole_at cursor.old) }
{
    let mut included = List::new(alloc);
    let guarded = heads(alloc, cursor, &mut included)?;
    let items = modules(alloc, cursor)?;
    closing(guarded, cursor)?;
    end(cursor)?;
    Ok(File { items, included })
}

/// `{ directive | filemeta }`, and whether an `#ifndef` is among them.
#[tactic(auto, unfolding(crate::specs::Files::directives))]
fn heads(alloc: Global, cursor: &mut Cursor, included: &mut List<(Name, u32)>) -> Result<bool, Stop>
    ensures { TakesWith (Notes included.old included.new) result cursor.new (read directives cursor.old) }
{
    let mut guarded = false;
    while cursor.begins(&[
        Terminal::Include,
        Terminal::Guard,
        Terminal::Aside,
        OPEN_TWO,
    ]) {
        let guards = head(alloc, cursor, included)?;
        guarded = guarded || guards;
    }
    Ok(guarded)
}

/// A directive before the modules or metadata of the file, and whether it is an `#ifndef`.
#[tactic(auto, unfolding(crate::specs::Files::directive))]
fn head(alloc: Global, cursor: &mut Cursor, included: &mut List<(Name, u32)>) -> Result<bool, Stop>
    ensures { TakesWith (NotesOne included.old included.new) result cursor.new (read directive cursor.old) }
{
    if cursor.begins(&[Terminal::Include]) {
        included.push(take_include(alloc, cursor)?)?;
        return Ok(false);
    }
    if cursor.begins(&[Terminal::Guard]) {
        cursor.take(Terminal::Guard)?;
        return Ok(true);
    }
    if cursor.begins(&[Terminal::Aside]) {
        cursor.take(Terminal::Aside)?;
        return Ok(false);
    }
    file_metadata(cursor)?;
    Ok(false)
}

/// `#include`, with the name in it.
fn take_include(alloc: Global, cursor: &mut Cursor) -> Result<(Name, u32), Stop>
    ensures { Takes (λ x. x) result cursor.new (token_at (terminals.Include ∷ []) include_of cursor.old) }
{
    let (token, bytes) = cursor.take_any(&[Terminal::Include])?;
    match include_name(bytes) {
        Some(text) => Ok((Name::of(alloc, text)?, token.from)),
        None => unreachable!(),
    }
}

/// `#endif` where an `#ifndef` stands before the modules.
fn closing(guarded: bool, cursor: &mut Cursor) -> Result<(), Stop>
    ensures { TakesNoMemory (λ x. x) result cursor.new (closing_at guarded cursor.old) }
{
    if guarded {
        cursor.take(Terminal::EndGuard)?;
    }
    Ok(())
}

/// Nothing.
fn end(cursor: &mut Cursor) -> Result<(), Stop>
    ensures { TakesNoMemory (λ x. x) result cursor.new (end_at cursor.old) }
{
    match cursor.terminal() {
        None => Ok(()),
        Some(_) => Err(Stop::Refused),
    }
}
