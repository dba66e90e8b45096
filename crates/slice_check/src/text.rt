//! From one text to its tree.

ghost use Rattle.std.specs.Prelude.{IfOk};
ghost use Rattle.slice_syntax.specs.Places.{AreRegular};
ghost use Rattle.slice_check.specs.Answers.{Parses};

use crate::fault::{LoadFault, lexer_fault, text_fault};
use slice_lexer::tokens;
use slice_syntax::{File, SyntaxFault, parse};
use std::alloc::Global;

/// The tree of the text of a file with this name, or its first fault: of the lexer, else of the parser.
pub(crate) fn text_tree(alloc: Global, file: &str, text: &[u8]) -> Result<File, LoadFault>
    ensures answer { Parses file.now text.now result }
    ensures regular { IfOk result AreRegular }
{
    let tokens = match tokens(alloc, text) {
        Ok(tokens) => tokens,
        Err(fault) => return Err(lexer_fault(alloc, file, fault)),
    };
    match parse(alloc, text, &tokens) {
        Ok(tree) => Ok(tree),
        Err(SyntaxFault::Expected { place, .. }) => Err(text_fault(alloc, file, place, "Expected")),
        Err(SyntaxFault::Memory) => Err(LoadFault::Memory),
    }
}
