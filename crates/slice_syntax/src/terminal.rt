//! What a token is to the grammar.

ghost use Rattle.std.specs.Prelude.{◌≡◌};
ghost use Rattle.slice_syntax.specs.Lexemes.{name_of, terminal_by, word_terminal};

use crate::directive::{directive_terminal, if_text};
use slice_lexer::TokenKind;

/// What a token is to the grammar.
#[derive(Clone, Copy, PartialEq, Eq)]
pub(crate) enum Terminal {
    Word,
    /// By its code in the table of keywords.
    Keyword(u8),
    Number,
    Text,
    /// By its place in the list of symbols.
    Symbol(u8),
    /// `#include` with a name.
    Include,
    /// `#ifndef` with a word.
    Guard,
    /// `#pragma once`, or `#define` with a word.
    Aside,
    /// `#endif`.
    EndGuard,
    /// What no file has.
    Stray,
}

pub(crate) const BOOL: Terminal = Terminal::Keyword(0);

pub(crate) const BYTE: Terminal = Terminal::Keyword(1);

pub(crate) const CLASS: Terminal = Terminal::Keyword(2);

pub(crate) const CONST: Terminal = Terminal::Keyword(3);

pub(crate) const DICTIONARY: Terminal = Terminal::Keyword(4);

pub(crate) const DOUBLE: Terminal = Terminal::Keyword(5);

pub(crate) const ENUM: Terminal = Terminal::Keyword(6);

pub(crate) const EXCEPTION: Terminal = Terminal::Keyword(7);

pub(crate) const EXTENDS: Terminal = Terminal::Keyword(8);

pub(crate) const FALSE: Terminal = Terminal::Keyword(9);

pub(crate) const FLOAT: Terminal = Terminal::Keyword(10);

pub(crate) const IDEMPOTENT: Terminal = Terminal::Keyword(11);

pub(crate) const INT: Terminal = Terminal::Keyword(13);

pub(crate) const INTERFACE: Terminal = Terminal::Keyword(14);

pub(crate) const LONG: Terminal = Terminal::Keyword(17);

pub(crate) const MODULE: Terminal = Terminal::Keyword(18);

pub(crate) const OBJECT: Terminal = Terminal::Keyword(19);

pub(crate) const OPTIONAL: Terminal = Terminal::Keyword(20);

pub(crate) const OUT: Terminal = Terminal::Keyword(21);

pub(crate) const SEQUENCE: Terminal = Terminal::Keyword(22);

pub(crate) const SHORT: Terminal = Terminal::Keyword(23);

pub(crate) const STRING: Terminal = Terminal::Keyword(24);

pub(crate) const STRUCT: Terminal = Terminal::Keyword(25);

pub(crate) const THROWS: Terminal = Terminal::Keyword(26);

pub(crate) const TRUE: Terminal = Terminal::Keyword(27);

pub(crate) const VALUE: Terminal = Terminal::Keyword(28);

pub(crate) const VOID: Terminal = Terminal::Keyword(29);

pub(crate) const OPEN_BRACE: Terminal = Terminal::Symbol(0);

pub(crate) const CLOSE_BRACE: Terminal = Terminal::Symbol(1);

pub(crate) const OPEN_ROUND: Terminal = Terminal::Symbol(2);

pub(crate) const CLOSE_ROUND: Terminal = Terminal::Symbol(3);

pub(crate) const LESS: Terminal = Terminal::Symbol(4);

pub(crate) const GREATER: Terminal = Terminal::Symbol(5);

pub(crate) const OPEN_SQUARE: Terminal = Terminal::Symbol(6);

pub(crate) const CLOSE_SQUARE: Terminal = Terminal::Symbol(7);

pub(crate) const OPEN_TWO: Terminal = Terminal::Symbol(8);

pub(crate) const CLOSE_TWO: Terminal = Terminal::Symbol(9);

pub(crate) const COMMA: Terminal = Terminal::Symbol(10);

pub(crate) const SEMICOLON: Terminal = Terminal::Symbol(11);

pub(crate) const COLONS: Terminal = Terminal::Symbol(12);

pub(crate) const EQUALS: Terminal = Terminal::Symbol(13);

pub(crate) const STAR: Terminal = Terminal::Symbol(14);

pub(crate) const PLUS: Terminal = Terminal::Symbol(15);

pub(crate) const MINUS: Terminal = Terminal::Symbol(16);

/// What a token of this kind and these bytes is.
pub(crate) fn terminal_of(kind: TokenKind, bytes: &[u8]) -> Terminal
    ensures { result ≡ terminal_by kind bytes.now }
{
    match kind {
        TokenKind::Word => word_terminal(bytes),
        TokenKind::Keyword(code) => Terminal::Keyword(code),
        TokenKind::Number(_) => Terminal::Number,
        TokenKind::Text => Terminal::Text,
        TokenKind::Symbol(code) => Terminal::Symbol(code),
        TokenKind::Directive => directive_terminal(bytes),
    }
}

#[tactic(auto, unfolding(crate::specs::Lexemes::word_terminal))]
fn word_terminal(bytes: &[u8]) -> Terminal
    ensures { result ≡ word_terminal bytes.now }
{
    if if_text(name_of(bytes)).is_some() {
        Terminal::Word
    } else {
        Terminal::Stray
    }
}

/// The word without a `\` before it.
pub(crate) fn name_of(bytes: &[u8]) -> &[u8]
    ensures { result.now ≡ name_of bytes.now }
{
    match bytes {
        [b'\\', name @ ..] => name,
        _ => bytes,
    }
}
