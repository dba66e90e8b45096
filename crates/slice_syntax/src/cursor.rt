//! Tokens that are taken from the left, one by one.

ghost use Rattle.std.specs.Prelude.{◌≡◌, drop};
ghost use Rattle.std.specs.Option.{option_map};
ghost use Rattle.slice_lexer.specs.declared.token.Token.{Token};
ghost use Rattle.slice_lexer.specs.Lexing.{Lexes};
ghost use Rattle.slice_syntax.specs.declared.terminal.Terminal.{Terminal};
ghost use Rattle.slice_syntax.specs.Lexemes.{lexemes, begins, terminal_of, next, seen};
ghost use Rattle.slice_syntax.specs.Grammar.{one, optional};
ghost use Rattle.slice_syntax.specs.Rules.{word};
ghost use Rattle.slice_syntax.specs.Reading.{read, token_at};
ghost use Rattle.slice_syntax.specs.Syntax.{fault_at};
ghost use Rattle.slice_syntax.specs.Taking.{Takes, TakesNoMemory};

use crate::directive::if_text;
use crate::fault::{Stop, SyntaxFault};
use crate::terminal::{Terminal, name_of, terminal_of};
use crate::tree::Word;
use ice_types::Name;
use slice_lexer::{Token, Tokens};
use std::alloc::Global;
use std::marker::Model;

/// The tokens of a text from one of them on. Each taking call takes the next one and goes on
/// after it, or refuses it and stays before it.
#[derive(Drop)]
pub(crate) struct Cursor<'a> {
    text: &'a [u8],
    tokens: &'a Tokens,
    at: usize,
}

impl<'a> Model for Cursor<'a> {
    ghost use Rattle.std.specs.Prelude.{◌≤◌, length, drop};
    ghost use Rattle.slice_lexer.specs.Lexing.{Lexes};
    ghost use Rattle.slice_syntax.specs.Lexemes.{Lexemes, lexemes};

    ghost Value = { Lexemes };

    ghost view = { λ c. drop c.at (lexemes c.text.now c.tokens.now) };

    ghost invariant = { λ c. (c.at ≤ length c.tokens.now) × Lexes c.text.now c.tokens.now };
}

impl<'a> Cursor<'a> {
    /// A cursor before the first token.
    pub fn new(text: &'a [u8], tokens: &'a Tokens) -> Cursor<'a>
        requires { Lexes text.now tokens.now }
        ensures { result ≡ lexemes text.now tokens.now }
    {
        Cursor {
            text,
            tokens,
            at: 0,
        }
    }

    /// The next token with its bytes, None at the end.
    fn next(&self) -> Option<(Token, &'a [u8])>
        ensures { option_map seen result ≡ next self.now }
    {
        match self.tokens.get(self.at) {
            Some(token) => Some((*token, self.tokens.text(self.at, self.text))),
            None => None,
        }
    }

    /// What the next token is, None at the end.
    pub fn terminal(&self) -> Option<Terminal>
        ensures { result ≡ option_map terminal_of (next self.now) }
    {
        let (token, bytes) = self.next()?;
        Some(terminal_of(token.kind, bytes))
    }

    /// Whether the next token is one of these.
    pub fn begins(&self, terminals: &[Terminal]) -> bool
        ensures { result ≡ begins terminals.now self.now }
    {
        match self.terminal() {
            Some(terminal) => terminals.contains(&terminal),
            None => false,
        }
    }

    /// Goes on after the next token, where there is one.
    fn advance(&mut self)
        ensures { self.new ≡ drop 1 self.old }
    {
        if self.at < self.tokens.len() {
            self.at += 1;
        }
    }

    /// Takes a token of one of these sorts.
    pub fn take_any(&mut self, terminals: &[Terminal]) -> Result<(Token, &'a [u8]), Stop>
        ensures { TakesNoMemory seen result self.new (token_at terminals.now (λ l. l) self.old) }
    {
        match self.next() {
            Some(found) if self.begins(terminals) => {
                self.advance();
                Ok(found)
            }
            _ => Err(Stop::Refused),
        }
    }

    /// Takes a token of this sort, and answers its place.
    pub fn take(&mut self, terminal: Terminal) -> Result<u32, Stop>
        ensures { TakesNoMemory (λ place. place) result self.new (read (one terminal) self.old) }
    {
        let (token, _) = self.take_any(&[terminal])?;
        Ok(token.from)
    }

    /// Takes a token of this sort where it is the next, and answers its place.
    pub fn take_if(&mut self, terminal: Terminal) -> Result<Option<u32>, Stop>
        ensures { TakesNoMemory (λ place. place) result self.new (read (optional (one terminal)) self.old) }
    {
        if self.begins(&[terminal]) {
            Ok(Some(self.take(terminal)?))
        } else {
            Ok(None)
        }
    }

    /// Takes a word, with its name.
    #[tactic(auto, unfolding(crate::specs::Rules::word))]
    pub fn take_word(&mut self, alloc: Global) -> Result<Word, Stop>
        ensures { Takes (λ word. word) result self.new (read word self.old) }
    {
        let (token, bytes) = self.take_any(&[Terminal::Word])?;
        match if_text(name_of(bytes)) {
            Some(text) => Ok(Word {
                name: Name::of(alloc, text)?,
                place: token.from,
            }),
            None => unreachable!(),
        }
    }

    /// The fault of the next token. The text ends at a place.
    pub fn fault(&self, end: u32) -> SyntaxFault
        ensures { result ≡ fault_at end self.now }
    {
        match self.next() {
            Some((token, _)) => SyntaxFault::Expected {
                place: token.from,
                found: Some(token.kind),
            },
            None => SyntaxFault::Expected {
                place: end,
                found: None,
            },
        }
    }
}
