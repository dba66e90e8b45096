//! Tokens with their spans.

use std::marker::Model;

/// What a token is.
#[derive(Clone, Copy, Debug, PartialEq, Eq)]
pub enum TokenKind {
    /// A word that is no keyword, or any after a `\`.
    Word,
    /// A keyword, with its code in the table of keywords.
    Keyword(u8),
    /// A number, with its value.
    Number(u64),
    /// A string, with both quotes.
    Text,
    /// A symbol, with its place in the list of symbols.
    Symbol(u8),
    /// A line that begins with `#`.
    Directive,
}

/// A token, with its first byte and the byte after its last, counted from 0.
#[derive(Clone, Copy, PartialEq, Eq)]
pub struct Token {
    pub kind: TokenKind,
    pub from: u32,
    pub to: u32,
}

/// The tokens of a text in order.
#[derive(Drop)]
pub struct Tokens {
    items: Vec<Token>,
}

impl Model for Tokens {
    ghost use Rattle.std.specs.Prelude.{List};
    ghost use Rattle.slice_lexer.specs.declared.token.Token.{Token};

    ghost Value = { List Token };

    ghost view = { λ tokens. tokens.items.items };
}

impl Tokens {
    ghost use Rattle.std.specs.Prelude.{◌≡◌, ◌<◌, ◌↔◌, [], IsTrue, length, slice_get};
    ghost use Rattle.std.specs.Option.{option_copied};
    ghost use Rattle.slice_lexer.specs.declared.token.Token.{Token};
    ghost use Rattle.slice_lexer.specs.Lexing.{AreBytesOf, Lexes};

    /// These tokens, which are not copied.
    pub(crate) fn from_vec(items: Vec<Token>) -> Tokens
        ensures { result ≡ items.items }
    {
        Tokens { items }
    }

    /// How many tokens there are.
    pub fn len(&self) -> usize
        ensures { result ≡ length self.now }
    {
        self.items.len()
    }

    /// Whether there is no token.
    pub fn is_empty(&self) -> bool
        ensures { IsTrue result ↔ (self.now ≡ []) }
    {
        self.items.is_empty()
    }

    /// The token at a place counted from 0, None from `len` on.
    pub fn get(&self, at: usize) -> Option<&Token>
        ensures { option_copied result ≡ slice_get self.now at }
    {
        self.items.get(at)
    }

    /// The bytes of the token at a place, in the text that it was found in.
    pub fn text<'a>(&self, at: usize, text: &'a [u8]) -> &'a [u8]
        requires within { at < length self.now }
        requires same_text { Lexes text.now self.now }
        ensures { AreBytesOf text.now self.now at result.now }
    {
        let token = &self.items[at];
        &text[token.from as usize..token.to as usize]
    }
}
