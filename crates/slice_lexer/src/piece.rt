//! What stands at a place of a text.

ghost use Rattle.std.specs.Prelude.{◌≡◌};
ghost use Rattle.slice_lexer.specs.Lexing.{length_of};

use crate::token::TokenKind;

/// A part of a text, with its length in bytes.
#[derive(Clone, Copy, PartialEq, Eq)]
pub enum Piece {
    /// A blank or a comment.
    Gap(usize),
    Token(TokenKind, usize),
}

impl Piece {
    /// How many bytes the piece has.
    pub fn length(&self) -> usize
        ensures { result ≡ length_of self.now }
    {
        match *self {
            Piece::Gap(length) => length,
            Piece::Token(_, length) => length,
        }
    }
}
