//! From a text to its tokens.

ghost use Rattle.slice_lexer.specs.Lexing.{Answers};

use crate::fault::LexFault;
use crate::fronts::front;
use crate::piece::Piece;
use crate::token::{Token, Tokens};
use std::alloc::Global;

/// The most bytes of a text that has tokens.
pub const MOST_BYTES: usize = 1_000_000;

/// The tokens of the text, or its first defect from the left.
#[tactic(auto, using(crate::proofs::Standing::piece_within))]
pub fn tokens(alloc: Global, text: &[u8]) -> Result<Tokens, LexFault>
    ensures { Answers text.now result }
{
    if text.len() > MOST_BYTES {
        return Err(LexFault::TooLong);
    }
    let mut items = Vec::new(alloc);
    let mut at = 0;
    while at < text.len() {
        let piece = front(text, at)?;
        let end = at + piece.length();
        if let Piece::Token(kind, _) = piece {
            items.push(Token {
                kind,
                from: at as u32,
                to: end as u32,
            })?;
        }
        at = end;
    }
    Ok(Tokens::from_vec(items))
}
