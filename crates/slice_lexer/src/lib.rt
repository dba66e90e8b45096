//! The tokens of a Slice text, after "Lexical Rules" in "The Slice Language" of the Ice manual. `specs/Tokens.antt`
//! says what each is.
//!
//! A text is pieces, one after the other: blanks, comments and tokens. At each place the longest piece stands.
//!
//! - Blanks are space, tab, carriage return, newline and form feed. Only a newline ends a line.
//! - A comment is `//` with the rest of its line, or `/*` with all up to the first `*/` after it.
//! - A word is an ASCII letter or `_`, then letters, digits and `_`. It is a keyword by its exact bytes, unless a `\`
//!   stands directly before it, which is then part of the word.
//! - A number is decimal without a leading `0`, octal after `0`, or hexadecimal after `0x`, and at most 2 ^ 63.
//!   No letter, digit, `_` or `.` follows it directly.
//! - A string stands between two `"` on one line. A `\` takes the byte after it, but never a newline.
//! - A directive is the rest of a line from a `#` on, before which only blanks stand in that line.
//! - The symbols are `{ } ( ) < > [ ] [[ ]] , ; :: = * + -`, numbered from 0 in this order.
//!
//! Nothing else may stand in a text, which has at most `MOST_BYTES` bytes. Its first defect from the left is the
//! answer.
//!
//! Forms, and why they are so:
//!
//! - What a token is, is a relation, in the manual's terms, and the contract of `tokens` cites nothing else. A
//!   reading function (`front`) stands below it for the inner functions, and is proved to read exactly what
//!   stands there; so a mistake that is made in the code and in `front` alike is refused.
//! - A blank is one byte, a comment one piece: `IsGap` has no longest form for blanks, since a run of them is a
//!   run of pieces. For strings and block comments the end is fixed by their form.
//! - The classes of bytes (`is_letter`, `is_blank`, ..) and "the line so far is blank" are shared by the
//!   relations and the reading: each is one line in the manual's terms.
//! - The ends of lines and block comments are found by `memchr`; `proofs/Searches.antt` leads from what that
//!   crate answers to `line` and `before_close`. A string's end stays a loop, since a `\` takes the byte after
//!   it; words and digits stay `take_while`, since `memchr` knows no class of bytes.
#![tactic(auto)]

mod fault;
mod fronts;
mod laws;
mod lexer;
mod piece;
mod runs;
mod token;

pub use fault::LexFault;
pub use laws::{defects_placed, one_answer, spans_rise, tokens_stand};
pub use lexer::{MOST_BYTES, tokens};
pub use token::{Token, TokenKind, Tokens};
