//! Laws of tokens and defects, by the definitions in `specs/Tokens.antt` and `specs/Lexing.antt`.

ghost use Rattle.std.specs.Prelude.{List, ℕ, ◌≡◌, ◌⊎◌, length};
ghost use Rattle.slice_lexer.specs.declared.fault.LexFault.{LexFault};
ghost use Rattle.slice_lexer.specs.declared.token.Token.{Token};
ghost use Rattle.slice_lexer.specs.Lexing.{AreSpans, AreTokensOf, HasDefect, HasTokens, IsWithin, Lexes, LexBreaks};

/// Each text, of any length, has tokens or a first defect, and no two of these.
pub fn one_answer()
    ensures some { (text : List ℕ) → HasTokens text ⊎ HasDefect text }
    ensures tokens { (text : List ℕ) (one other : List Token) → Lexes text one → Lexes text other → one ≡ other }
    ensures defect { (text : List ℕ) (one other : LexFault) → LexBreaks text one → LexBreaks text other → one ≡ other }
    ensures never_both { (text : List ℕ) → HasTokens text → HasDefect text → ⊥ }
{}

/// The bytes of each token of a text are one of its kind, and no longer one begins there.
pub fn tokens_stand()
    ensures { (text : List ℕ) (tokens : List Token) → Lexes text tokens → AreTokensOf text tokens }
{}

/// The spans of a text's tokens rise without overlap and end within the text. None is empty.
pub fn spans_rise()
    ensures { (text : List ℕ) (tokens : List Token) → Lexes text tokens → AreSpans 0 tokens (length text) }
{}

/// A defect's place is a byte of the text, and it is never `TooLong` or `Memory`.
pub fn defects_placed()
    ensures { (text : List ℕ) (fault : LexFault) → LexBreaks text fault → IsWithin text fault }
{}
