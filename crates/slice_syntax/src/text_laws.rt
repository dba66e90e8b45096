//! Laws of what a text declares.

ghost use Rattle.std.specs.Prelude.{ℕ, List};
ghost use Rattle.slice_lexer.specs.declared.token.Token.{Token};
ghost use Rattle.slice_lexer.specs.Lexing.{Lexes};
ghost use Rattle.slice_syntax.specs.declared.tree.File.{File};
ghost use Rattle.slice_syntax.specs.Lexemes.{lexemes};
ghost use Rattle.slice_syntax.specs.Files.{ReadsFile};
ghost use Rattle.slice_syntax.specs.Places.{AreInOrder, AreRegular};

/// Declarations are told in the order of the text: each stands in a part of its own.
pub fn in_order_of_text()
    ensures { (text : List ℕ) (tokens : List Token) (file : File) → Lexes text tokens
        → ReadsFile (lexemes text tokens) file → AreInOrder 0 file.items }
{}

/// Each declared name is letters, digits and `_`, a `\` before it being no part of it, and no member of a struct is
/// optional.
pub fn regular()
    ensures { (text : List ℕ) (tokens : List Token) (file : File) → Lexes text tokens
        → ReadsFile (lexemes text tokens) file → AreRegular file }
{}
