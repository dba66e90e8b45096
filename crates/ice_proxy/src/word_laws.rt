//! What the definitions promise of each other.

ghost use Rattle.std.specs.Prelude.{◌≡◌, ◌+◌, ◌<◌, ◌++◌, ℕ, List, Ok, Some, length, true};
ghost use Rattle.std.specs.List.{list_all};
ghost use Rattle.std.specs.Str.{IsUtf8};
ghost use Rattle.ice_types.specs.declared.identity.Identity.{Identity};
ghost use Rattle.ice_proxy.specs.Escapes.{text_of, identity_of};
ghost use Rattle.ice_proxy.specs.PrintedWords.{printed_text, quoted_text, printed_identity};
ghost use Rattle.ice_proxy.specs.IdentityText.{identity_text};
ghost use Rattle.ice_proxy.specs.Words.{is_blank, next, word};
ghost use Rattle.ice_proxy.specs.Laws.{IsWord, EndsWord};

/// What is printed of a text, in quotes or as it wants them, stands for that text.
pub fn texts_printed()
    ensures printed { (s : List ℕ) → IsUtf8 s → text_of (printed_text s) ≡ Some s }
    ensures quoted { (s : List ℕ) → IsUtf8 s → text_of (quoted_text s) ≡ Some s }
{}

/// What is printed of an identity stands for that identity, as a word and as a whole text.
pub fn identities_printed()
    ensures word { (i : Identity) → 0 < length i.name → IsUtf8 i.name → IsUtf8 i.category
        → identity_of (printed_identity i) ≡ Some i }
    ensures whole { (i : Identity) → 0 < length i.name → IsUtf8 i.name → IsUtf8 i.category
        → identity_text (printed_identity i) ≡ Ok i }
{}

/// What is printed of a text or an identity is one word, whatever follows that ends a word.
pub fn printed_is_a_word()
    ensures text { (s : List ℕ) → IsWord (printed_text s) }
    ensures quoted { (s : List ℕ) → IsWord (quoted_text s) }
    ensures identity { (i : Identity) → IsWord (printed_identity i) }
{}

/// A word is what stands next, behind any blanks.
pub fn words_stand_next()
    ensures { (place : ℕ) (gap bytes rest : List ℕ) → list_all is_blank gap ≡ true → IsWord bytes → EndsWord rest
        → next (record { place = place; bytes = gap ++ (bytes ++ rest) })
        ≡ record {
          token = word bytes;
          place = place + length gap;
          rest = record { place = (place + length gap) + length bytes; bytes = rest };
        } }
{}
