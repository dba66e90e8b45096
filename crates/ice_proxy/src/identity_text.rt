//! The identity that a whole text stands for.

ghost use Rattle.std.specs.Prelude.{◌<◌, ◌^◌, length};
ghost use Rattle.ice_proxy.specs.IdentityText.{GivesText, identity_text};

use crate::fault::TextFault;
use crate::reading::identity_of;
use crate::words::{Token, Words};
use ice_types::Identity;
use std::alloc::Global;

/// The identity that the text stands for: blanks, one word and blanks. `Broken` at a word that is no identity, at the
/// first `:`, `@` or further word, or at the end of a text without a word. A place has to fit a fault, so that the text
/// is not longer than that. (Ice manual, "Object Identity".)
pub fn parse_identity(alloc: Global, text: &str) -> Result<Identity, TextFault>
    requires { length text.now < 2 ^ 32 }
    ensures { GivesText result (identity_text text.now) }
{
    let mut words = Words::new(text);
    let (first, place) = words.next();
    let Token::Word(word) = first else {
        return Err(TextFault::Broken { place });
    };
    let Some(identity) = identity_of(alloc, word)? else {
        return Err(TextFault::Broken { place });
    };
    let (second, place) = words.next();
    let Token::End = second else {
        return Err(TextFault::Broken { place });
    };
    Ok(identity)
}
