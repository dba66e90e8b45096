//! Words by what they mean. Each call refuses what stands in the place of such a word.

ghost use Rattle.std.specs.Prelude.{◌≡◌};
ghost use Rattle.ice_proxy.specs.Escapes as escapes;
ghost use Rattle.ice_proxy.specs.Numbers as spec;
ghost use Rattle.ice_proxy.specs.Options.{listed};
ghost use Rattle.ice_proxy.specs.Looking.{at_ahead, colon_at, end_at, place_at, word_ahead, word_as, word_at};
ghost use Rattle.ice_proxy.specs.Grammar as grammar;
ghost use Rattle.ice_proxy.specs.Telling.{FindsColon, ReadsWords, ReadsWord, Tells, ahead_of};

use crate::endpoints::{Transport, transport_of};
use crate::fault::TextFault;
use crate::numbers::{hexadecimal, int, short, timeout, version};
use crate::reading::{identity_of, text_of};
use crate::words::{Token, Words};
use ice_types::{Bytes, Identity, Name};
use std::alloc::Global;

/// The word that stands next, its place and the words behind it. None where no word stands next.
#[tactic(auto, unfolding(crate::specs::Looking::word_ahead))]
pub fn word_ahead<'a>(words: &Words<'a>) -> Option<(&'a [u8], u32, Words<'a>)>
    ensures { ahead_of result ≡ word_ahead words.now }
{
    let mut ahead = words.fork();
    match ahead.next() {
        (Token::Word(word), place) => Some((word, place, ahead)),
        _ => None,
    }
}

/// The bytes of a word, and its place.
#[tactic(auto, unfolding(crate::specs::Looking::word_ahead, crate::specs::Looking::place_at))]
fn take_word<'a>(words: &mut Words<'a>) -> Result<(&'a [u8], u32), TextFault>
    ensures { ReadsWord result words.new (word_at words.old) }
{
    match words.next() {
        (Token::Word(word), place) => Ok((word, place)),
        (_, place) => Err(TextFault::Broken { place }),
    }
}

/// A facet, a host or an adapter.
pub fn take_text(alloc: Global, words: &mut Words<'_>) -> Result<Name, TextFault>
    ensures { ReadsWords result words.new (word_as escapes.text_of words.old) }
{
    let (word, place) = take_word(words)?;
    text_of(alloc, word)?.ok_or(TextFault::Broken { place })
}

pub fn take_identity(alloc: Global, words: &mut Words<'_>) -> Result<Identity, TextFault>
    ensures { ReadsWords result words.new (word_as escapes.identity_of words.old) }
{
    let (word, place) = take_word(words)?;
    identity_of(alloc, word)?.ok_or(TextFault::Broken { place })
}

pub fn take_version(words: &mut Words<'_>) -> Result<(u8, u8), TextFault>
    ensures { ReadsWords result words.new (word_as spec.version words.old) }
{
    let (word, place) = take_word(words)?;
    version(word).ok_or(TextFault::Broken { place })
}

pub fn take_short(words: &mut Words<'_>) -> Result<i16, TextFault>
    ensures { ReadsWords result words.new (word_as (spec.number 16) words.old) }
{
    let (word, place) = take_word(words)?;
    short(word).ok_or(TextFault::Broken { place })
}

pub fn take_int(words: &mut Words<'_>) -> Result<i32, TextFault>
    ensures { ReadsWords result words.new (word_as (spec.number 32) words.old) }
{
    let (word, place) = take_word(words)?;
    int(word).ok_or(TextFault::Broken { place })
}

/// A time in milliseconds, or `infinite`.
pub fn take_timeout(words: &mut Words<'_>) -> Result<i32, TextFault>
    ensures { ReadsWords result words.new (word_as spec.timeout words.old) }
{
    let (word, place) = take_word(words)?;
    timeout(word).ok_or(TextFault::Broken { place })
}

pub fn take_bytes(alloc: Global, words: &mut Words<'_>) -> Result<Bytes, TextFault>
    ensures { ReadsWords result words.new (word_as spec.hexadecimal words.old) }
{
    let (word, place) = take_word(words)?;
    hexadecimal(alloc, word)?.ok_or(TextFault::Broken { place })
}

/// This very word.
pub fn take_exactly(known: &[u8], words: &mut Words<'_>) -> Result<(), TextFault>
    ensures { ReadsWords result words.new (grammar.exactly known.now words.old) }
{
    let (word, place) = take_word(words)?;
    if word == known {
        Ok(())
    } else {
        Err(TextFault::Broken { place })
    }
}

/// The name of a transport.
pub fn take_transport(words: &mut Words<'_>) -> Result<Transport, TextFault>
    ensures { ReadsWords result words.new (word_as (listed grammar.transports) words.old) }
{
    let (word, place) = take_word(words)?;
    transport_of(word).ok_or(TextFault::Broken { place })
}

/// The place of what stands next, which is not taken.
#[tactic(auto, unfolding(crate::specs::Looking::place_at))]
pub fn place_of(words: &Words<'_>) -> u32
    ensures { result ≡ place_at words.now }
{
    words.fork().next().1
}

/// The words behind an `@` that stands next. None where none does.
#[tactic(auto, unfolding(crate::specs::Looking::at_ahead))]
pub fn at_ahead<'a>(words: &Words<'a>) -> Option<Words<'a>>
    ensures { result ≡ at_ahead words.now }
{
    let mut ahead = words.fork();
    match ahead.next() {
        (Token::At, _) => Some(ahead),
        _ => None,
    }
}

/// Whether a `:` stands here, which is taken. Otherwise it is the end of the text.
#[tactic(auto, unfolding(crate::specs::Looking::colon_at))]
pub fn take_colon(words: &mut Words<'_>) -> Result<bool, TextFault>
    ensures { FindsColon result words.new (colon_at words.old) }
{
    match words.next() {
        (Token::Colon, _) => Ok(true),
        (Token::End, _) => Ok(false),
        (_, place) => Err(TextFault::Broken { place }),
    }
}

/// The end of the text.
#[tactic(auto, unfolding(crate::specs::Looking::end_at))]
pub fn take_end(words: &mut Words<'_>) -> Result<(), TextFault>
    ensures { Tells result (end_at words.old) }
{
    match words.next() {
        (Token::End, _) => Ok(()),
        (_, place) => Err(TextFault::Broken { place }),
    }
}
