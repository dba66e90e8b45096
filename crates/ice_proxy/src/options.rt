//! The options of a proxy. (Ice manual, "Proxy and Endpoint Syntax".)

ghost use Rattle.std.specs.Prelude.{◌≡◌};
ghost use Rattle.ice_proxy.specs.Options.{flags, is_given, listed, no_options, option_of, options_at, with_flag};
ghost use Rattle.ice_proxy.specs.Telling.{ReadsWords};

use crate::fault::TextFault;
use crate::taking::{take_text, take_version, word_ahead};
use crate::words::Words;
use ice_types::Name;
use std::alloc::Global;

/// The options that stand in a text.
#[derive(Drop)]
pub struct Options {
    pub facet: Option<Name>,
    pub mode: Option<u8>,
    pub secure: bool,
    pub protocol: Option<(u8, u8)>,
    pub encoding: Option<(u8, u8)>,
}

/// Which option a word begins.
#[derive(Clone, Copy)]
pub enum Flag {
    Facet,
    /// An option of its own for each mode.
    Mode(u8),
    Secure,
    Protocol,
    Encoding,
}

fn no_options() -> Options
    ensures { result ≡ no_options }
{
    Options {
        facet: None,
        mode: None,
        secure: false,
        protocol: None,
        encoding: None,
    }
}

/// Which option the word begins, None where it begins none.
fn flag_of(word: &[u8]) -> Option<Flag>
    ensures { result ≡ listed flags word.now }
{
    match word {
        [b'-', b'f'] => Some(Flag::Facet),
        [b'-', b't'] => Some(Flag::Mode(0)),
        [b'-', b'o'] => Some(Flag::Mode(1)),
        [b'-', b'O'] => Some(Flag::Mode(2)),
        [b'-', b'd'] => Some(Flag::Mode(3)),
        [b'-', b'D'] => Some(Flag::Mode(4)),
        [b'-', b's'] => Some(Flag::Secure),
        [b'-', b'p'] => Some(Flag::Protocol),
        [b'-', b'e'] => Some(Flag::Encoding),
        _ => None,
    }
}

/// Whether it stands already. Of the modes one alone may stand.
fn is_given(flag: Flag, options: &Options) -> bool
    ensures { result ≡ is_given flag options.now }
{
    match flag {
        Flag::Facet => options.facet.is_some(),
        Flag::Mode(_) => options.mode.is_some(),
        Flag::Secure => options.secure,
        Flag::Protocol => options.protocol.is_some(),
        Flag::Encoding => options.encoding.is_some(),
    }
}

/// The options with this one, whose word is taken where it has one.
fn with_flag(
    alloc: Global,
    flag: Flag,
    options: Options,
    words: &mut Words<'_>,
) -> Result<Options, TextFault>
    ensures { ReadsWords result words.new (with_flag flag options words.old) }
{
    let mut options = options;
    match flag {
        Flag::Facet => options.facet = Some(take_text(alloc, words)?),
        Flag::Mode(mode) => options.mode = Some(mode),
        Flag::Secure => options.secure = true,
        Flag::Protocol => options.protocol = Some(take_version(words)?),
        Flag::Encoding => options.encoding = Some(take_version(words)?),
    }
    Ok(options)
}

/// The options with the one that the word at this place begins. One that stands already is refused.
fn take_option(
    alloc: Global,
    word: &[u8],
    place: u32,
    options: Options,
    words: &mut Words<'_>,
) -> Result<Options, TextFault>
    ensures { ReadsWords result words.new
        (option_of flags is_given with_flag (listed flags word.now) place options words.old) }
{
    match flag_of(word) {
        Some(flag) if !is_given(flag, &options) => with_flag(alloc, flag, options, words),
        _ => Err(TextFault::Broken { place }),
    }
}

/// As many options as stand here.
pub fn take_options(alloc: Global, words: &mut Words<'_>) -> Result<Options, TextFault>
    ensures { ReadsWords result words.new (options_at flags is_given with_flag no_options words.old) }
{
    let mut options = no_options();
    while let Some((word, place, ahead)) = word_ahead(words) {
        *words = ahead;
        options = take_option(alloc, word, place, options, words)?;
    }
    Ok(options)
}
