//! The options of an endpoint of TCP. (Ice manual, "Endpoint Syntax".)

ghost use Rattle.std.specs.Prelude.{◌≡◌};
ghost use Rattle.ice_proxy.specs.Options.{is_tcp_given, no_tcp_options, tcp_flags, with_tcp_flag};
ghost use Rattle.ice_proxy.specs.Options.{listed, option_of, options_at};
ghost use Rattle.ice_proxy.specs.Telling.{ReadsWords};

use crate::fault::TextFault;
use crate::taking::{take_int, take_text, take_timeout, word_ahead};
use crate::words::Words;
use ice_types::Name;
use std::alloc::Global;

/// The options that stand behind `tcp`.
#[derive(Drop)]
pub struct TcpOptions {
    pub host: Option<Name>,
    pub port: Option<i32>,
    pub timeout: Option<i32>,
    pub compress: bool,
}

/// Which option a word begins.
#[derive(Clone, Copy)]
pub enum TcpFlag {
    Host,
    Port,
    Timeout,
    Compress,
}

fn no_options() -> TcpOptions
    ensures { result ≡ no_tcp_options }
{
    TcpOptions {
        host: None,
        port: None,
        timeout: None,
        compress: false,
    }
}

/// Which option the word begins, None where it begins none.
fn flag_of(word: &[u8]) -> Option<TcpFlag>
    ensures { result ≡ listed tcp_flags word.now }
{
    match word {
        [b'-', b'h'] => Some(TcpFlag::Host),
        [b'-', b'p'] => Some(TcpFlag::Port),
        [b'-', b't'] => Some(TcpFlag::Timeout),
        [b'-', b'z'] => Some(TcpFlag::Compress),
        _ => None,
    }
}

/// Whether it stands already.
fn is_given(flag: TcpFlag, options: &TcpOptions) -> bool
    ensures { result ≡ is_tcp_given flag options.now }
{
    match flag {
        TcpFlag::Host => options.host.is_some(),
        TcpFlag::Port => options.port.is_some(),
        TcpFlag::Timeout => options.timeout.is_some(),
        TcpFlag::Compress => options.compress,
    }
}

/// The options with this one, whose word is taken where it has one.
fn with_flag(
    alloc: Global,
    flag: TcpFlag,
    options: TcpOptions,
    words: &mut Words<'_>,
) -> Result<TcpOptions, TextFault>
    ensures { ReadsWords result words.new (with_tcp_flag flag options words.old) }
{
    let mut options = options;
    match flag {
        TcpFlag::Host => options.host = Some(take_text(alloc, words)?),
        TcpFlag::Port => options.port = Some(take_int(words)?),
        TcpFlag::Timeout => options.timeout = Some(take_timeout(words)?),
        TcpFlag::Compress => options.compress = true,
    }
    Ok(options)
}

/// The options with the one that the word at this place begins. One that stands already is refused.
fn take_option(
    alloc: Global,
    word: &[u8],
    place: u32,
    options: TcpOptions,
    words: &mut Words<'_>,
) -> Result<TcpOptions, TextFault>
    ensures { ReadsWords result words.new
        (option_of tcp_flags is_tcp_given with_tcp_flag (listed tcp_flags word.now) place options words.old) }
{
    match flag_of(word) {
        Some(flag) if !is_given(flag, &options) => with_flag(alloc, flag, options, words),
        _ => Err(TextFault::Broken { place }),
    }
}

/// As many options as stand here.
pub fn take_tcp_options(alloc: Global, words: &mut Words<'_>) -> Result<TcpOptions, TextFault>
    ensures { ReadsWords result words.new (options_at tcp_flags is_tcp_given with_tcp_flag no_tcp_options words.old) }
{
    let mut options = no_options();
    while let Some((word, place, ahead)) = word_ahead(words) {
        *words = ahead;
        options = take_option(alloc, word, place, options, words)?;
    }
    Ok(options)
}
