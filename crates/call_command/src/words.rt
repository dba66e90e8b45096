//! The words of `call`.

ghost use Rattle.std.specs.Prelude.{◌↔◌, IfSome, IsTrue};
ghost use Rattle.node_commands.specs.Words.{IsWord, words_of};
ghost use Rattle.call_command.specs.Words.{AsksCall, Gathers, HasOneForm, IsApart, IsNamed};
ghost use Rattle.call_command.specs.Words.{IsOption, IsWithin, Takes, given_of, seen};
ghost use Rattle.std.specs.List.{All};

use class_slices::Format;
use node_commands::{MOST_OF_A_WORD, MOST_RETRIES, number_of};

/// The most invocations of one command.
pub const MOST_TIMES: u32 = 1000;

/// The option for how often a message is tried again.
const RETRIES: &str = "--retries";

/// The option for the number of invocations.
const TIMES: &str = "--times";

/// The option for compact format.
const COMPACT: &str = "--compact";

/// The option for a locator, which finds the endpoints of a proxy that has none.
const LOCATOR: &str = "--locator";

/// `call [--retries R] [--times T] [--compact] [--locator PROXY] FILE INTERFACE PROXY OPERATION`
#[derive(Clone, Copy)]
pub struct CallCommand<'a> {
    /// How often a message is tried again, at most.
    pub retries: u32,
    /// How many invocations there are.
    pub times: u32,
    /// How the arguments are written.
    pub format: Format,
    /// The text of the locator's proxy.
    pub locator: Option<&'a str>,
    pub file: &'a str,
    pub interface: &'a str,
    pub proxy: &'a str,
    pub operation: &'a str,
}

/// The options that were given.
#[derive(Clone, Copy)]
pub struct Options<'a> {
    pub retries: Option<u32>,
    pub times: Option<u32>,
    pub compact: bool,
    pub locator: Option<&'a str>,
}

/// The call that the words ask for, None where they are no form of it.
pub fn call_of(words: &[String]) -> Option<CallCommand<'_>>
    ensures asks { AsksCall (words_of words.now) result }
    ensures within { IfSome result (λ c. IsWithin (seen c)) }
{
    let [command, words @ ..] = words else {
        return None;
    };
    if command.as_str() != "call" {
        return None;
    }
    let options = words.len().checked_sub(4)?;
    let given = options_of(
        &words[..options],
        Options {
            retries: None,
            times: None,
            compact: false,
            locator: None,
        },
    )?;
    named(given, &words[options..])
}

/// The call with these options, of the words behind them.
fn named<'a>(given: Options<'a>, words: &'a [String]) -> Option<CallCommand<'a>>
    ensures { IsNamed (given_of given.entry) (words_of words.now) result }
{
    let [file, interface, proxy, operation] = words else {
        return None;
    };
    if is_option(file.as_str()) || !are_short(words) {
        return None;
    }
    Some(CallCommand {
        retries: given.retries.unwrap_or(1),
        times: given.times.unwrap_or(1),
        format: if given.compact {
            Format::Compact
        } else {
            Format::Sliced
        },
        locator: given.locator,
        file: file.as_str(),
        interface: interface.as_str(),
        proxy: proxy.as_str(),
        operation: operation.as_str(),
    })
}

/// Whether the word is an option, which a file is not.
fn is_option(word: &str) -> bool
    ensures { IsTrue result ↔ IsOption word.now }
{
    matches!(word, RETRIES | TIMES | COMPACT | LOCATOR)
}

/// Whether each word is within the limit of words.
fn are_short(words: &[String]) -> bool
    ensures { IsTrue result ↔ All IsWord (words_of words.now) }
{
    for word in words {
        if word.len() > MOST_OF_A_WORD {
            return false;
        }
    }
    true
}

/// The options given so far, with those of the words: each at most once.
fn options_of<'a>(words: &'a [String], given: Options<'a>) -> Option<Options<'a>>
    ensures { Gathers (given_of given.entry) (words_of words.now) result }
{
    let [name, words @ ..] = words else {
        return Some(given);
    };
    if name.as_str() == COMPACT {
        if given.compact {
            return None;
        }
        return options_of(
            words,
            Options {
                compact: true,
                ..given
            },
        );
    }
    let [value, words @ ..] = words else {
        return None;
    };
    options_of(words, with_value(name.as_str(), value.as_str(), given)?)
}

/// The options with one more, which has a value.
fn with_value<'a>(name: &str, value: &'a str, given: Options<'a>) -> Option<Options<'a>>
    ensures { Takes (given_of given.entry) name.now value.now result }
{
    match name {
        RETRIES if given.retries.is_none() => Some(Options {
            retries: Some(number_of(value, 0, MOST_RETRIES)?),
            ..given
        }),
        TIMES if given.times.is_none() => Some(Options {
            times: Some(number_of(value, 1, MOST_TIMES)?),
            ..given
        }),
        LOCATOR if given.locator.is_none() && value.len() <= MOST_OF_A_WORD => Some(Options {
            locator: Some(value),
            ..given
        }),
        _ => None,
    }
}

/// No words ask for a call and for another command.
pub fn calls_apart()
    ensures { IsApart }
{}

/// Words ask for one call at most.
pub fn one_form()
    ensures { HasOneForm }
{}
