//! The words of `gate`.

ghost use Rattle.std.specs.Prelude.{◌↔◌, IfSome, IsTrue};
ghost use Rattle.std.specs.List.{AllByRecursion};
ghost use Rattle.node_commands.specs.Words.{IsWord, words_of};
ghost use Rattle.node_commands.specs.Once.{Exactly};
ghost use Rattle.gate_command.specs.Words.{Gathers, GateForm, IsNamed, IsNoOther};
ghost use Rattle.gate_command.specs.Words.{IsOption, IsWithin, Takes, asked_of, no_options, seen};

use node_commands::{MOST_CONNECTIONS, MOST_OF_A_WORD, MOST_PORT, MOST_RETRIES, number_of};

/// The option for how many connections are accepted.
const CONNECTIONS: &str = "--connections";

/// The option for how often a message is tried again.
const RETRIES: &str = "--retries";

/// `gate [--connections C] [--retries R] FILE INTERFACE HOST PORT PROXY`
#[derive(Clone, Copy, PartialEq, Eq)]
pub struct GateCommand<'a> {
    /// How many connections are accepted.
    pub connections: u32,
    /// How often a message is tried again, at most.
    pub retries: u32,
    /// The Slice file, and the interface whose operations are called.
    pub file: &'a str,
    pub interface: &'a str,
    /// Where it listens, and on which port; 0 lets the net choose.
    pub host: &'a str,
    pub port: u16,
    /// The text of the proxy whose endpoints are those of the servers.
    pub proxy: &'a str,
}

/// The options that were given.
#[derive(Clone, Copy, PartialEq, Eq)]
pub struct Options {
    pub connections: Option<u32>,
    pub retries: Option<u32>,
}

/// What the words ask `gate` for, None where they are not of its form.
pub fn gate_of(words: &[String]) -> Option<GateCommand<'_>>
    ensures asks { Exactly (GateForm (words_of words.now)) (asked_of result) }
    ensures within { IfSome result (λ c. IsWithin (seen c)) }
{
    let [command, words @ ..] = words else {
        return None;
    };
    if command.as_str() != "gate" {
        return None;
    }
    let options = words.len().checked_sub(5)?;
    let none = Options {
        connections: None,
        retries: None,
    };
    let given = options_of(&words[..options], none)?;
    named(given, &words[options..])
}

/// The command with these options, of the words behind them.
fn named(given: Options, words: &[String]) -> Option<GateCommand<'_>>
    ensures { Exactly (IsNamed given (words_of words.now)) (asked_of result) }
{
    let [file, interface, host, port, proxy] = words else {
        return None;
    };
    if is_option(file.as_str()) || !are_short(words) {
        return None;
    }
    let port = number_of(port.as_str(), 0, MOST_PORT)?;
    Some(GateCommand {
        connections: given.connections.unwrap_or(MOST_CONNECTIONS),
        retries: given.retries.unwrap_or(1),
        file: file.as_str(),
        interface: interface.as_str(),
        host: host.as_str(),
        port: port as u16,
        proxy: proxy.as_str(),
    })
}

/// Whether the word is an option, which a file is not.
fn is_option(word: &str) -> bool
    ensures { IsTrue result ↔ IsOption word.now }
{
    matches!(word, CONNECTIONS | RETRIES)
}

/// Whether no word is longer than a word may be.
fn are_short(words: &[String]) -> bool
    ensures { IsTrue result ↔ AllByRecursion IsWord (words_of words.now) }
{
    words.iter().all(|word| word.len() <= MOST_OF_A_WORD)
}

/// The options given so far, with those of the words: each at most once.
fn options_of(words: &[String], given: Options) -> Option<Options>
    ensures { Gathers given (words_of words.now) result }
{
    let [name, words @ ..] = words else {
        return Some(given);
    };
    let [value, words @ ..] = words else {
        return None;
    };
    options_of(words, with_value(name.as_str(), value.as_str(), given)?)
}

/// The options with one more.
fn with_value(name: &str, value: &str, given: Options) -> Option<Options>
    ensures { Takes given name.now value.now result }
{
    match name {
        CONNECTIONS if given.connections.is_none() => Some(Options {
            connections: Some(number_of(value, 1, MOST_CONNECTIONS)?),
            ..given
        }),
        RETRIES if given.retries.is_none() => Some(Options {
            retries: Some(number_of(value, 0, MOST_RETRIES)?),
            ..given
        }),
        _ => None,
    }
}

/// Words of a form of `gate` are no form of another command. (Of `call` and `serve` neither, `net_forms_apart` of
/// `ice_node`.)
pub fn gate_is_no_other()
    ensures { IsNoOther }
{}
