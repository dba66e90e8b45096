//! The words of `serve` but for what stands in its OBJECT words.

ghost use Rattle.std.specs.Prelude.{◌≡◌, ◌∷◌, ◌≤◌, ℕ, List};
ghost use Rattle.node_commands.specs.Words.{Word, words_of};
ghost use Rattle.serve_command.specs.Words.{Behind, BehindConnections, BehindServe, BehindWorkers};
ghost use Rattle.node_commands.specs.Once.{Exactly};
ghost use Rattle.serve_command.specs.Words.{Finds, PlainForm};
ghost use Rattle.serve_command.specs.Words.{plain_of};
ghost use Rattle.serve_command.specs.Reading.{FindsNumber, FindsWord};

use node_commands::{MOST_CONNECTIONS, MOST_PORT, number_of};

/// The most workers.
pub const MOST_WORKERS: u32 = 64;

/// The option for how many workers serve.
const WORKERS: &str = "--workers";

/// The option for how many connections are accepted.
const CONNECTIONS: &str = "--connections";

/// The numbers of the options, FILE, HOST and PORT, and the words behind them.
#[derive(Clone, Copy)]
pub(crate) struct Operands<'a> {
    pub(crate) workers: u32,
    pub(crate) connections: u32,
    pub(crate) file: &'a str,
    pub(crate) host: &'a str,
    pub(crate) port: u16,
    pub(crate) objects: &'a [String],
}

/// What the words of `serve` are, None where they are not of its form.
pub(crate) fn operands_of(words: &[String]) -> Option<Operands<'_>>
    ensures { Exactly (PlainForm (words_of words.now)) (plain_of result) }
{
    behind_serve(behind_word("serve", words)?)
}

/// Of the words behind `serve`.
fn behind_serve(words: &[String]) -> Option<Operands<'_>>
    ensures { Exactly (BehindServe (words_of words.now)) (plain_of result) }
{
    if let Some(rest) = behind_word(WORKERS, words) {
        return behind_workers(rest);
    }
    if let Some(rest) = behind_word(CONNECTIONS, words) {
        return behind_connections(rest);
    }
    behind_options(1, MOST_CONNECTIONS, words)
}

/// Of the words behind a first `--workers`.
fn behind_workers(words: &[String]) -> Option<Operands<'_>>
    ensures { Exactly (BehindWorkers (words_of words.now)) (plain_of result) }
{
    let (workers, rest) = number_ahead(MOST_WORKERS, words)?;
    match behind_word(CONNECTIONS, rest) {
        Some(more) => {
            let (connections, last) = number_ahead(MOST_CONNECTIONS, more)?;
            behind_options(workers, connections, last)
        }
        None => behind_options(workers, MOST_CONNECTIONS, rest),
    }
}

/// Of the words behind a first `--connections`.
fn behind_connections(words: &[String]) -> Option<Operands<'_>>
    ensures { Exactly (BehindConnections (words_of words.now)) (plain_of result) }
{
    let (connections, rest) = number_ahead(MOST_CONNECTIONS, words)?;
    match behind_word(WORKERS, rest) {
        Some(more) => {
            let (workers, last) = number_ahead(MOST_WORKERS, more)?;
            behind_options(workers, connections, last)
        }
        None => behind_options(1, connections, rest),
    }
}

/// The words behind the first, where it is this one.
fn behind_word<'a>(word: &str, words: &'a [String]) -> Option<&'a [String]>
    ensures { FindsWord word.now (words_of words.now) result }
{
    let [first, rest @ ..] = words else {
        return None;
    };
    if first.as_str() != word {
        return None;
    }
    Some(rest)
}

/// The number from 1 to the most that the first word spells, and the words behind it.
fn number_ahead(most: u32, words: &[String]) -> Option<(u32, &[String])>
    ensures { FindsNumber most (words_of words.now) result }
{
    match words {
        [first, rest @ ..] => Some((number_of(first.as_str(), 1, most)?, rest)),
        [] => None,
    }
}

/// Of the words behind all options. An option word is no FILE.
fn behind_options(workers: u32, connections: u32, words: &[String]) -> Option<Operands<'_>>
    ensures { Finds (Behind workers connections (words_of words.now)) (plain_of result) }
{
    let [file, host, port, objects @ ..] = words else {
        return None;
    };
    let file = file.as_str();
    if file == WORKERS || file == CONNECTIONS {
        return None;
    }
    let port = number_of(port.as_str(), 0, MOST_PORT)?;
    Some(Operands {
        workers,
        connections,
        file,
        host: host.as_str(),
        port: port as u16,
        objects,
    })
}
