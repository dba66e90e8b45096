//! The command line.

ghost use Rattle.std.specs.Prelude.{◌≡◌, ◌≢◌, List, MatchOption, [], ◌∷◌, codes};
ghost use Rattle.node_commands.specs.declared.words.Page.{Page};
ghost use Rattle.node_commands.specs.Words.{Word, Command as Asked, Form, Asks, SpellsWithin};
ghost use Rattle.node_commands.specs.Words.{asked_of, page_words, words_of};

use class_slices::Format;
use ice_relay::MOST_NODES;
use itoa::Buffer;

/// The most bytes of a word that is a file, the type or the text of a listed form.
pub const MOST_OF_A_WORD: usize = 8192;

/// The greatest number that a drill starts from.
pub(crate) const MOST_OF_A_START: u32 = 2_147_483_647;

/// The word that asks for help, alone or behind a command.
const HELP_WORD: &str = "--help";

/// The option for compact format.
const COMPACT: &str = "--compact";

/// What is done with values that are read.
#[derive(Clone, Copy)]
pub enum Task {
    /// To relay one, in the format.
    Relay(Format),
    /// To tell whether two are the same.
    Same,
    /// To tell one in JSON.
    Dump,
    /// To write one that is told in JSON, in the format.
    Encode(Format),
}

/// A page of help: on all commands, or on one.
#[derive(Clone, Copy)]
pub enum Page {
    All,
    Relay,
    Same,
    Dump,
    Encode,
    Check,
    Proxy,
    Call,
    Serve,
    Gate,
    Messages,
    Audit,
    Compat,
    Drill,
}

/// What the words ask the program to do.
#[derive(Clone, Copy)]
pub enum Command<'a> {
    /// To do a task with values of the type `kind`, which the Slice file defines.
    Values {
        task: Task,
        file: &'a str,
        kind: &'a str,
    },
    /// To check the Slice file and all that it includes.
    Check {
        file: &'a str,
    },
    /// To print the proxy that the text stands for, and its bytes.
    Proxy {
        text: &'a str,
    },
    /// To tell how often each call of a connection was dispatched, by the files of what the client and the server sent.
    Audit {
        client: &'a str,
        server: &'a str,
    },
    /// To tell whether what was spelled of the type under the old Slice file can be read under the new one.
    Compat {
        old: &'a str,
        new: &'a str,
        kind: &'a str,
    },
    /// To relay a graph of so many nodes that is drawn from the number.
    Drill {
        start: u32,
        count: u32,
    },
    /// To tell the messages of the input.
    Messages,
    /// To print how the program is called, or what a command does.
    Help {
        page: Page,
    },
    /// To print the program's version.
    Version,
}

/// The command that the words ask for, None where they are no listed form.
pub fn command_of(words: &[String]) -> Option<Command<'_>>
    ensures { Asks (words_of words.now) (asked_of result) }
{
    match words {
        [word] => of_one_word(word.as_str()),
        [command, word] => of_two_words(command.as_str(), word.as_str()),
        [command, one, two] => of_three_words(command.as_str(), one.as_str(), two.as_str()),
        [first, second, third, fourth] => of_four_words(
            first.as_str(),
            second.as_str(),
            third.as_str(),
            fourth.as_str(),
        ),
        _ => None,
    }
}

fn of_one_word(word: &str) -> Option<Command<'_>>
    ensures { Asks (word.now ∷ []) (asked_of result) }
{
    match word {
        "messages" => Some(Command::Messages),
        HELP_WORD => Some(Command::Help { page: Page::All }),
        "--version" => Some(Command::Version),
        _ => None,
    }
}

fn of_two_words<'a>(command: &'a str, word: &'a str) -> Option<Command<'a>>
    ensures { Asks (command.now ∷ word.now ∷ []) (asked_of result) }
{
    if word.len() > MOST_OF_A_WORD {
        return None;
    }
    if word == HELP_WORD {
        let page = page_of(command)?;
        return Some(Command::Help { page });
    }
    match command {
        "check" => Some(Command::Check { file: word }),
        "proxy" => Some(Command::Proxy { text: word }),
        _ => None,
    }
}

/// The page on a command.
fn page_of(command: &str) -> Option<Page>
    ensures { MatchOption result ((page : Page) → command.now ∷ codes "--help" ∷ [] ≡ page_words page → ⊥)
        (λ page. command.now ∷ codes "--help" ∷ [] ≡ page_words page) }
{
    match command {
        "relay" => Some(Page::Relay),
        "same" => Some(Page::Same),
        "dump" => Some(Page::Dump),
        "encode" => Some(Page::Encode),
        "check" => Some(Page::Check),
        "proxy" => Some(Page::Proxy),
        "call" => Some(Page::Call),
        "serve" => Some(Page::Serve),
        "gate" => Some(Page::Gate),
        "messages" => Some(Page::Messages),
        "audit" => Some(Page::Audit),
        "compat" => Some(Page::Compat),
        "drill" => Some(Page::Drill),
        _ => None,
    }
}

fn of_three_words<'a>(command: &'a str, one: &'a str, two: &'a str) -> Option<Command<'a>>
    ensures { Asks (command.now ∷ one.now ∷ two.now ∷ []) (asked_of result) }
{
    match command {
        "drill" => drill_of(one, two),
        "audit" => audit_of(one, two),
        _ => task_of_three(command, one, two),
    }
}

/// The drill from the number that the one word spells, of as many nodes as the other spells.
fn drill_of<'a>(start: &str, count: &str) -> Option<Command<'a>>
    ensures { Asks (codes "drill" ∷ start.now ∷ count.now ∷ []) (asked_of result) }
{
    let start = number_of(start, 0, MOST_OF_A_START)?;
    let count = number_of(count, 1, MOST_NODES)?;
    Some(Command::Drill { start, count })
}

/// The audit of what the files have that the client and the server sent.
fn audit_of<'a>(client: &'a str, server: &'a str) -> Option<Command<'a>>
    ensures { Asks (codes "audit" ∷ client.now ∷ server.now ∷ []) (asked_of result) }
{
    if client.len() > MOST_OF_A_WORD || server.len() > MOST_OF_A_WORD {
        return None;
    }
    Some(Command::Audit { client, server })
}

/// The number from the least to the most that the word spells in decimal digits, without a sign or a leading zero;
/// None where it spells none.
pub fn number_of(word: &str, least: u32, most: u32) -> Option<u32>
    ensures { SpellsWithin word.now least most result }
{
    let number = word.parse::<u32>().ok()?;
    let mut digits = Buffer::new();
    if digits.format(number) == word && least <= number && number <= most {
        return Some(number);
    }
    None
}

/// Of a task of one word.
fn task_of_three<'a>(word: &'a str, file: &'a str, kind: &'a str) -> Option<Command<'a>>
    requires drill { word.now ≢ codes "drill" }
    requires audit { word.now ≢ codes "audit" }
    ensures { Asks (word.now ∷ file.now ∷ kind.now ∷ []) (asked_of result) }
{
    if file.len() > MOST_OF_A_WORD || kind.len() > MOST_OF_A_WORD {
        return None;
    }
    let task = match word {
        "relay" if file != COMPACT => Task::Relay(Format::Sliced),
        "same" => Task::Same,
        "dump" => Task::Dump,
        "encode" if file != COMPACT => Task::Encode(Format::Sliced),
        _ => return None,
    };
    Some(Command::Values { task, file, kind })
}

fn of_four_words<'a>(
    command: &'a str,
    one: &'a str,
    two: &'a str,
    three: &'a str,
) -> Option<Command<'a>>
    ensures { Asks (command.now ∷ one.now ∷ two.now ∷ three.now ∷ []) (asked_of result) }
{
    match command {
        "compat" => compat_of(one, two, three),
        _ => task_of_four(command, one, two, three),
    }
}

/// Whether what was spelled under the old file can be read under the new one.
fn compat_of<'a>(old: &'a str, new: &'a str, kind: &'a str) -> Option<Command<'a>>
    ensures { Asks (codes "compat" ∷ old.now ∷ new.now ∷ kind.now ∷ []) (asked_of result) }
{
    if old.len() > MOST_OF_A_WORD || new.len() > MOST_OF_A_WORD || kind.len() > MOST_OF_A_WORD {
        return None;
    }
    Some(Command::Compat { old, new, kind })
}

/// Of a task of one word and its option.
fn task_of_four<'a>(
    word: &'a str,
    option: &'a str,
    file: &'a str,
    kind: &'a str,
) -> Option<Command<'a>>
    requires { word.now ≢ codes "compat" }
    ensures { Asks (word.now ∷ option.now ∷ file.now ∷ kind.now ∷ []) (asked_of result) }
{
    if file.len() > MOST_OF_A_WORD || kind.len() > MOST_OF_A_WORD {
        return None;
    }
    if option != COMPACT || file == COMPACT {
        return None;
    }
    let task = match word {
        "relay" => Task::Relay(Format::Compact),
        "encode" => Task::Encode(Format::Compact),
        _ => return None,
    };
    Some(Command::Values { task, file, kind })
}

/// Words ask for one command at most.
pub fn forms_apart()
    ensures { (words : List Word) (a b : Asked) → Form words a → Form words b → a ≡ b }
{}
