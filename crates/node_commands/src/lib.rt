//! What the program does for the words of the command line: which command they ask for, which type a word
//! names, what each command finds and writes, or why it does not, and the status and the line of each answer.
//! And what `call`, `serve` and `gate`, which stand above, share: how connections end that were served or
//! forwarded, the lines on the standard output, the interface that a word names, and limits of their words.
//!
//! Forms, and why they are so:
//!
//! - Status 5 after a failed read of the input says that FILE means a schema in which TYPE is named. It cannot
//!   say that bytes were asked for: a read of none that fails at that place is as good a cause.
//! - Each fault of a part becomes its outcome by `?` (`impl From<..> for Outcome`, whose `from_gives` names the
//!   outcome). `?` has its proof in each of `relay`, `load_schema` and `canonical_of`. What the first failing
//!   step comes to is an answer's cause whatever comes after it: `FindsSchema` is said for every TYPE, input and
//!   further count.
//! - What a command comes to is told in steps (`WithSchema`, `WithType`, `WithGraph`, `WithinLimit`), each of
//!   which decides only what those before it let through. So the order of refusals is the definition itself, a
//!   command is a line of steps, and that at most one answer is decided is one lemma a step, whatever command
//!   uses it.
//! - The line on the sink of errors is written in at most seven pieces: constants, the word, or a fault's file,
//!   place and kind. The digits of a place stand in a buffer on the stack (`itoa`), so that no memory is wanted
//!   for it.
//! - Most commands find what is to be written, or an outcome, and it is written then. `relay`, `same`, `encode`,
//!   `audit` and `compat` find bytes, bytes that say no, or a verdict (`Found`). `messages` and `dump` write while
//!   they go on, so memory may run out behind what is written already.
//! - FILE and TYPE are dealt with once, in `run_task`, and each task is said by what it does with a source and a
//!   type (`CausesTask`; of those that find something `FindsTask`).
//! - That no two forms are one is shown by a number that the words tell (how many they are, how long the first
//!   is, its second byte), so a further command is a line and not a row against each other one.
//! - `drill` takes its numbers in one form each: a sign or a zero in front is a faulty command line, so that one
//!   graph has one call.
#![tactic(auto)]

mod audit;
mod capture_text;
mod checking;
mod compat;
mod compat_text;
mod drill;
mod dump;
mod encode;
mod ending;
mod execution;
mod found;
mod help;
mod interfaces;
mod laws;
mod limits;
mod loading;
mod messages;
mod net_lines;
mod outcome;
mod output;
mod pages;
mod pieces;
mod proxy;
mod relay;
mod same;
mod type_words;
mod values;
mod words;

pub use ending::{Ending, report_ending};
pub use execution::run;
pub use found::Found;
pub use help::{HELP, VERSION};
pub use interfaces::interface_of;
pub use laws::answers_apart;
pub use limits::{MOST_CONNECTIONS, MOST_MESSAGES, MOST_PORT, MOST_RETRIES};
pub use loading::load_schema;
pub use net_lines::{end_with, tell};
pub use outcome::{Line, Outcome};
pub use output::{print, report};
pub use type_words::type_of_word;
pub use words::{Command, MOST_OF_A_WORD, Task, command_of, forms_apart, number_of};
