//! Messages as lines of text: out of a source, into a sink, each as soon as it is known.
//!
//! Forms, and why they are so:
//!
//! - `messages` has answers of its own for what comes after some lines were written (`refused_after`,
//!   `read_failed_after`, `no_memory_after`): each says what the sink got. A refusal tells the fault of the
//!   whole input, though the program has read no more than a piece behind it: a fault that is known stays,
//!   whatever follows.
//! - The bytes of a reply's body are counted as they stand, since an empty facet has two spellings: a line goes
//!   by the message and its length.
#![tactic(auto)]

mod dump;
mod laws;
mod lines;
mod telling;

pub use dump::{Dump, MOST_MESSAGES, dump_messages};
pub use laws::{dumps_all, dumps_apart, reading_decides};
pub use lines::{BEFORE_REPLY_BODY, message_line};
