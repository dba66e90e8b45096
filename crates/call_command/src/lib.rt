//! `call`: an operation of an object is called with arguments in JSON, and its results come in JSON; or calls are
//! sent for which no reply comes.
//!
//! Forms, and why they are so:
//!
//! - What is decided before anything is connected is a chain of steps (`specs/Decided.antt`): each says which end it
//!   decides, or goes on by what it found. A function has the steps that are left, so that a refusal in it is a refusal
//!   of the whole, and the order of refusals stands in one place.
//! - What is decided is a plan: the message, how often it goes out, and what its answer is read by. Nothing behind it
//!   knows words, files or JSON of arguments.
//! - The form of the words is told without memory. The proxy's text needs some, so its mode is no part of the form.
//! - The length of a batch is told by a product, so a batch that is too long is never made.
#![tactic(auto)]

mod arguments;
mod callee;
mod calling;
mod ending;
mod known;
mod laws;
mod messages;
mod performing;
mod preparing;
mod stop;
mod telling;
mod words;

pub use arguments::MOST_OF_ARGUMENTS;
pub use calling::call;
pub use ending::Ending;
pub use laws::{decided_once, ends_as_decided, stops_for_cause};
pub use stop::{Reason, Stop};
pub use words::{CallCommand, MOST_TIMES, call_of, calls_apart, one_form};
