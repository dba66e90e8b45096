//! The command `serve`: objects of the words of the command line, which clients call over connections.
//!
//! `serve_of` reads the words, and `serve` does what they ask for: it loads the Slice file, makes the objects, listens,
//! tells where, and serves connections by workers until as many were accepted as the words say or the listener has no
//! more.
//!
//! Forms, and why they are so:
//!
//! - The words of objects are read in three steps: which sort of object, and whether two are of one name (the form);
//!   which interfaces the schema has; what the texts of identities and proxies stand for. Each step goes over all
//!   words, so the order of refusals is the order of the steps. Texts are at most 64 and are read anew in each step,
//!   so that no step has to hand on what the next one wants.
//! - All memory that the objects take is taken before the net is asked to listen.
#![tactic(auto)]

mod adapters;
mod apart;
mod laws;
mod names;
mod object_words;
mod objects;
mod operands;
mod places;
mod serving;
mod texts;
mod words;

pub use laws::{refusals_are_single, serve_ends_as_refused, serve_ends_for_cause, serve_first};
pub use object_words::ObjectWord;
pub use serving::serve;
pub use words::{MOST_WORDS, ServeCommand, serve_is_no_other, serve_of};
