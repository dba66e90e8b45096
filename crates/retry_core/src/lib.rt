//! Both ends of a call, each as a machine that is told what came and answers what to do next. They read
//! and write nothing themselves.
//!
//! - `Client` is one message, a call that asks for a reply or calls that ask for none: its attempts, one
//!   connection each, and when another may follow.
//! - `Server` is one connection: what it dispatches, replies and closes.
//!
//! A message that is not idempotent is never tried again where it was sent whole and lost, so the server may
//! have dispatched it. (Ice manual, "Automatic Retries".)
//!
//! Forms, and why they are so:
//!
//! - `Taken(n)` past the length cannot come: it has no row, and so has none one that would pass 64 bits.
//! - `Client::attempts` answers a slice and not a `List`: a `List` that is pushed to may want memory, and `step`
//!   takes none. Contracts see a list either way. `Client::new` takes one byte for each attempt, and
//!   `into_attempts` gives them away.
//! - `ServerEvent::Request` tells how many calls the message has: a request has one, a batch any number. The
//!   server answers `Dispatch` for one after the other, and the reply is sent behind the last.
//! - `accepts` stands beside `step` on both ends, so that a caller that cannot know can ask.
#![tactic(auto)]

mod attempt;
mod client;
mod client_table;
mod laws;
mod server;

pub use attempt::Attempt;
pub use client::Client;
pub use client_table::{ClientAction, ClientEvent};
pub use laws::{client_keeps_to_its_retries, server_closes_last};
pub use server::{Server, ServerAction, ServerEvent};
