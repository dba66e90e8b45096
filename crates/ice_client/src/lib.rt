//! Messages sent to a server, each over a connection of its own, and tried again by the rules of retries.
//!
//! - `invoke` calls an object and reads the reply; `send` sends calls for which no reply comes.
//! - `attempt_once` makes one attempt at an `Outgoing`, for who has a new place for each.
//!
//! A client writes nothing before the server's first validate message and nothing behind its own message, reads
//! nothing while it writes, and hands each connection back. (Ice manual, "Automatic Retries" and "The Ice
//! Protocol".)
//!
//! Forms, and why they are so:
//!
//! - A message is written once, before it is tried (`Outgoing`), and each attempt lends its bytes.
//! - `invoke` answers `TooLong` as `send` does, in place of asking that the message is short enough.
//! - What went over a connection is told by a talk that the contract names, for links that tell it and for those
//!   that do not: so there is one clause for both.
#![tactic(auto)]

mod attempting;
mod invoking;
mod laws;
mod outcome;
mod outgoing;
mod phases;

pub use attempting::attempt_once;
pub use invoking::{invoke, send};
pub use laws::{one_answer, one_row};
pub use outcome::{Invoked, Once, Outcome};
pub use outgoing::Outgoing;
