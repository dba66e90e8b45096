//! Objects that many callers call at once, and connections that are served to them, one by one or many at once.
//!
//! - `Lanes` are the objects of an adapter, each behind a turnstile of its own: different objects answer at once, and
//!   each takes one call at a time. `LanePasses` are one caller's right to call them.
//! - `dispatch` has one object answer one call, in a turn of its own; a call that names no object has no turn.
//! - `serve_connection` serves one connection: it dispatches the calls of the messages that a peer sends, in order, and
//!   writes the replies.
//! - `serve_all` serves many, by workers that share one listener. Each worker takes the lock of the door, takes a link,
//!   lets go of the lock, serves the link with passes of its own, and puts it into a tray of its own; at the end the
//!   caller gathers the trays and joins the passes.
//! - `Lanes::close` gives the adapter back, with the objects as the calls left them.
//!
//! Forms, and why they are so:
//!
//! - What callers did is told by how their passes grew (`Grew`): by a list of turns, in order. Two such facts are one
//!   by appending the lists, so that no state between two calls has to be named.
//! - All that is asked of passes is `AreOf`. That own tickets are of entries that were seen, each once, follows from
//!   what each pass and each turnstile keep, and is told there.
//! - `Lanes::split` takes its memory before it cuts a share, so that nothing of a share is lost where memory lacks, and
//!   passes with the whole share always close.
//! - A turnstile's object is a servant with its allocator: a turn has none to give.
//! - What a session said is told by messages (`IsSaid`, `IsBegun`), and what it was sent by messages and the bytes
//!   behind them (`Stream`): an end, a failed link and want of memory differ in what may lack at the end of each.
//! - A session makes the steps of `retry_core::Server`, and nothing else. It lends a message to what handles it, since
//!   a value that is taken apart by a `match` and dropped in it is not covered yet.
//! - That a reply can be written of an answer is part of a turn (`Answers`): the definition of an object's answer alone
//!   cannot say it, since it speaks of what a store keeps and not of how that is bounded.
//! - What stood at the beginning (what the listener told, its counts, the caller's passes) has a name inside the crate
//!   (`Opening`, a type parameter with ghost members), and every fact says how things stand to it. So one predicate
//!   (`HasServed`) is what a worker meets when it begins, after each link, and at its end, and it is the promise that
//!   a worker's thread hands on.
//! - Two ledgers tie what lies under the lock to the threads: the caller keeps the whole share of the number asked
//!   for, and each thread a share of the number accepted, which is the number of links in its tray.
//! - A link is taken from the door in a `let`: inside a `match` the lock would be held while the link is served.
//! - Where no cause has ended the accepting and memory did not lack, the caller goes on by itself, so that accepting
//!   never ends without a cause.
#![tactic(auto)]

mod dispatching;
mod door;
mod ending;
mod gate;
mod handling;
mod lanes;
mod object;
mod opening;
mod saying;
mod serving;
mod session;
mod worker;

pub use dispatching::dispatch;
pub use gate::{Gate, OpenGate};
pub use lanes::{LanePasses, Lanes, Unclosed, cross_threads};
pub use serving::{Served, serve_all};
pub use session::serve_connection;
pub use talking::End;
