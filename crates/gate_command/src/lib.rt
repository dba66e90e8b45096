//! The command `gate`: calls are taken over connections and forwarded, each once, to the servers of a proxy.
//!
//! `gate_of` reads the words, and `gate` does what they ask for: it loads the Slice file, finds the interface and the
//! servers' endpoints, listens, tells where, and serves connections one after the other until as many were accepted as
//! the words say or the listener has no more.
//!
//! Forms, and why they are so:
//!
//! - What is decided before the net is asked is a chain of steps (`specs/Decided.antt`), as in `call`: PROXY's text is
//!   read first, since a proxy without endpoints is in no form of `gate`, and where it breaks comes behind the names.
//! - How it ends, and what it writes, is what `serve` does: its ends, its two lines and their writing are those of
//!   `node_commands`.
//! - What became of each connection, and of each call, is told by `GateDid` of `ice_gateway`; the net tells of the
//!   connects and of the links, which came in and which went out, in their order.
#![tactic(auto)]

mod gating;
mod laws;
mod plan;
mod words;

pub use gating::gate;
pub use laws::{
    gate_ends_as_refused, gate_ends_for_cause, gate_refusals_are_single, gate_successes_arrive,
    gates_once,
};
pub use words::{GateCommand, gate_is_no_other, gate_of};
