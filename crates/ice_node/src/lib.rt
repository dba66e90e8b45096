//! The program as one call: the words of the command line, Slice files and streams in, a status out.
//!
//! Forms, and why they are so:
//!
//! - `ice_node` is the call alone, over `node_commands`, which does what the words ask for. So the laws of
//!   `graph_laws` are in reach of one function.
//! - `node` tells `call`, `gate` and `serve` from the other commands and keeps its promises (`KeepsPromises`):
//!   what these three owe is a definition each (`Called`, `Gated`, `Served`); any other command leaves the net as
//!   it was, and keeps three (`KeepsLocally`). Of these `answered` says of the answer that came all that stands
//!   with it; `exactly` says the other direction; `carried` says what `relay` in sliced format has written for
//!   those who know more classes. A clause for each status would say the same in eight places.
#![tactic(auto)]

mod laws;
mod top_call;

pub use laws::{
    called_turns_are_single, gated_successes_have_turns, gated_turns_are_single, gates_once,
    limits_numbered, net_forms_apart, once, successes_have_turns, turns_are_single,
};
pub use node_commands::{Outcome, report};
pub use top_call::node;
