//! What can become of calls over connections that may be lost at any moment: clients and servers as one
//! world, its events one by one, and what every list of events keeps (`laws`); and what a capture of both directions of
//! one connection tells of the calls on it: in all worlds of calls that show the capture, how often a call was
//! dispatched (`capture_laws`). The definitions stand in `specs/`; the functions here have no bodies, and each has a
//! law of the definitions as its contract.
//!
//! The bytes of a message, its numbers and the calls in it are no part of this world: a call, a reply and the objects
//! are what `Service` says of them. Of a capture they are what `Capture` says, and a client's message is one call or
//! the calls of a batch.
//!
//! Forms, and why they are so:
//!
//! - The rules of the objects are one record (`Rules`), since a clause cannot range over a type; the trait
//!   `Service` has it as its one ghost member.
//! - Deadness is shown to stay by way of a stronger fact (`IsDoomed`) that each event keeps.
//! - Invocations and connections are functions of a number, an unused connection being `fresh`: so no step has
//!   to say that the others stay.
//! - What the three laws rest on. Of the 39 guards of the events that `tests/independent/calls.py` leaves out in
//!   turn the laws rest on 13; the script names them. The other 26 keep the ends to what Ice lets them do, and
//!   no list within the search breaks a law without one of them.
#![tactic(auto)]

mod capture;
mod capture_laws;
mod laws;
mod service;
#[cfg(test)]
mod tests;

pub use capture::Capture;
pub use capture_laws::{
    answers_in_order, closed_never, each_at_most_once, every_capture_has_a_run, open_either,
    refused_never, replied_once,
};
pub use laws::{
    at_most_once, calls_can_succeed, connections_sound, dead_for_good, dispatches_logged,
    idempotent_calls_can_repeat, own_replies, seats_placed,
};
pub use service::Service;
