//! What a message, or one attempt at it, came to.

use ice_messages::Answer;
use ice_prims::Fault;
use ice_types::List;
use retry_core::{Attempt, ClientAction, ClientEvent};

/// What a message came to, by its last attempt.
#[derive(Drop)]
pub enum Outcome {
    /// The reply was read.
    Replied(Answer),
    /// The message, which asks for no reply, was taken whole.
    Sent,
    /// There was no connection, or a read or a write failed.
    NetFailed,
    /// The server's stream ended before a reply.
    Ended,
    /// The server closed the connection.
    Closed,
    /// The server sent what may not come. The place counts from the first byte of that message.
    Broke(Fault),
    /// The proxy has no endpoint that can be used.
    NoEndpoint,
}

/// What a message came to, and how its attempts ended.
#[derive(Drop)]
pub struct Invoked {
    pub outcome: Outcome,
    pub attempts: List<Attempt>,
}

/// What one attempt came to, and what its client does next.
#[derive(Drop)]
pub struct Once {
    pub action: ClientAction,
    pub outcome: Outcome,
}

/// How an attempt ends: what its client is told, and what the message comes to where no attempt follows.
#[derive(Drop)]
pub struct End {
    pub event: ClientEvent,
    pub outcome: Outcome,
}
