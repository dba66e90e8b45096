//! What is told of an event.

use retry_core::{Attempt, ClientAction, ServerAction};
use std::fmt;

/// What was done at an event.
#[derive(Clone, Copy)]
pub enum Told {
    /// A call has begun.
    Begun {
        call: usize,
    },

    /// A connection is there.
    Connected {
        call: usize,
        connection: usize,
    },

    /// What a client does now.
    Client {
        call: usize,
        action: ClientAction,
    },

    /// An attempt has ended; what its client does now.
    Ended {
        call: usize,
        attempt: Attempt,
        action: ClientAction,
    },

    /// So many bytes have arrived at a server.
    Arrived {
        connection: usize,
        bytes: u64,
    },

    /// A request was dispatched.
    Dispatched {
        call: usize,
        connection: usize,
    },

    /// A request has no object.
    NoObject {
        call: usize,
        connection: usize,
    },

    /// What a server does now.
    Server {
        connection: usize,
        action: ServerAction,
    },
}

impl fmt::Display for Told {
    fn fmt<W: fmt::Write>(&self, f: &mut fmt::Formatter<W>) -> fmt::Result {
        match *self {
            Told::Begun { call } => write!(f, "call {call}: Connect"),
            Told::Connected { call, connection } => {
                write!(f, "call {call}: AwaitValidate on connection {connection}")
            }
            Told::Client { call, action } => write!(f, "call {call}: {action:?}"),
            Told::Ended {
                call,
                attempt,
                action,
            } => write!(f, "call {call}: the attempt ended {attempt:?}; {action:?}"),
            Told::Arrived { connection, bytes } => {
                write!(f, "connection {connection}: {bytes} bytes have arrived")
            }
            Told::Dispatched { call, connection } => {
                write!(f, "connection {connection}: Dispatch of call {call}")
            }
            Told::NoObject { call, connection } => {
                write!(f, "connection {connection}: no object for call {call}")
            }
            Told::Server { connection, action } => write!(f, "connection {connection}: {action:?}"),
        }
    }
}
