//! What the messages of a connection say.

use ice_types::{Bytes, Identity, List, Name};

/// How many bytes a message has at least: those of its header.
pub const HEADER_BYTES: usize = 14;

/// An operation of an object, called with arguments. (Ice manual, "Request Message".)
#[derive(Drop)]
pub struct Call {
    pub identity: Identity,
    /// Empty for the default facet.
    pub facet: Name,
    pub operation: Name,
    /// 0 normal, 1 nonmutating, 2 idempotent.
    pub mode: u8,
    /// Names with their values, in rising order of the names.
    pub context: List<(Name, Name)>,
    /// The encapsulation of the arguments, from its size on.
    pub body: Bytes,
}

/// What a call came to. (Ice manual, "Reply Message".)
#[derive(Drop)]
pub enum Answer {
    /// The encapsulation of the results.
    Done(Bytes),
    /// The encapsulation of a user exception.
    Raised(Bytes),
    /// The object, the facet or the operation does not exist: status 2, 3 or 4.
    Missing {
        status: u8,
        identity: Identity,
        facet: Name,
        operation: Name,
    },
    /// An unknown local exception, user exception or other one, as its text: status 5, 6 or 7.
    Unknown {
        status: u8,
        text: Name,
    },
}

/// A message of protocol 1.0. (Ice manual, "Protocol Messages".)
#[derive(Drop)]
pub enum Message {
    /// A call that wants the reply with this id, or with 0 none.
    Request { id: i32, call: Call },
    /// Calls that want no reply.
    Batch { calls: List<Call> },
    /// The answer to the request with this id.
    Reply { id: i32, answer: Answer },
    /// The server is ready, or either end is still there.
    Validate,
    /// The end that sends it takes no more requests.
    Close,
}
