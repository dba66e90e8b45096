//! What is told of a capture.

use ice_prims::Kind;
use ice_types::List;

/// How many bytes of each end are looked at, at most.
pub const MOST_BYTES: usize = 16_777_216;

/// How often a call was dispatched, as far as a capture tells.
#[derive(Clone, Copy, PartialEq, Eq)]
pub enum Seen {
    /// Once in every run that shows the capture.
    Once,
    /// Never in any run that shows it.
    Never,
    /// Once or never. Where the request asks for a reply, there is a run of each.
    Either,
}

/// A request, or a batch that is not empty.
#[derive(Clone, Copy, PartialEq, Eq)]
pub struct Line {
    /// The request's id, which is 0 where it asks for no reply; 0 for a batch.
    pub id: i32,
    /// How many calls it is: 1 for a request.
    pub calls: u32,
    pub batch: bool,
    pub seen: Seen,
}

/// An end of a connection.
#[derive(Clone, Copy, PartialEq, Eq)]
pub enum Side {
    Client,
    Server,
}

/// Why a capture is none of a connection whose server answers in order.
#[derive(Clone, Copy, PartialEq, Eq)]
pub enum Why {
    /// What is wrong with the bytes there. `Unexpected`: a message that this end does not send. `NotValidated`: the
    /// server sent no validate message first. `UnknownId`: a reply that is not to the next request that asks for one.
    Bytes(Kind),
    /// A message that follows the close message of its end.
    AfterClose,
    /// That end sent more than 16,777,216 bytes.
    TooLong,
}

/// What a capture tells.
#[derive(Drop)]
pub enum Verdict {
    /// A line for each request and each batch that is not empty, in order.
    Yes(List<Line>),
    /// What is wrong, and how many bytes stand before it in the stream of that end.
    No { side: Side, place: u64, why: Why },
}
