//! A gateway: it takes calls over connections, forwards them to servers, each once, and answers what came of them.
//!
//! - `gate_connection` serves one connection, `gate_all` the connections of a listener, one after the other.
//! - A `Gateway` says by which schema bodies are read, which interface is called, and where the servers are.
//!
//! Forms, and why they are so:
//!
//! - Bodies are read and written anew, so that what is forwarded is canonical, in sliced format. What comes of a call
//!   before anything is connected is a function of the call (`admitted`), and so is the answer of what came back
//!   (`given_back`); the answer of a request is a table over both (`Mapped`).
//! - What is forwarded is told by messages (`forwarded`) and by the attempts at each (`ClientDid`), which the net tells
//!   in their order (`Ran`): one list for each message that was forwarded.
//! - A call is copied with its new body, since a message is lent to what handles it.
//! - A request with id 0, and a batch, is dropped where it is refused: nobody waits for an answer.
//! - Want of memory ends the session. The message at which it came is told as not handled, with the attempts at it.
#![tactic(auto)]

mod admitting;
mod copies;
mod forwarding;
mod gateway;
mod laws;
mod mapping;
mod refusing;
mod renewing;
mod serving;
mod session;

pub use gateway::Gateway;
pub use laws::{forwards_once, successes_come_back};
pub use serving::{Gated, gate_all};
pub use session::gate_connection;
