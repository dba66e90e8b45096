//! What is said over a connection: the next message out of a link, and a message or bytes into it; and how a connection
//! that is served ends.
#![tactic(auto)]

mod end;
mod hearing;
mod saying;
mod writing;

pub use end::{End, end_behind_reply};
pub use hearing::{Heard, hear};
pub use saying::say;
pub use writing::write_bytes;
