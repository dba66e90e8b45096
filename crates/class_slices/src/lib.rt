//! Graphs of class instances, and user exceptions, in encapsulations: read whole, in either format, with
//! the first fault, and written in their canonical bytes. (Ice manual, "Data Encoding for Class and
//! Exception Types", "User Exceptions".)
//!
//! Forms, and why they are so:
//!
//! - `encode` tests a graph, `encode_typed` asks for one of the type. What was read is of its type, so `relay`
//!   uses the second, and nothing is looked at twice.
//! - `encode` takes the graph and gives it back to nobody: its instances are named anew without copying what
//!   they hold. What the roots do not lead to is left out.
//! - A longer answer than the limit is told by its length, so it is written before it is refused. The limit is a
//!   parameter: it is the caller who knows what an encapsulation may have.
#![tactic(auto)]

mod enclosing;
mod encode_fault;
mod encoding;
mod exception_reading;
mod exception_unknown;
mod exception_writing;
mod naming;
mod reading;
mod unknown;
mod user_exception;
mod user_exception_fault;
mod write_fault;
mod writing;

pub use enclosing::{begin_encaps, end_encaps, left_are_bytes};
pub use encode_fault::EncodeFault;
pub use encoding::encode;
pub use exception_reading::read_exception;
pub use exception_writing::write_exception;
pub use instance_writing::Format;
pub use reading::{decode, decode_rest, take_graph};
pub use unknown::{begins_unknown, first_unknown};
pub use user_exception::UserException;
pub use user_exception_fault::UserExceptionFault;
pub use write_fault::WriteFault;
pub use writing::encode_typed;
