//! Messages of protocol 1.0 as bytes, both ways and in any pieces.
//!
//! Forms, and why they are so:
//!
//! - The two version bytes of a header are one part, and each byte of `IceP` is one; a message that is cut
//!   inside its header is `Short` at the part that is cut. A reader of pieces takes bytes of a header that are
//!   not there yet as good, so a fault is answered as soon as its byte is there.
//! - A facet that is spelled as one empty text is the default facet, which is written as no text.
//! - A length that 64 bits cannot hold is told as the greatest number that they can (`TooLong`).
//! - A body is a whole encapsulation, from its size on, whatever its version and content. One that is longer than a
//!   message may be can be asked to be written, so that `TooLong` is an answer and no caller has to test.
//! - The first fault stands twice: as what reading answers (`next_at`, `whole_message_at`), and by relations in the
//!   words of the kinds (`MessageBreaks` and `InputBreaks` in `specs/`). The laws `first_faults` and `input_faults`
//!   say that the two are one.
#![tactic(auto)]

mod ends;
mod fault;
mod frames;
mod laws;
mod lengths;
mod message;
mod next;
mod read_call;
mod read_context;
mod reading;
mod writing;

pub use ends::{MOST_MESSAGES, client_fault, is_clients, is_servers, server_fault};
pub use fault::{FeedFault, WriteFault};
pub use frames::Frames;
pub use laws::{
    cut_message, first_faults, first_messages, fronts_wait, input_faults, messages_apart,
    messages_exact, messages_written, one_stream, orderly_written, pieces_read,
};
pub use lengths::{batch_length, reply_length, request_length};
pub use message::{Answer, Call, Message};
pub use reading::read_message;
pub use writing::{write_batch, write_message, write_reply, write_request};
