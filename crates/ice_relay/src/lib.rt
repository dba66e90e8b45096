//! A value on its way through the program: one encapsulation out of a source, and the canonical one of the
//! same value, with all class instances that it leads to; two of them, and whether they are the same; the
//! line of JSON that tells a value, and the canonical encapsulation of one that came in as text; and a graph
//! that is drawn from a number, written and relayed, with the line that tells what came of it.
//!
//! Forms, and why they are so:
//!
//! - A refusal of the input names the first fault of the whole input, although a prefix of it is read, since
//!   what is read decides the fault (`reading_decides`): four bytes do where the size that they claim is
//!   negative, too large, or at most four; else one byte more than the claim, or the end. A claim of five is
//!   read on: it is `Short` of four bytes and `BadSize` of five.
//! - What becomes of one input under a schema and a type stands here apart from commands, statuses and Slice
//!   texts.
//! - What is canonical already is not read as a graph: `relay` writes it back as it stands, and `same` compares
//!   bytes. Of a sequence whose items have parts `dump` reads one item at a time, tells it and drops it (`items`),
//!   since values take many times the memory of their bytes. Where that is not told, the way by the graph is taken,
//!   which alone says where a fault is.
//! - A value alone is a content of one member (`one_value`, its name `$value`, which no Slice name is), so an
//!   encapsulation of any type is read and written by one path, with class instances or without; and members of
//!   unknown tags may stand behind a value, as behind any members, and are passed over.
#![tactic(auto)]

mod comparing;
mod drawing;
mod drill_fault;
mod drilling;
mod dump_fault;
mod dumping;
mod encoding;
mod fault;
mod generator;
mod input;
mod items;
mod laws;
mod line;
mod node_schema;
mod page;
mod relay;
mod telling;
mod text_input;

pub use comparing::{MOST_COMPARED, are_same};
pub use drill_fault::DrillFault;
pub use drilling::{MOST_NODES, drill};
pub use dump_fault::DumpFault;
pub use dumping::dump_to;
pub use encoding::canonical_of_text;
pub use fault::RelayFault;
pub use input::{read_input, read_two, read_up_to, reading_decides, two_decided};
pub use laws::{dumped_and_encoded, noted_bytes, text_decides};
pub use relay::{canonical_of, root_of};
pub use text_input::read_text;
