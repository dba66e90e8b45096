//! Slices of class instances and of user exceptions, written: the canonical bytes of a graph in either
//! format, over an explicit stack of instances that have begun.
//!
//! Forms, and why they are so:
//!
//! - An instance's place in a table is kept in a list with one entry for each instance of the graph (`Desk`),
//!   which every slice uses again and which is told apart from one slice to the next, so that no slice pays for
//!   all instances.
//! - A type id is found in an ordered map, from its text to its index: an id that stood once is an index from
//!   then on.
//! - The size of a slice is put once the slice is written, over four bytes that were held. A slice of more than
//!   2,147,483,647 bytes is answered as out of memory: no size can tell it.
//! - Both formats have one stack. What is left of an instance is a slice that has begun and those behind it: in
//!   sliced format the entries of its table, which an unknown slice lends, in compact format its members, in a
//!   box, so that chains of instances in sliced format take no room for them.
//! - An exception is written as an instance is, by the same calls, which are told of what their slices are: that
//!   decides the rows of the schema and how a type id stands. It is at the bottom of the stack, where the roots
//!   of a graph are.
//! - No more instances begin than a graph may have (100,000,000): one more is answered as out of memory. No
//!   graph asks for it, and so the calls that write members need not tell which names still stand in them.
//! - What it asks of a graph is what bytes can tell (`GraphCanBeWritten`): sizes and tags are at most the
//!   greatest int, and a tag in an instance is that of a member of its class. A graph of a type has that.
#![tactic(auto)]

mod compact;
mod encode;
mod encoder;
mod format;
mod head;
mod id_places;
mod open_slice;
mod parts;
mod pen;
mod position;
mod slice;
mod table;
mod unfinished;
mod user_exception;
mod written_id;

pub use encode::write_numbered;
pub use format::Format;
pub use user_exception::write_user_exception;
