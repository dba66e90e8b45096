//! Values, and the members of a shape, required and optional ones: written in pieces. At a reference that
//! begins a class instance the work pauses, and goes on once the caller has dealt with the instance. And dictionaries
//! put into the order in which they are written. (Ice manual, "Data Encoding for Class and Exception Types" and "Data
//! Encoding for Optional Values".)
//!
//! Forms, and why they are so:
//!
//! - Writing is an object that pauses (`ValueWriter`, `MembersWriter`), over a stack of what is left: instances
//!   stand inside values, up to 100,000 in one another. The calls in one piece (`write_value`, `write_members`)
//!   are these at a port at which nothing begins.
//! - That writing ends is told by how many instances may still begin (`room`), which falls at each pause, and
//!   between two pauses by how much is left to do (`work_left`).
//! - Out of memory leaves writer and port anywhere on the way, and in pieces the output too, since those who use
//!   pieces drop all of it then. The calls in one piece put the output back.
//! - `write_value` takes the value and a port, no schema and no type: a value carries its own form, and its
//!   bytes depend on nothing else. Its condition is that its sizes are at most the greatest int. It appends to a
//!   bare `Vec<u8>`, as the putting calls do; the allocator is for its stack.
//! - A length before an optional value is put once the value is written. An int has four bytes whatever its
//!   number: they are held, and patched. A size has one or five: it is appended and turned to its place
//!   (`rotate_right`). The values behind a size hold no references, so no instance is written while one waits.
//! - A value behind a length of more than 2,147,483,647 bytes is answered as out of memory: no length can tell
//!   it, and no encapsulation has room for it. A fault of its own would be one that no input can bring about.
//! - A tag that no member has writes nothing. So the call asks for no more than sizes and tags, and need not be
//!   told that the members are of the shape.
//! - `sort_pairs` asks nothing of its value: keys that hold dictionaries are sorted too, and two keys are equal
//!   where they are so once sorted. That this is "two pairs of one dictionary have the same key" is a law for
//!   values whose keys hold no dictionary out of order (`equal_keys_repeat`).
//! - `sort_pairs` copies a value that is not in order, and puts the copy in its place at the end: a refusal or
//!   out of memory then leaves the value as it was. A value in order is left alone.
#![tactic(auto)]

mod byte_sequence;
mod ending;
mod laws;
mod leaf;
mod length_place;
mod members_writer;
mod numbers;
mod proxy_copy;
mod put_port;
mod sort;
mod value;
mod writer;

pub use ending::Ending;
pub use laws::{equal_keys_repeat, sorting_keeps_the_value, written_by_number};
pub use members_writer::{MembersWriter, write_members};
pub use put_port::PutPort;
pub use sort::sort_pairs;
pub use value::write_value;
pub use writer::ValueWriter;
