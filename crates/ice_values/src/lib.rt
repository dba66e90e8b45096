//! Values by their type, and the members of a shape, required and optional ones: read with the first
//! fault, in pieces. At a reference that begins a class instance the work pauses, and goes on once the
//! caller has dealt with the instance. (Ice manual, "Data Encoding for Class and Exception Types" and
//! "Data Encoding for Optional Values".)
//!
//! Forms, and why they are so:
//!
//! - Pairs are read into a list while their keys rise, each key compared with the one before it; at the first
//!   that does not rise, over to std's `BTreeMap`. There a key is looked up once it is read, so that an equal
//!   one has its fault before its value is read, and once more when the pair is put.
//! - A text in a key is copied once, when it is read: keys that lend their text from the input stopped being
//!   possible with structs as keys.
//! - No room is made for a size that merely claims many: lists begin empty and grow as their items are read. No
//!   clause says it, since a reader wants memory for its stack before that; cases with little memory show it.
//! - Reading is an object that pauses (`ValueReader`, `MembersReader`), over a stack of values that have begun:
//!   instances stand inside values, up to 100,000 in one another. The calls in one piece (`read_value`,
//!   `read_members`) are these at a port at which nothing begins.
//! - That reading ends is told by how many instances may still begin (`room`), which falls at each pause, and
//!   between two pauses by how much is left to do (`cost`).
//! - A refusal leaves reader and port anywhere on the way, and in pieces the cursor too, since those who use
//!   pieces drop all of it after a refusal. The calls in one piece put the cursor back.
//! - Room for the members of a struct is made when it begins, for as many as it declares: the schema says how
//!   many, and not the input. In a list that grows, a struct of one member takes room for four, and a value of
//!   many such structs two or three times as much memory as it has to. The required members of a slice have room
//!   for as many as it declares where these are fewer than four, optional ones among them: an instance of one
//!   member may have three bytes.
//! - `MembersReader::ended` tells, where an instance begins at the last member, that nothing is left to read. So
//!   who reads a chain need not keep a reader for each of its instances.
#![tactic(auto)]

mod begun;
mod byte_sequence;
mod entering;
mod frame;
mod laws;
mod leaf;
mod left;
mod members_reader;
mod options;
mod reader;
mod required;
mod sorted;
mod value;

pub use laws::read_by_number;
pub use members_reader::{MembersReader, read_members};
pub use reader::ValueReader;
pub use value::read_value;
