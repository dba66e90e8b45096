//! The notation of values and graphs in JSON: which JSON notes a value of a type and lists a graph, the
//! value and the graph that it stands for, the canonical notation of each, and texts of graphs, written
//! and read.
//!
//! Forms, and why they are so:
//!
//! - JSON is what `serde_json` reads, so a name that comes twice counts with its last value, and `-0`, `1.0` and
//!   numbers past 64 bits are no integers.
//! - It is held as a tree of our own (`Json`), whose texts are lent from the input. `serde_json` holds each object as a
//!   map, which takes a hundred times as much as a short text. Its `read` stays the measure of what is JSON, and its
//!   `Data` what all definitions speak of.
//! - That names rise is no invariant of the tree, since a type that leads back to itself can have none. It is asked of
//!   an object once, where its members are looked into (`Found`), and then a name is found by halving; in a tree that
//!   was not read, names in any order are gone through.
//! - A struct's object has exactly the names of its members: each name is found, and there are as many names as
//!   members. The same serves the members of classes and operations, where an absent optional member has no
//!   name.
//! - A reference is told by a number alone, whatever it refers to: whether an instance has that number and its
//!   class fits is known once the whole graph is.
//! - A proxy's text is shorter than 1,073,741,824 bytes, so that its places can be told and its sizes can be
//!   written: so what is noted is a value of the type.
//! - What is not of its type is noted as null, so that `json_of` asks nothing of a value.
//! - What is listed comes before what is noted: `NotesListed` is read off JSON alone, instance by instance, and
//!   whether the graph is of the type is asked of the whole. So a graph is noted by whatever lists one that is
//!   the same.
//! - An object with fixed names has each of them, and as many names as those. So nothing is said of their order,
//!   and JSON with one name more is refused.
//! - A text lists one graph, and notes each that is the same. What `from_text` answers is the graph that is
//!   listed (`Lists`), unreached instances among it, since one answer has to be said; that the text notes it,
//!   and that a misfit notes none, are clauses beside it. `noted_bytes` says that nothing hangs on which of them
//!   is written.
//! - Why a text is refused is a sort of its own (`JsonKind`) beside want of memory, as `Kind` is beside
//!   `ReadFault`: so an answer of the program cannot say that a text is refused for want of memory.
//! - A text is written token by token, and no tree of JSON is made of a graph: what is written of the parts is said
//!   as the tokens behind those that stand there, and that they read as the part (`Prints`). The members of one
//!   object at a time stand in a map by their names, since an object is written in rising order of them.
//! - `to_text` takes the graph, as `encode_typed` does: its instances are named anew without copying what they
//!   hold. It asks nothing of the graph, since what is not of its type is noted as null.
//! - `from_text` asks that the members have names and tags of their own (`HasOwnNames`): one value has, and the
//!   schema has it of its operations and classes.
//! - The names in a text are compared with the number of instances before a `Graph` is made, since a graph holds
//!   no name out of range, even between two calls. To tell the names of the roots they stand for a moment as
//!   those of a slice.
//! - Of a graph of a type it is asked that the texts of its proxies are short, where it is to be noted. Of one that
//!   was read from bytes nothing is asked (`dumped_graphs`): what an encapsulation spells has short texts.
#![tactic(auto)]

mod content_read;
mod enum_names;
mod fault;
mod found;
mod laws;
mod leaves;
mod listing;
mod numbers;
mod parsing;
mod pieces;
mod read;
mod room;
mod rows;
mod slices;
mod sorting;
mod text;
mod tree;
mod value_laws;
mod write;
mod write_leaves;
mod writing;

pub use content_read::content_of;
pub use fault::{JsonFault, JsonKind};
pub use laws::{
    canonical_read, dumped_graphs, graphs_noted, graphs_read, listed_apart, listed_found,
    listed_only, listed_typed, notations_apart, notations_equal, noted_graphs_typed,
};
pub use leaves::name_of;
pub use pieces::{push_content, push_instance, push_item};
pub use read::value_of;
pub use text::{MOST_TEXT, from_text, to_text};
pub use tree::Json;
pub use value_laws::{
    content_apart, content_canonical, content_found, content_only, content_typed, noted_apart,
    noted_canonical, noted_found, noted_only, noted_typed,
};
