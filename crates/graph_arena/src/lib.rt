//! Values of types that are known at run time alone, the order in which they stand as keys, and graphs of
//! class instances that hold them.
//!
//! Forms, and why they are so:
//!
//! - `Graph` keeps names in range and keys rising as its invariant. So the calls that follow names, list visits
//!   and rename test nothing and cannot fail but by memory, and what is written has its pairs in order. Members
//!   outside a graph keep neither; whoever fills an instance in shows both.
//! - `resolve_members` changes the references where they stand: it takes no memory and cannot fail. A copy of
//!   what an instance holds would double the memory of a large graph. The same call renames a graph by first
//!   visits (`renumbered`), with a table of the places of all names.
//! - First visits go over a stack of names, an instance's names with the first on top, and marks by place: no
//!   recursion over instances, which may be as deep as there are instances.
//! - A sequence of bytes has a form of its own, `Value::Bytes`: one block in place of a `Value` a byte, which
//!   took ten times the time and 36 bytes of memory for each. It is seen as the same tree as `Seq` of as many
//!   `Byte`, so no contract speaks of it, and both may meet. What reads bytes makes it; what reads JSON makes
//!   `Seq`.
//! - Most instances have one slice of a known class and no optional members, and there may be one for each three
//!   bytes of input. So optional members are a `ThinList` and an unknown slice stands in a box: a slice is 48 bytes.
//! - `Value` has the order of keys by hand (`impl Ord`, proved to be `tree_cmp`): a derived order is not to be
//!   had for a type that holds itself through `List`.
#![tactic(auto)]

mod compare;
mod graph;
mod instance;
mod listing;
mod names;
mod order;
mod proxy_order;
mod renumbering;
mod resolving;
mod sort;
mod thin_list;
mod value;
mod visiting;

pub use graph::{Graph, MOST_PLACES};
pub use instance::{Instance, Members, Slice, UnknownSlice, class_of};
pub use names::push_slices;
pub use order::{is_above, is_rising, is_sorted};
pub use renumbering::{index_of, resolve_slices};
pub use resolving::{resolve, resolve_members};
pub use sort::{in_order, keyed, put};
pub use thin_list::ThinList;
pub use value::Value;
