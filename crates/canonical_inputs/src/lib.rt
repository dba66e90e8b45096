//! Whether an input is the canonical encapsulation already of the graph that it holds. Then relaying leaves it as it
//! is, and comparing it with another such input is comparing bytes. A value without instances is passed over by
//! `canonical_values`; a reference to an instance here, with all instances that begin in it: one pass over the bytes
//! goes by the classes of the slices and builds no graph.
//!
//! Forms, and why they are so:
//!
//! - Of what is written for some graph it is a law that it is read as that graph but for names, and that the same
//!   graphs have the same bytes. So no code here reads, and no contract of `canonical_values` speaks of reading.
//! - A value without instances is the graph whose only member it is; its bytes are those of the value by itself.
//! - A reference to an instance is passed over with all instances that begin in it, by `is_canonical_instance`.
//! - The member may have any name: bytes tell none.
//! - Of a stretch of bytes it is said which instances begin in it, by number, each whole, and how the pen stands
//!   before and behind it. No graph is spoken of: whichever graph has these instances is written so, and a visit
//!   comes to them in the order of their numbers.
//! - The answer `false` says nothing, and may come at any time: where memory runs out, at a slice that is not known,
//!   at an optional member, at a part that is not told. Only `true` is a promise.
//! - The walk keeps a stack of its own, a frame for each instance that is open, and of each instance that has begun
//!   its class. Its invariant goes backwards over bytes: if what is left of them is what the frames wait for, the
//!   whole is canonical, whichever classes the instances have that are still to begin.
//! - The names in a table have to rise. Others may be canonical too, but to tell that none comes twice would take
//!   memory for each.
#![tactic(auto)]

mod entry;
mod frame;
mod front;
mod head;
mod input;
mod laws;
mod length;
mod member;
mod slice;
mod walk;

pub use input::{content_of, is_canonical_input};
pub use laws::{canonical_instances_stay, canonical_references_written, canonical_slices_stay};
pub use walk::is_canonical_instance;
