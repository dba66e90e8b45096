//! What reading, writing and checking of values share: the members of a shape as they are declared, what a
//! schema declares of a class or an exception, ids of slices, the length before an optional value, and what work
//! answers that pauses where an instance begins. `ice_values` reads values and members, `value_writing`
//! writes them. (Ice manual, "Data Encoding for Class and Exception Types" and "Data Encoding for Optional
//! Values".)
//!
//! Forms, and why they are so:
//!
//! - It holds no value and stands beside what does (`graph_arena`): so what checks values or notes them waits
//!   neither for the proof of what reads them nor for that of what writes them, and these two for none of each
//!   other.
//! - Whatever pauses answers `Paused`, and each step of it `Step`, in reading and in writing, of a value and of
//!   members. So what such a call owes to its end stands once (`specs/Pauses.antt`).
//! - A port says in one call what stands at a reference (`Met`), and the reference is given to the value around
//!   it before the instance is read. With a second call for the instance a port would have something pending
//!   between the two; so its model is the definitions' state and nothing else. It stands here, so that what
//!   remembers references does not wait for what reads values.
//! - An enumerator is looked up at the place of its number, then by halving, and in order only where numbers do
//!   not rise from one enumerator to the next: so an enum of tens of thousands wants no index beside its row.
//! - Slices of instances are of classes, and those of exceptions of exceptions: what a schema declares of either is
//!   found by one type (`SlicedType`), so that what reads, writes and checks slices is told of it and does not ask.
//! - A class hands over its members as both lists (`DeclaredMembers`): required ones are those without a tag,
//!   optional ones those with one. So nothing is sorted or copied for each slice.
#![tactic(auto)]

mod enumerator;
mod fields;
mod numbers;
mod paused;
mod port;
mod prefix;
mod slice_id;
mod sliced_type;
mod tagged;

pub use enumerator::{has_number, likely_place};
pub use fields::{DeclaredMembers, Optionals};
pub use numbers::Numbers;
pub use paused::{Paused, Step};
pub use port::{Met, RefPort};
pub use prefix::{Prefix, prefix_of};
pub use slice_id::SliceId;
pub use sliced_type::SlicedType;
pub use tagged::kind_tagged;
