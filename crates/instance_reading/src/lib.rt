//! Graphs of class instances, and user exceptions: read from an encapsulation with the first fault, over an
//! explicit stack of instances that have begun.
//!
//! Forms, and why they are so:
//!
//! - The stack has instances and not values: a sized slice's members refer to its table alone, so no instance
//!   begins in them. Reading pauses in the tables, in the members of a slice without a size (in a `Box`, so that
//!   sliced format takes no room for them), and in the members of the content.
//! - Type ids that stood as texts are lent from the bytes, and found by their index. So is what is kept of a
//!   slice, until its table is read: then type id and bytes are copied, once.
//! - What the next slice follows is told when a slice begins (`next`), None behind the last: so a slice of a
//!   known class, one without a size and one that is kept end alike.
//! - An exception is read by the same code as an instance, which is told what the slices are of (`SlicedType`):
//!   that finds their rows, and flags, type ids and the test of the last slice have a function for each. Values
//!   go by the schema's own tables, since no type says which classes there are (`read_same`).
//! - An instance is read whole where it begins in the members of a content or in the slices of an exception
//!   (`read_instance`): a stack stands only while one is read, and both readers are a loop of a few lines.
//! - An instance in which another one begins waits for it in little memory (`Waiting`). Where the other one is the
//!   last member of the last slice, in compact format, nothing is left but its end: its slices wait, and no reader.
//!   Where members or slices are left, these wait in a box.
//! - An instance with a single slice takes room for one: a list that grows takes room for four at first, which a
//!   chain of 100,000 instances of nine bytes would pay for with 35 MiB.
#![tactic(auto)]

mod decoder;
mod exception;
mod nesting;
mod reopening;
mod sized;
mod slice;
mod unfinished;
mod waiting;

pub use decoder::{Content, read_content};
pub use exception::{UserExceptionContent, read_user_exception};
pub use reopening::reopen;
