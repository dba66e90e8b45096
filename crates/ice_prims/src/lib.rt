//! Numbers, sizes and texts of the Ice encoding 1.1: taken from bytes with the first fault, and
//! put at the end of an output.
//!
//! Forms, and why they are so:
//!
//! - `ReadFault` (a fault, or out of memory) stands here, since each reading call above it that allocates
//!   answers it.
//! - `Cursor` has `fork` and `fault` besides: a second cursor at the same place, with which a call that refuses
//!   leaves the first as it was, and the fault of the part that begins here.
//! - A cursor's methods work on a slice and then move on once. Setting a field back after a failed inner call
//!   would open the model twice.
//! - One law for seven parts (`parts_exact`), since one record (`IsExact`) says of each what ties reading,
//!   spelling and putting.
#![tactic(auto)]

mod cursor;
mod fault;
mod front;
mod laws;
mod put;

pub use cursor::Cursor;
pub use fault::{Fault, Kind, ReadFault};
pub use laws::parts_exact;
pub use put::{put_bool, put_byte, put_int, put_long, put_short, put_size, put_str};
