//! Slices whose class a schema lacks: what is kept of one, and what is written of it again, the same bytes.
//! (Ice manual, "Data Encoding for Class and Exception Types".)
//!
//! Forms, and why they are so:
//!
//! - An unknown slice is told by its first: unknown slices stand before known ones, so an instance has one
//!   exactly where it begins with one (`BeginsUnknown`).
//! - The bytes of an unknown slice are not looked at. They may be wrong for whoever knows the class; who reopens
//!   them is told the first fault in them.
//! - `skip_slice` gives lent bytes, and `keep` copies them, so that a slice whose table is refused costs
//!   nothing.
#![tactic(auto)]

mod laws;
mod reading;
mod writing;

pub use laws::unknown_slices_unchanged;
pub use reading::{UnknownPart, keep, skip_slice, slice_bound};
pub use writing::{put_slice_size, write_unknown};
