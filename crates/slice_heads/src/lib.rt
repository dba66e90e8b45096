//! The heads of slices, and what reading of instances remembers: flags, ids and the tests of a class; the
//! instances that have begun, the type ids that stood as texts and the references that were met; and whether
//! classes fit where they are named. (Ice manual, "Data Encoding for Class and Exception Types".)
//!
//! Forms, and why they are so:
//!
//! - It reads no member: so it stands beside what does (`ice_values`), and `instance_reading` over both.
//! - The instances of an encapsulation are named by their places in the order in which they begin (`Arena`),
//!   without slices until they end.
#![tactic(auto)]

mod arena;
mod before;
mod class_tests;
mod fitting;
mod flags;
mod ids;
mod table_port;

pub use arena::{Arena, MOST_INSTANCES, Reference};
pub use before::Before;
pub use class_tests::{class_in, is_over, test_class};
pub use flags::{is_odd, optionals, take_flags};
pub use ids::take_id;
pub use table_port::{InTable, Untabled};
