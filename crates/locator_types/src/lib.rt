//! The interface that every object has, and that of locators, each with the types that it speaks of. (Ice manual,
//! "The Object Base Interface", "Locators".)
#![tactic(auto)]

mod object;
mod operations;
mod types;

pub use object::object_schema;
pub use types::locator_schema;
