//! Whether a value is of a type, which part of a graph of class instances is the first that is not, whether
//! slices are those of an exception, and the value of a type that is all zeros.
//!
//! Forms, and why they are so:
//!
//! - One walk over a value serves `fits` and graphs: which references may stand is handed in (`References`:
//!   none, as in keys; any; or those to instances of a graph that fit). It calls itself over the levels of a
//!   type, at most a hundred, and takes no memory, so that `fits` always answers.
//! - `fits` tells the form of a value alone, whatever instances it refers to; `first_ill_typed` tells it of a
//!   whole graph, with classes and bases.
#![tactic(auto)]

mod first;
mod instances;
mod laws;
mod members;
mod proxies;
mod references;
mod values;
mod zeros;

pub use first::{first_ill_instance, first_ill_typed};
pub use instances::is_user_exception;
pub use laws::zeros_have_types;
pub use values::{fits, is_byte_type};
pub use zeros::zero;
