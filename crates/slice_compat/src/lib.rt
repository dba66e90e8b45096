//! Two schemas side by side: whether what was spelled under one can be read under the other, and whether one is the
//! other without some classes.
//!
//! Forms, and why they are so:
//!
//! - `Reads` goes by levels, as the spelling of values does (`SpellsValue`), so that the law on bytes is one induction
//!   over both.
//! - Answers to pairs of structs and of enums are remembered, right and wrong ones. Sequences and dictionaries have one
//!   part that can nest, so that a walk through them ends at a struct or below within a hundred steps.
//! - An answer is kept at the most levels. It holds at fewer, too, where the struct nests within those, and the schema
//!   says at once whether it does.
//! - Optional members are looked up by their tags in a map, which is filled from the last member to the first, so that
//!   what it has under a tag is what the list has first.
//! - The classes that are reached are found over nodes: rows of types, class places, and classes. Each is met once. A
//!   place leads to the places of the classes that extend the declared one, by lists that are linked by places.
//! - A row of which there is none counts as gone through, so that no test of places stands in the way.
//! - What is left to do is what is not met and what is pending, together; it falls by one with each that is gone
//!   through.
//! - `lacks` compares rows and not whether they are defined: an interface that is only declared is the same as one
//!   defined without bases and operations. (Classes are all defined where it is asked.)
#![tactic(auto)]

mod answers;
mod children;
mod classes;
mod compatibility;
mod enums;
mod ids;
mod lacking;
mod marks;
mod node;
mod options;
mod reached;
mod reading;
mod same_rows;
mod verdict;

pub use compatibility::compatible;
pub use lacking::lacks;
pub use verdict::{Verdict, Why};
