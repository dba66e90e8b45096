//! Where objects and adapters are, as a locator tells it, and calls that go there. (Ice manual, "Locators".)
//!
//! - `resolve` finds the endpoints of a proxy that has none: in a `Cache`, or else by a locator, which is asked.
//! - `call_through` and `send_through` are `invoke` and `send` of `ice_client` for any proxy: it is resolved anew
//!   before each attempt, and a place of the cache that is no longer right is forgotten.
//!
//! Forms, and why they are so:
//!
//! - A key whose request would pass the limits on requests is not asked for, and counts as one that the locator
//!   does not know, whether it is that of the proxy or of an adapter in an answer: so no caller has to test it.
//! - A question is spelled as it is put: an identity or a text in its encapsulation. Answers are read by the schema of
//!   locators, so that what real locators add to them is passed over.
//! - What went over connections is told as `Round`s: the attempts that were made one after the other at the
//!   endpoints of one proxy.
//! - Places are kept in the order in which their keys came, found by their hashes, and the oldest goes by its index.
#![tactic(auto)]

mod asking;
mod cache;
mod copies;
mod key;
mod lead;
mod question;
mod resolving;
mod step;
mod through;

pub use cache::{Cache, MOST_KEPT};
pub use key::Key;
pub use question::LONGEST;
pub use resolving::{Resolved, resolve};
pub use through::{Through, call_through, send_through};
