//! A file that a walk over includes is inside of.

use ice_types::Name;
use slice_syntax::File;

/// A file that the walk is inside of.
#[derive(Drop)]
pub(crate) struct Open {
    pub(crate) name: Name,
    pub(crate) tree: File,
    /// How many of its includes were gone through.
    pub(crate) next: usize,
}
