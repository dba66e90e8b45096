//! How many files are loaded at most. `ice_types` has the limits of what they declare.

/// How many files may be loaded, the first one among them.
pub const MOST_FILES: u32 = 100;
