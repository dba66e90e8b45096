//! Where a slice stands.

/// Where a slice stands among those of its instance or exception.
#[derive(Clone, Copy)]
pub(crate) struct Position {
    pub is_first: bool,
    pub is_last: bool,
}
