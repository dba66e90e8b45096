//! Where a slice stands among those of its instance or exception.

/// What a slice follows.
#[derive(Clone, Copy)]
pub enum Before {
    /// Nothing: it is the first.
    First,
    /// Slices of classes that are not known.
    OnlyUnknown,
    /// A slice of a class with this base, with a size or without.
    Derived { sized: bool, base: u32 },
}
