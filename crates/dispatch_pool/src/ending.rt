//! Why accepting has ended.

/// Why accepting has ended, where it has.
#[derive(Clone, Copy)]
pub enum Ending {
    /// It goes on.
    Open,
    /// As many links were accepted as were asked for.
    Reached,
    /// The listener has no more links.
    NoMore,
    /// An accept failed.
    Failed,
}
