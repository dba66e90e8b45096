//! What work ends with that pauses where an instance begins.

/// What a piece of the work ends with.
#[derive(Drop)]
pub enum Paused<T> {
    /// All is done, and this is what is made of it.
    Done(T),
    /// The instance of this name begins here. Once that is dealt with, the work goes on.
    Begins(u32),
}

/// What one step of the work ends with.
#[derive(Drop)]
pub enum Step<T> {
    /// There is more to do.
    On,
    /// All is done, and this is what is made of it.
    Done(T),
    /// The instance of this name begins here.
    Begins(u32),
}
