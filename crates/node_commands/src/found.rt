//! What is found for the words.

/// What is found, before any of it is written.
#[derive(Drop)]
pub enum Found {
    /// Bytes, which are to be written.
    Bytes(Vec<u8>),
    /// Bytes that say no, which are to be written.
    Denial(Vec<u8>),
    /// Whether two values are the same, for which a word is to be written.
    Verdict(bool),
}
