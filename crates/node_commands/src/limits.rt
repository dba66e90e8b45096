//! Limits of what the words may say, and of one connection.

/// How often a message is tried again, at most.
pub const MOST_RETRIES: u32 = 10;

/// The most connections, and how many where none are named.
pub const MOST_CONNECTIONS: u32 = 1_000_000;

/// The greatest port.
pub const MOST_PORT: u32 = 65_535;

/// The most messages of one connection.
pub const MOST_MESSAGES: u64 = 1_000_000;
