//! What stops a call once its message is known.

ghost use Rattle.std.specs.Prelude.{◌≡◌};
ghost use Rattle.call_command.specs.declared.stop.Stop.TheVariants as stops;

use ice_prims::Fault;
use ice_types::Name;
use std::alloc::AllocError;

/// Why a message was not answered with results.
#[derive(Drop)]
pub enum Reason {
    /// The operation raised a user exception: the type id of its first slice.
    Raised(Name),
    /// The object, the facet or the operation does not exist: status 2, 3 or 4.
    Missing(u8),
    /// The server raised an exception that it does not tell: status 5, 6 or 7, and its text in quotes.
    Unknown { status: u8, text: Name },
    /// The proxy has no endpoint that can be used.
    NoEndpoint,
    /// The proxy has no endpoints, and none were found.
    NotLocated,
    /// The server closed the connection.
    Closed,
    /// The server's stream ended before a reply.
    Ended,
    /// The server sent what may not come, or results that are none of the operation.
    Broke(Fault),
}

/// What stops a call.
#[derive(Drop)]
pub enum Stop {
    /// A line was not taken.
    WriteFailed,
    /// There was no connection, or a read or a write of one failed.
    NetFailed,
    Ended(Reason),
    /// Out of memory.
    Memory,
}

impl From<AllocError> for Stop {
    ghost from_gives = { λ _ stop. stop ≡ stops.Memory };

    fn from(_error: AllocError) -> Stop {
        Stop::Memory
    }
}
