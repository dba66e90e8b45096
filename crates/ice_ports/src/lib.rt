//! The outside, as traits: where bytes come from, where they go, files by name, connections, and the
//! nets that make them.
//!
//! Each object counts its failures: the count rises by one in a call that answers a failure, and in
//! no other. The versions in memory tell what they hold, so that contracts can speak of it; the
//! versions over the system tell nothing. What has to go out as a whole goes by `write_all`, which
//! says how much of it went where a write fails.
//!
//! Forms, and why they are so:
//!
//! - One exact count. A call counts a failure once and nothing else (`count`). So a failure has its cause, every
//!   other answer leaves the count as it was, and a call that failed is not made again. At the greatest u64 a
//!   count stands still, and there a failure shows in no count.
//! - One fault of the outside (`PortFault`: failed, or out of memory) for the shelf and for what reads from a
//!   source; `ShelfFault` is its name at a shelf. A contract names `PortFault`, since a clause cannot name an
//!   alias.
//! - The bound of one read is a `requires` of `Source::read` (`MOST_OF_A_READ`, 4,096 bytes), so that each
//!   caller is held to it, over every source.
//! - `Shelf::load` takes an allocator, since it allocates; so does every call that does.
//! - Bytes go to a sink as a whole by `write_all`, by which the commands and `message_dump` write.
#![tactic(auto)]

mod asked;
mod connects;
mod fault_plan;
mod folder_shelf;
mod links;
mod mem_link;
mod mem_listener;
mod mem_net;
mod mem_shelf;
mod mem_sink;
mod mem_source;
mod nets;
mod output;
mod plan_of_link;
mod ports;
mod std_streams;
mod talk;
mod tcp;

pub use asked::{Asked, MOST_OF_A_HOST};
pub use fault_plan::FaultPlan;
pub use folder_shelf::FolderShelf;
pub use links::{Link, read_link, write_link};
pub use mem_link::MemLink;
pub use mem_listener::{MemListener, MemTray};
pub use mem_net::MemNet;
pub use mem_shelf::MemShelf;
pub use mem_sink::{MOST_ROOM, MemSink};
pub use mem_source::MemSource;
pub use nets::{Listener, Net, Tray};
pub use output::{write_all, write_pieces};
pub use plan_of_link::Plan;
pub use ports::{Failed, MOST_OF_A_READ, PortFault, Shelf, ShelfFault, Sink, Source};
pub use std_streams::{StdSink, StdSource, read_once, write_once};
pub use talk::Talk;
pub use tcp::{TcpLink, TcpListener, TcpNet, TcpTray};
