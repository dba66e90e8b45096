//! What a net in memory was asked for, and the memory in which it notes that.
ghost use Rattle.std.specs.Prelude.{◌≡◌, ◌≤◌, [], ◌∷◌, IfOk, vec_capacity};
ghost use Rattle.std.specs.LinkedList.{linked_list_len};
ghost use Rattle.ice_ports.specs.Nets.{asked_for};

use ice_types::{Bytes, List};
use std::alloc::{AllocError, Global};
use std::collections::LinkedList;

/// How many bytes of a host a net in memory notes.
pub const MOST_OF_A_HOST: usize = 8192;

/// What a net was asked for: the first `MOST_OF_A_HOST` bytes of the host, and the port.
#[derive(Drop)]
pub struct Asked {
    pub host: Bytes,
    pub port: u16,
}

/// The memory for the note of one call.
#[derive(Drop)]
pub(crate) struct HostRoom {
    host: Vec<u8>,
    ghost wide: { 8192 ≤ vec_capacity host },
    ghost empty: { host.items ≡ [] },
}

impl HostRoom {
    pub(crate) fn new(alloc: Global) -> Result<HostRoom, AllocError> {
        Ok(HostRoom {
            host: Vec::with_capacity(alloc, MOST_OF_A_HOST)?,
        })
    }

    /// The note of a call for this place.
    pub(crate) fn note(self, host: &str, port: u16) -> Asked
        ensures { result ≡ asked_for host.now port }
    {
        let HostRoom { host: mut room } = self;
        let bytes = host.as_bytes();
        let count = bytes.len().min(MOST_OF_A_HOST);
        room.extend_from_slice(&bytes[..count]).unwrap();
        Asked {
            host: List::from_vec(room),
            port,
        }
    }
}

/// The memory for the note of one call, with its place in the list of all.
#[derive(Drop)]
pub(crate) struct NotePlace {
    room: HostRoom,
    place: LinkedList<Asked>,
    ghost one: { linked_list_len place ≡ 1 },
}

impl NotePlace {
    pub(crate) fn new(alloc: Global) -> Result<NotePlace, AllocError> {
        let mut place = LinkedList::new(alloc);
        place.push_back(Asked {
            host: List::new(alloc),
            port: 0,
        })?;
        Ok(NotePlace {
            room: HostRoom::new(alloc)?,
            place,
        })
    }

    /// The note of a call for this place, as a list.
    pub(crate) fn note(self, host: &str, port: u16) -> LinkedList<Asked>
        ensures { result ≡ asked_for host.now port ∷ [] }
    {
        let NotePlace { room, mut place } = self;
        *place.front_mut().unwrap() = room.note(host, port);
        place
    }
}
