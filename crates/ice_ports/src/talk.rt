//! What goes over a connection, and lists of that.
ghost use Rattle.std.specs.Prelude.{◌≡◌, [], ◌∷◌};
ghost use Rattle.std.specs.LinkedList.{linked_list_len};
ghost use Rattle.ice_ports.specs.Nets.{behind};

use ice_types::{Bytes, List};
use std::alloc::{AllocError, Global};
use std::collections::LinkedList;

/// What went over a link: the bytes that it gave and took, whether a read answered the end, and
/// whether a call failed.
#[derive(Drop)]
pub struct Talk {
    pub given: Bytes,
    pub taken: Bytes,
    pub ended: bool,
    pub failed: bool,
}

/// The place of one talk in a list of them.
#[derive(Drop)]
pub(crate) struct TalkPlace {
    place: LinkedList<Talk>,
    ghost one: { linked_list_len place ≡ 1 },
}

impl TalkPlace {
    pub(crate) fn new(alloc: Global) -> Result<TalkPlace, AllocError> {
        let mut place = LinkedList::new(alloc);
        place.push_back(Talk {
            given: List::new(alloc),
            taken: List::new(alloc),
            ended: false,
            failed: false,
        })?;
        Ok(TalkPlace { place })
    }

    /// The list of this talk alone.
    pub(crate) fn fill(self, talk: Talk) -> LinkedList<Talk>
        ensures { result ≡ talk ∷ [] }
    {
        let TalkPlace { mut place } = self;
        *place.front_mut().unwrap() = talk;
        place
    }
}

/// One more than the most talks of a list.
const TALKS_LIMIT: usize = 0x8000_0000_0000_0000;

/// Puts talks behind those of a list.
pub(crate) fn put_behind(talks: &mut LinkedList<Talk>, mut more: LinkedList<Talk>)
    ensures { talks.new ≡ behind talks.old more }
{
    if talks.len() + more.len() < TALKS_LIMIT {
        talks.append(&mut more).unwrap();
    }
}
