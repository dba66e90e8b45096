//! What a turnstile of lanes keeps.

use ice_messages::{Answer, Call};
use object_adapter::Servant;
use std::alloc::{AllocError, Global};
use turnstile::Turned;

/// An object of a server, with the allocator that its answers take memory of.
#[derive(Drop)]
pub struct Object {
    pub(crate) alloc: Global,
    pub(crate) servant: Servant,
}

impl Turned for Object {
    ghost use Rattle.dispatch_pool.specs.Answering.{Answers};

    type Call = Call;

    type Reply = Answer;

    ghost turns = { λ old call answer new. Answers old.servant call answer new.servant };

    fn turned(&mut self, call: &Call) -> Result<Answer, AllocError> {
        self.servant.answer(self.alloc, call)
    }
}
