//! Results in their encapsulation.

ghost use Rattle.std.specs.Prelude.{◌≡◌, IfOk};
ghost use Rattle.ice_messages.specs.declared.message.Answer.TheVariants as answers;
ghost use Rattle.object_adapter.specs.Replies.{IsReply};
ghost use Rattle.object_adapter.specs.Results.{AreResults};

use ice_messages::Answer;
use ice_types::{Bytes, List};
use std::alloc::{AllocError, Global};
use std::marker::Model;

/// The encapsulation of results or of a user exception, which is not longer than results may be. Contracts
/// see its bytes.
#[derive(Drop)]
pub struct Results {
    bytes: Bytes,
}

impl Model for Results {
    ghost use Rattle.std.specs.Prelude.{List, ℕ};
    ghost use Rattle.object_adapter.specs.Results.{AreResults};

    ghost Value = { List ℕ };

    ghost view = { λ r. r.bytes };

    ghost invariant = { λ r. AreResults r.bytes };
}

impl Results {
    /// The bytes as results. They are not copied.
    pub(crate) fn of(bytes: Vec<u8>) -> Results
        requires { AreResults bytes.items }
        ensures { result ≡ bytes.items }
    {
        Results {
            bytes: List::from_vec(bytes),
        }
    }

    /// A copy of them.
    pub(crate) fn copied(&self, alloc: Global) -> Result<Results, AllocError>
        ensures { IfOk result (λ copy. copy ≡ self.now) }
    {
        let bytes = Vec::from_slice(alloc, self.bytes.as_slice())?;
        Ok(Results::of(bytes))
    }

    /// The answer with these results.
    pub(crate) fn done(self) -> Answer
        ensures done { result ≡ answers.Done self }
        ensures writable { IsReply result }
    {
        Answer::Done(self.bytes)
    }

    /// The answer with this exception.
    pub(crate) fn raised(self) -> Answer
        ensures raised { result ≡ answers.Raised self }
        ensures writable { IsReply result }
    {
        Answer::Raised(self.bytes)
    }
}
