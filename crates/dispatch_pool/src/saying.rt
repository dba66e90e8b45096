//! What a server says on a connection.

ghost use Rattle.std.specs.Prelude.{◌≡◌, [], ◌∷◌};
ghost use Rattle.ice_ports.specs.Talks.{adds};
ghost use Rattle.ice_ports.specs.declared.talk.Talk.{Talk};
ghost use Rattle.ice_messages.specs.declared.message.Message.TheVariants.{Reply};
ghost use Rattle.ice_messages.specs.Written.{IsAnswer, IsWritable};
ghost use Rattle.object_adapter.specs.Replies.{KeepsLimit};
ghost use Rattle.talking.specs.Said.{Says, Counts, fails_said};
ghost use Rattle.dispatch_pool.specs.Handled.{reply_of};

use ice_messages::{Answer, Message};
use ice_ports::Link;
use std::alloc::{AllocError, Global};

/// Writes the reply to a request with this id, where one is asked for. False where a write failed.
pub(crate) fn reply<L: Link>(
    alloc: Global,
    link: &mut L,
    id: i32,
    answer: Answer,
) -> Result<bool, AllocError>
    requires answer { IsAnswer answer }
    requires short { KeepsLimit (Reply id answer) }
    ensures did { (t : Talk) × (L.talk link.new ≡ adds (L.talk link.old) t) × Says (reply_of id answer) t result }
    ensures counts { Counts (fails_said result) (L.Source.failures link.old, L.Sink.failures link.old)
        (L.Source.failures link.new, L.Sink.failures link.new) }
{
    if id == 0 {
        drop(answer);
        return Ok(true);
    }
    say(alloc, link, Message::Reply { id, answer })
}

/// Writes a message, and lets go of it. False where a write failed.
pub(crate) fn say<L: Link>(
    alloc: Global,
    link: &mut L,
    message: Message,
) -> Result<bool, AllocError>
    requires writable { IsWritable message }
    requires short { KeepsLimit message }
    ensures did { (t : Talk) × (L.talk link.new ≡ adds (L.talk link.old) t) × Says (message ∷ []) t result }
    ensures counts { Counts (fails_said result) (L.Source.failures link.old, L.Sink.failures link.old)
        (L.Source.failures link.new, L.Sink.failures link.new) }
{
    let went = talking::say(alloc, link, &message);
    drop(message);
    went
}
