//! The messages of a stream, one by one.

ghost use Rattle.std.specs.Prelude.{◌≡◌, ◌≤◌, ◌+◌, ◌<◌, ◌^◌, None};
ghost use Rattle.ice_audit.specs.Stops.{out_of_turn, stage_after};
ghost use Rattle.ice_audit.specs.Readings.{FindsNext};
ghost use Rattle.ice_encoding.specs.declared.limits.TheConstants.{LARGEST};

use crate::stop::{Halt, Stage, Stop};
use crate::verdict::Why;
use ice_messages::{Frames, Message};
use ice_prims::{Kind, ReadFault};

/// The next message, if one is whole. So many bytes stand before it.
pub fn next_message(frames: &mut Frames, at: u64) -> Result<Option<Message>, Halt>
    requires { (frames.old.stopped ≡ None) × (at + LARGEST < 2 ^ 64) }
    ensures { FindsNext at frames.old.bytes frames.new result }
{
    match frames.next() {
        Ok(next) => Ok(next),
        Err(ReadFault::Broken(fault)) => Err(Halt::Found(Stop {
            place: at + fault.place,
            why: Why::Bytes(fault.kind),
        })),
        Err(ReadFault::Memory) => Err(Halt::Memory),
    }
}

/// What is wrong with a message that this end does or does not send, by what the stream has come to.
pub fn out_of_turn(sends: bool, stage: Stage, at: u64) -> Option<Stop>
    ensures { result ≡ out_of_turn sends stage at }
{
    if !sends {
        return Some(Stop {
            place: at,
            why: Why::Bytes(Kind::Unexpected),
        });
    }
    match stage {
        Stage::Closed => Some(Stop {
            place: at,
            why: Why::AfterClose,
        }),
        Stage::Fresh => None,
        Stage::Open => None,
    }
}

/// What a stream has come to behind a message.
pub fn stage_after(message: &Message) -> Stage
    ensures { result ≡ stage_after message.now }
{
    match message {
        Message::Close => Stage::Closed,
        _ => Stage::Open,
    }
}
