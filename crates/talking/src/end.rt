//! How a connection ended.

ghost use Rattle.std.specs.Prelude.{◌≡◌};
ghost use Rattle.talking.specs.Ends.{end_behind_reply};

use ice_prims::Fault;

/// How a connection that was served ended.
#[derive(Clone, Copy, PartialEq, Eq)]
pub enum End {
    /// The peer's bytes ended, with or without a part of a message.
    PeerEnded,
    /// The peer sent a close message.
    PeerClosed,
    /// What the peer sent is no message, or is one that no client sends.
    PeerBroke(Fault),
    /// A read or a write failed.
    LinkFailed,
    /// As many messages were taken as was stated, and a close message was written.
    Enough,
}

/// How a connection ends behind a reply: not, where it was written.
pub fn end_behind_reply(went: bool) -> Option<End>
    ensures { result ≡ end_behind_reply went }
{
    if went { None } else { Some(End::LinkFailed) }
}
