//! How an attempt ended, and whether another may follow it.

ghost use Rattle.std.specs.Prelude.{◌≡◌};
ghost use Rattle.retry_core.specs.Retries.{may_follow};

/// How one attempt at a message ended.
#[derive(Clone, Copy, Debug, PartialEq, Eq)]
pub enum Attempt {
    /// No connection was had.
    NotConnected,

    /// The connection was lost before it took the whole message.
    NotWhole,

    /// The connection took the whole message, which asks for no reply.
    Sent,

    /// The connection was lost after it took the whole request and before a reply was read.
    Lost,

    /// The peer closed the connection and sent no reply.
    Closed,

    /// The reply says that there is no such object, and the place was a cached one.
    Stale,

    /// What was read is no message that may come.
    Broke,

    /// The reply was read.
    Replied,
}

impl Attempt {
    /// Whether the rules allow another attempt after this one, if a retry is left. After `Lost` the request
    /// may have been dispatched, so only an idempotent message goes on. (Ice manual, "Automatic Retries".)
    pub fn may_be_followed(self, idempotent: bool) -> bool
        ensures { result ≡ may_follow idempotent self }
    {
        match self {
            Attempt::NotConnected | Attempt::NotWhole | Attempt::Closed | Attempt::Stale => true,
            Attempt::Lost => idempotent,
            Attempt::Sent | Attempt::Broke | Attempt::Replied => false,
        }
    }
}
