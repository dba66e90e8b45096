//! What the laws ask of calls and replies.

ghost use Rattle.std.specs.Prelude.{ℕ, Bool};

/// Calls and their replies, each reply with its status: 2 and 3 are refusals, which come without a dispatch.
/// Some calls may be tried again freely. (Ice manual, "The Ice Protocol", "Reply Status".)
pub trait Capture {
    type Call;

    type Reply;

    ghost status: { Self.Reply → ℕ };

    ghost repeatable: { Self.Call → Bool };
}
