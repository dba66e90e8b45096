//! The law that joins both ends of calls: what clients and servers say of the connections between them is what one
//! world of calls shows, in which no call is dispatched twice that may not be. The definitions stand in `specs/`; the
//! functions here have no bodies, and each has a law as its contract.
//!
//! Forms, and why they are so:
//!
//! - What is said is `ClientDid` and `ServerDid`, of the very talks that `ice_client` and `dispatch_pool` tell. A
//!   session stands within the attempt at whose other end it was: so each attempt has its own connection, each session
//!   its own, and each session belongs to an attempt.
//! - Two steps: bytes are read as links, which say how far both ends of a connection came, and links are played as
//!   events of one world, a connection behind the other.
#![tactic(auto)]

ghost use Rattle.once_law.specs.Laws.{EndsAreOneWorld, MatchedEndsAreOneWorld, EndsCanFit};
ghost use Rattle.once_law.specs.Laws.{TurnsAreSingle, StarvedTurnsAreSingle, SuccessesHaveTurns};
ghost use Rattle.once_law.specs.Cut.{CutCallsAreNone};

/// What clients and servers say, apart and matched, or each session within its attempt: it is one world, in which a
/// call that is not idempotent is dispatched at most once, and a success carries that dispatch's reply.
/// (Ice manual, "At-Most-Once Semantics".)
pub fn once()
    ensures apart { MatchedEndsAreOneWorld }
    ensures within { EndsAreOneWorld }
{}

/// The same in the words of both ends alone: over all attempts at a message, whatever was lost, closed or tried
/// again, and wherever the client's memory ran out, a call that is not idempotent has one turn of an object at most.
pub fn turns_are_single()
    ensures ended { TurnsAreSingle }
    ensures starved { StarvedTurnsAreSingle }
{}

/// And a success is the answer of such a turn.
pub fn successes_have_turns()
    ensures { SuccessesHaveTurns }
{}

/// It is no law of nothing: there are ends that fit together, with attempts that were lost, closed and replied, with
/// sessions, and with a batch.
pub fn ends_can_fit()
    ensures { EndsCanFit }
{}

/// Of a request that was cut no call is handled, wherever it was cut, and of one that came whole at most one; a
/// heartbeat may come before it. (Ice manual, "Request Message".)
pub fn cut_call()
    ensures { CutCallsAreNone }
{}
