//! What every list of events keeps, whatever was lost, closed, delayed or tried again.

ghost use Rattle.call_world.specs.Laws.{Always, AtMostOnce, OwnReplies, DeadForGood};
ghost use Rattle.call_world.specs.Reached.{IsSound, IsSeated, IsLogged};
ghost use Rattle.call_world.specs.Possible.{CallsCanSucceed, CallsCanRepeat};
ghost use Rattle.std.specs.Prelude.{ℕ};

use crate::service::Service;

/// An invocation that is not idempotent is dispatched at most once. (Ice manual, "At-Most-Once Semantics".)
pub fn at_most_once<S: Service>()
    ensures { Always S.rules AtMostOnce }
{}

/// A finished success carries the reply that a dispatch of its own invocation recorded.
pub fn own_replies<S: Service>()
    ensures { Always S.rules (OwnReplies S.rules.status) }
{}

/// An attempt that its client can tell to be dead has no dispatch, and has none in any later world. So
/// the client may try again. (Ice manual, "Automatic Retries".)
pub fn dead_for_good<S: Service>()
    ensures { Always S.rules (DeadForGood S.rules) }
{}

/// The dispatches recorded are exactly the seats that had such a turn, each of them once.
pub fn dispatches_logged<S: Service>()
    ensures { Always S.rules IsLogged }
{}

/// No byte arrives that was not handed over, no message is answered that did not arrive whole, and a
/// close comes after the answers of all that was dispatched.
pub fn connections_sound<S: Service>()
    ensures { Always S.rules (λ w. (c : ℕ) → IsSound S.rules.status (w.connections c)) }
{}

/// The places of an invocation's attempts are its seats, and there are no other seats.
pub fn seats_placed<S: Service>()
    ensures { Always S.rules IsSeated }
{}

/// The laws speak of worlds that there are: with whatever reply the objects may give, a call that is not
/// idempotent can be finished, and it was dispatched once.
pub fn calls_can_succeed<S: Service>()
    ensures { CallsCanSucceed S.rules }
{}

/// And `at_most_once` needs its premise: an idempotent call can be dispatched again.
pub fn idempotent_calls_can_repeat<S: Service>()
    ensures { CallsCanRepeat S.rules }
{}
