//! What all worlds that show a capture have in common. Their objects may give any reply.

ghost use Rattle.call_world.specs.Service.{free_rules};
ghost use Rattle.call_world.specs.CaptureLaws.{AnswersInOrder, AtMostOnce, CanShow, EitherOpen, NeverClosed};
ghost use Rattle.call_world.specs.CaptureLaws.{NeverRefused, OnceAnswered};

use crate::capture::Capture;

/// No call of a capture is dispatched twice, since each is an invocation of its own. (Ice manual, "At-Most-Once
/// Semantics".)
pub fn each_at_most_once<S: Capture>()
    ensures { AtMostOnce S.status S.repeatable }
{}

/// A call whose reply stands and is no refusal was dispatched once.
pub fn replied_once<S: Capture>()
    ensures { OnceAnswered S.status S.repeatable }
{}

/// A call whose reply is a refusal was not dispatched.
pub fn refused_never<S: Capture>()
    ensures { NeverRefused S.status S.repeatable }
{}

/// A call that asks for a reply and has none was not dispatched, where the server's close stands. (Ice manual,
/// "Connection Closure".)
pub fn closed_never<S: Capture>()
    ensures { NeverClosed S.status S.repeatable }
{}

/// Whatever was asked, and whatever the first replies are: there is a world that shows it.
pub fn every_capture_has_a_run<S: Capture>()
    ensures { CanShow S.status S.repeatable }
{}

/// Of a call that asks for a reply, where neither that nor a close stands, one world dispatches it and one does not.
pub fn open_either<S: Capture>()
    ensures { EitherOpen S.status S.repeatable }
{}

/// Replies come in the order of their calls, and none is left out.
pub fn answers_in_order<S: Capture>()
    ensures { AnswersInOrder (free_rules {C = S.Call} S.status) }
{}
