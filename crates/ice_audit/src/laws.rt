//! What a good capture tells, over every run of the world of calls that shows it; and that a capture has one verdict.

ghost use Rattle.ice_audit.specs.Traces.{GoodHasTrace, EachIsTold, NoneTwice};
ghost use Rattle.ice_audit.specs.Captures.{CaptureHasTrace, CaptureIsTold, CaptureNoneTwice, LinesAreTold};
ghost use Rattle.ice_audit.specs.Verdicts.{VerdictsApart};

/// A good capture has a run.
pub fn good_has_trace()
    ensures { GoodHasTrace }
{}

/// What is told of a call that asks for a reply is so: it was dispatched once in every run, in none, or in one run and
/// not in another.
pub fn each_is_told()
    ensures { EachIsTold }
{}

/// No call is dispatched twice, whether it asks for a reply or not.
pub fn none_twice()
    ensures { NoneTwice }
{}

/// Bytes of a good capture have a run.
pub fn capture_has_trace()
    ensures { CaptureHasTrace }
{}

/// What is told of a call that asks for a reply is so over every run that shows the bytes.
pub fn capture_is_told()
    ensures { CaptureIsTold }
{}

/// No call is dispatched twice in any run that shows the bytes.
pub fn capture_none_twice()
    ensures { CaptureNoneTwice }
{}

/// The lines that are drawn of a good capture tell what is so over every run that shows it.
pub fn lines_are_told()
    ensures { LinesAreTold }
{}

/// A capture has one verdict.
pub fn verdicts_apart()
    ensures { VerdictsApart }
{}
