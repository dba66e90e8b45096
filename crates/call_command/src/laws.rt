//! What the definitions promise, as laws.

ghost use Rattle.call_command.specs.Laws.{AreDecidedOnce, EndsAsDecided, StopsForCause};

/// Words, files and input decide one end at most, one plan at most, and not both.
pub fn decided_once()
    ensures { AreDecidedOnce }
{}

/// A call ends as words, files and input decide, unless a read failed or memory ran out.
pub fn ends_as_decided()
    ensures { EndsAsDecided }
{}

/// What stops a call behind its plan is want of memory, a write that failed, or a message that did not succeed.
pub fn stops_for_cause()
    ensures { StopsForCause }
{}
