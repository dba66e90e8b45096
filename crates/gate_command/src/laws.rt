//! What the definitions promise, as laws.

ghost use Rattle.gate_command.specs.Laws.{AreSingle, EndsAsRefused, EndsForCause, GatesOnce, SuccessesArrive};

/// Words and files are refused by one answer at most, say of one gateway at most how it forwards, and not both.
pub fn gate_refusals_are_single()
    ensures { AreSingle }
{}

/// Words that are refused end so, unless a file could not be read or memory ran out.
pub fn gate_ends_as_refused()
    ensures { EndsAsRefused }
{}

/// What ends `gate` without success is a refusal, want of memory, or a failure of the outside, but never of a link.
pub fn gate_ends_for_cause()
    ensures { EndsForCause }
{}

/// Over whatever is lost, closed and tried again, and wherever memory runs out: of the attempts at a message that may
/// not be dispatched twice, no server may dispatch any but the last. (Ice manual, "Automatic Retries".)
pub fn gates_once()
    ensures { GatesOnce }
{}

/// A success that a server gave to a request, within the limits, is the caller's reply.
pub fn gate_successes_arrive()
    ensures { SuccessesArrive }
{}
