//! What the definitions promise, as laws.

ghost use Rattle.serve_command.specs.Laws.{AreSingle, BeginsForm, EndsAsRefused, EndsForCause};

/// Words and files are refused by one answer at most, and make no objects where they are.
pub fn refusals_are_single()
    ensures { AreSingle }
{}

/// Words of a form of `serve` begin with that word.
pub fn serve_first()
    ensures { BeginsForm }
{}

/// Words that are refused end so, unless a file could not be read or memory ran out.
pub fn serve_ends_as_refused()
    ensures { EndsAsRefused }
{}

/// What ends `serve` without success is a refusal, want of memory, or a failure of the outside.
pub fn serve_ends_for_cause()
    ensures { EndsForCause }
{}
