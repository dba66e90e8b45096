//! What the definitions promise of each other, one law a function.

ghost use Rattle.ice_gateway.specs.Laws.{ForwardsOnce, SuccessesComeBack};

/// Whatever was lost, closed and tried again, and wherever memory ran out: of the attempts at a message that may not
/// be dispatched twice, no server may dispatch any but the last. (Ice manual, "Automatic Retries".)
pub fn forwards_once()
    ensures { ForwardsOnce }
{}

/// A success that a server gave is what the caller is given, where its results can be written anew.
pub fn successes_come_back()
    ensures { SuccessesComeBack }
{}
