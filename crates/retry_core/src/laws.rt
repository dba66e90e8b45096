//! What both ends make of every list of events.

ghost use Rattle.retry_core.specs.ClientRuns.{ClientsKeepToTheirRetries};
ghost use Rattle.retry_core.specs.ServerRuns.{ServersCloseLast};

/// A client makes at most one attempt more than it has retries. An attempt is followed by another only where
/// it may be: one that was lost after it was sent whole only where the message is idempotent. And one that
/// may be followed is the last only with no retry left. (Ice manual, "Automatic Retries".)
pub fn client_keeps_to_its_retries()
    ensures { ClientsKeepToTheirRetries }
{}

/// A server closes only when each request that asks for a reply has it sent, and each call that it read was
/// dispatched; and it does nothing after it.
/// (Ice manual, "Closing Connections".)
pub fn server_closes_last()
    ensures { ServersCloseLast }
{}
