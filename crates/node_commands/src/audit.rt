//! `audit CLIENT SERVER`: how often each call of a captured connection was dispatched, over every run of the protocol
//! that shows what both ends sent.

ghost use Rattle.std.specs.Prelude.{◌≡◌, ℕ, List, Option, IfOk, string_bytes};
ghost use Rattle.node_commands.specs.Words.{audit as wanted};
ghost use Rattle.node_commands.specs.Outside.{counts};
ghost use Rattle.node_commands.specs.Outcomes.{Finds, FindsVerdict};

use crate::capture_text::verdict_text;
use crate::found::Found;
use crate::loading::load_bytes;
use crate::outcome::Outcome;
use ice_audit::Verdict;
use ice_ports::Shelf;
use std::alloc::{AllocError, Global};

/// What the bytes of both files tell of the calls of their connection, or why they tell nothing. The client's file is
/// loaded first.
pub fn audit<'a, H: Shelf>(
    alloc: Global,
    client: &'a str,
    server: &'a str,
    shelf: &mut H,
) -> Result<Found, Outcome<'a>>
    ensures { (input : Option (List ℕ)) (source sink : ℕ)
        → Finds (wanted client.now server.now) (H.files shelf.old) input
        (counts (H.failures shelf.old) source sink)
        (counts (H.failures shelf.new) source sink) result }
{
    let asked = load_bytes(alloc, client, shelf)?;
    let sent = load_bytes(alloc, server, shelf)?;
    Ok(verdict_on(alloc, asked.as_slice(), sent.as_slice())?)
}

/// What is to be written of a capture.
fn verdict_on(alloc: Global, client: &[u8], server: &[u8]) -> Result<Found, AllocError>
    ensures { IfOk result (FindsVerdict client.now server.now) }
{
    let verdict = ice_audit::audit(alloc, client, server)?;
    let text = verdict_text(alloc, &verdict)?;
    match verdict {
        Verdict::Yes(_) => Ok(Found::Bytes(text)),
        Verdict::No { .. } => Ok(Found::Denial(text)),
    }
}
