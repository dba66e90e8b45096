//! What a call that is not done is answered. (Ice manual, "Reply Message".)

ghost use Rattle.std.specs.Prelude.{◌≡◌, ◌≤◌, IfOk, length};
ghost use Rattle.object_adapter.specs.Refusals.{failed, fault_text, missed, told};
ghost use Rattle.object_adapter.specs.Replies.{CanReply};

use crate::refusal::Refusal;
use ice_messages::{Answer, Call};
use ice_prims::Kind;
use ice_types::Name;
use std::alloc::{AllocError, Global};

/// The answer to a refused call.
#[tactic(auto, using(crate::proofs::Short::missed_4))]
pub(crate) fn tell(alloc: Global, call: &Call, refusal: Refusal) -> Result<Answer, AllocError>
    ensures told { IfOk result (λ answer. answer ≡ told call.now refusal) }
    ensures writable { IfOk result (CanReply call.now) }
{
    match refusal {
        Refusal::NoOperation => missed(alloc, 4, call),
        Refusal::BadMode => failed(alloc, "bad mode"),
        Refusal::BadArguments(fault) => failed_at(alloc, fault.kind, fault.place),
        Refusal::TooLong => failed(alloc, "answer too long"),
    }
}

/// That the object, the facet or the operation of the call is not there: status 2, 3 or 4.
/// (Ice manual, "Reply Message".)
pub fn missed(alloc: Global, status: u8, call: &Call) -> Result<Answer, AllocError>
    ensures { IfOk result (λ answer. answer ≡ missed status call.now) }
{
    Ok(Answer::Missing {
        status,
        identity: call.identity.copied(alloc)?,
        facet: Name::of(alloc, call.facet.as_str())?,
        operation: Name::of(alloc, call.operation.as_str())?,
    })
}

/// An unknown local exception.
fn failed(alloc: Global, text: &str) -> Result<Answer, AllocError>
    ensures { IfOk result (λ answer. answer ≡ failed text.now) }
{
    Ok(Answer::Unknown {
        status: 5,
        text: Name::of(alloc, text)?,
    })
}

/// That the arguments have this kind of fault at this place.
fn failed_at(alloc: Global, kind: Kind, place: u64) -> Result<Answer, AllocError>
    ensures failed { IfOk result (λ answer. answer ≡ failed (fault_text (record { place = place; kind = kind }))) }
    ensures short { length (fault_text (record { place = place; kind = kind })) ≤ 1000 }
{
    let text = format!(in alloc; "bad arguments {} at {}", kind.name(), place)?;
    failed(alloc, text.as_str())
}
