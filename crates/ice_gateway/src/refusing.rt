//! Answers that say why there is no other. (Ice manual, "Reply Message".)

ghost use Rattle.std.specs.Prelude.{◌≡◌, ◌≤◌, IfOk, length, string_bytes};
ghost use Rattle.object_adapter.specs.Refusals as refusals;
ghost use Rattle.object_adapter.specs.Replies.{IsReply};
ghost use Rattle.ice_gateway.specs.Mapped.{results_text};

use ice_messages::Answer;
use ice_prims::{Fault, Kind};
use ice_types::Name;
use std::alloc::{AllocError, Global};

/// An unknown local exception.
pub(crate) fn failed(alloc: Global, text: &str) -> Result<Answer, AllocError>
    requires { length text.now ≤ 1000 }
    ensures told { IfOk result (λ answer. answer ≡ refusals.failed text.now) }
    ensures replies { IfOk result IsReply }
{
    Ok(Answer::Unknown {
        status: 5,
        text: Name::of(alloc, text)?,
    })
}

/// That the arguments have this fault.
pub(crate) fn bad_arguments(alloc: Global, fault: Fault) -> Result<Answer, AllocError>
    ensures told { IfOk result (λ answer. answer ≡ refusals.failed (refusals.fault_text fault)) }
    ensures replies { IfOk result IsReply }
{
    let text = text_of_arguments(alloc, fault.kind, fault.place)?;
    failed(alloc, text.as_str())
}

/// What is said of arguments with this kind of fault at this place.
fn text_of_arguments(alloc: Global, kind: Kind, place: u64) -> Result<String, AllocError>
    ensures is { IfOk result (λ text. string_bytes text ≡ refusals.fault_text (record { place = place; kind = kind })) }
    ensures short { length (refusals.fault_text (record { place = place; kind = kind })) ≤ 1000 }
{
    format!(in alloc; "bad arguments {} at {}", kind.name(), place)
}

/// That the results, or the user exception, have this fault.
pub(crate) fn bad_results(alloc: Global, fault: Fault) -> Result<Answer, AllocError>
    ensures told { IfOk result (λ answer. answer ≡ refusals.failed (results_text fault)) }
    ensures replies { IfOk result IsReply }
{
    let text = text_of_results(alloc, fault.kind, fault.place)?;
    failed(alloc, text.as_str())
}

/// What is said of results with this kind of fault at this place.
fn text_of_results(alloc: Global, kind: Kind, place: u64) -> Result<String, AllocError>
    ensures is { IfOk result (λ text. string_bytes text ≡ results_text (record { place = place; kind = kind })) }
    ensures short { length (results_text (record { place = place; kind = kind })) ≤ 1000 }
{
    format!(in alloc; "bad results {} at {}", kind.name(), place)
}
