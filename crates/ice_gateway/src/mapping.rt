//! The answer of a request that was forwarded. (Ice manual, "Reply Message".)

ghost use Rattle.std.specs.Prelude.{◌≡◌, IfOk};
ghost use Rattle.ice_messages.specs.declared.message.Answer.TheVariants as answers;
ghost use Rattle.object_adapter.specs.Replies.{IsReply};
ghost use Rattle.ice_gateway.specs.Gate.{operation_seen, seen};
ghost use Rattle.ice_gateway.specs.Mapped as mapped;
ghost use Rattle.ice_gateway.specs.Mapped.{IsOutcomes, wrapped};
ghost use Rattle.ice_gateway.specs.Laws.{CameBack, CanCome, IsRenewed};

use crate::gateway::{Gateway, Known};
use crate::refusing::{bad_results, failed};
use crate::renewing::{Renewed, renew, renew_exception};
use ice_client::Outcome;
use ice_messages::Answer;
use std::alloc::{AllocError, Global};

/// The answer of a request whose invocation came to this.
pub(crate) fn answer_to(
    gateway: &Gateway<'_>,
    known: Known<'_>,
    outcome: Outcome,
) -> Result<Answer, AllocError>
    requires { CanCome outcome }
    ensures is { IfOk result (IsOutcomes (seen gateway.now) (operation_seen known.entry) outcome) }
    ensures replies { IfOk result IsReply }
{
    let alloc = gateway.alloc;
    match outcome {
        Outcome::Replied(answer) => given_back(gateway, known, answer),
        Outcome::NetFailed => failed(alloc, "upstream failed"),
        Outcome::Ended => failed(alloc, "upstream ended"),
        Outcome::Closed => failed(alloc, "upstream closed"),
        Outcome::Broke(_) => failed(alloc, "upstream broke"),
        Outcome::Sent => unreachable!(),
        Outcome::NoEndpoint => unreachable!(),
    }
}

/// An answer that was read, with its body written anew.
fn given_back(gateway: &Gateway<'_>, known: Known<'_>, answer: Answer) -> Result<Answer, AllocError>
    requires { CameBack answer }
    ensures is { IfOk result (λ back. back ≡ mapped.given_back (seen gateway.now) (operation_seen known.entry) answer) }
    ensures replies { IfOk result IsReply }
{
    let alloc = gateway.alloc;
    match answer {
        Answer::Done(body) => {
            let results = &known.operation.results;
            let body = renew(alloc, known.schema, results, body.as_slice())?;
            done(alloc, body)
        }
        Answer::Raised(body) => {
            let body = renew_exception(alloc, gateway.schema, body.as_slice())?;
            raised(alloc, body)
        }
        Answer::Missing {
            status,
            identity,
            facet,
            operation,
        } => Ok(Answer::Missing {
            status,
            identity,
            facet,
            operation,
        }),
        Answer::Unknown { status, text } => Ok(Answer::Unknown { status, text }),
    }
}

/// Success with this body.
fn done(alloc: Global, body: Renewed) -> Result<Answer, AllocError>
    requires { IsRenewed body }
    ensures is { IfOk result (λ answer. answer ≡ wrapped answers.Done body) }
    ensures replies { IfOk result IsReply }
{
    match body {
        Renewed::Written(body) => Ok(Answer::Done(body)),
        Renewed::TooLong => failed(alloc, "too long"),
        Renewed::Broken(fault) => bad_results(alloc, fault),
    }
}

/// A user exception with this body.
fn raised(alloc: Global, body: Renewed) -> Result<Answer, AllocError>
    requires { IsRenewed body }
    ensures is { IfOk result (λ answer. answer ≡ wrapped answers.Raised body) }
    ensures replies { IfOk result IsReply }
{
    match body {
        Renewed::Written(body) => Ok(Answer::Raised(body)),
        Renewed::TooLong => failed(alloc, "too long"),
        Renewed::Broken(fault) => bad_results(alloc, fault),
    }
}
