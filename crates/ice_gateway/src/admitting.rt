//! What is tried of a call before anything is connected.

ghost use Rattle.std.specs.Prelude.{◌≡◌, IfOk, IfSome};
ghost use Rattle.ice_messages.specs.Written.{IsWritableCall};
ghost use Rattle.ice_types.specs.Object.{object_tables};
ghost use Rattle.ice_gateway.specs.Anew.{body_anew};
ghost use Rattle.ice_gateway.specs.Gate.{seen};
ghost use Rattle.ice_gateway.specs.Mapped as mapped;
ghost use Rattle.ice_gateway.specs.Mapped.{with_arguments};
ghost use Rattle.ice_gateway.specs.Forwarded as forwarded;
ghost use Rattle.ice_gateway.specs.Laws.{CanGo, Comes, IsAdmitted};

use crate::copies::call_with;
use crate::gateway::{Gateway, Known, known_of};
use crate::refusing::{bad_arguments, failed};
use crate::renewing::{Renewed, renew};
use ice_encoding::LARGEST;
use ice_messages::{Answer, Call, request_length};
use std::alloc::{AllocError, Global};

/// What becomes of a call.
#[derive(Drop)]
pub enum Admitted {
    /// It is forwarded so.
    Goes(Call),
    /// It is not, and this is its answer.
    Refused(Answer),
}

/// The call of this operation with its arguments written anew, or the answer of one that is refused.
pub(crate) fn admit(alloc: Global, known: Known<'_>, call: &Call) -> Result<Admitted, AllocError>
    requires { Comes call.now }
    ensures is { IfOk result (λ admitted. admitted ≡ with_arguments call.now
        (body_anew known.entry.schema.now known.entry.operation.now.arguments call.now.body)) }
    ensures sendable { IfOk result IsAdmitted }
{
    let arguments = &known.operation.arguments;
    match renew(alloc, known.schema, arguments, call.body.as_slice())? {
        Renewed::Written(body) => fitting(alloc, call_with(alloc, call, body)?),
        Renewed::TooLong => Ok(Admitted::Refused(failed(alloc, "too long")?)),
        Renewed::Broken(fault) => Ok(Admitted::Refused(bad_arguments(alloc, fault)?)),
    }
}

/// The call, where a request of it is no longer than a message may be.
fn fitting(alloc: Global, call: Call) -> Result<Admitted, AllocError>
    requires { IsWritableCall call }
    ensures is { IfOk result (λ admitted. admitted ≡ mapped.fitting call) }
    ensures sendable { IfOk result IsAdmitted }
{
    if request_length(&call) > LARGEST as u64 {
        return Ok(Admitted::Refused(failed(alloc, "too long")?));
    }
    Ok(Admitted::Goes(call))
}

/// The call as it is forwarded, where nobody waits for an answer.
pub(crate) fn going(gateway: &Gateway<'_>, call: &Call) -> Result<Option<Call>, AllocError>
    requires object { gateway.now.object.now ≡ object_tables }
    requires comes { Comes call.now }
    ensures is { IfOk result (λ going. going ≡ forwarded.going (mapped.admitted (seen gateway.now) call.now)) }
    ensures sendable { IfOk result (λ going. IfSome going CanGo) }
{
    let Some(known) = known_of(gateway, call.operation.as_str()) else {
        return Ok(None);
    };
    match admit(gateway.alloc, known, call)? {
        Admitted::Goes(call) => Ok(Some(call)),
        Admitted::Refused(_) => Ok(None),
    }
}
