//! Copies of calls and their parts.

ghost use Rattle.std.specs.Prelude.{◌≡◌, IfOk};

use ice_messages::Call;
use ice_types::{Bytes, List, Name};
use std::alloc::{AllocError, Global};

/// A copy of the call with this body.
pub(crate) fn call_with(alloc: Global, call: &Call, body: Bytes) -> Result<Call, AllocError>
    ensures { IfOk result (λ copy. copy ≡ record call.now { body = body }) }
{
    Ok(Call {
        identity: call.identity.copied(alloc)?,
        facet: name_like(alloc, &call.facet)?,
        operation: name_like(alloc, &call.operation)?,
        mode: call.mode,
        context: context_like(alloc, call.context.as_slice())?,
        body,
    })
}

fn name_like(alloc: Global, name: &Name) -> Result<Name, AllocError>
    ensures { IfOk result (λ copy. copy ≡ name.now) }
{
    Name::of(alloc, name.as_str())
}

fn context_like(alloc: Global, context: &[(Name, Name)]) -> Result<List<(Name, Name)>, AllocError>
    ensures { IfOk result (λ copy. copy ≡ context.now) }
{
    let mut copy = List::new(alloc);
    for entry in context {
        copy.push(entry_like(alloc, entry)?)?;
    }
    Ok(copy)
}

fn entry_like(alloc: Global, entry: &(Name, Name)) -> Result<(Name, Name), AllocError>
    ensures { IfOk result (λ copy. copy ≡ entry.now) }
{
    let (name, value) = entry;
    Ok((name_like(alloc, name)?, name_like(alloc, value)?))
}
