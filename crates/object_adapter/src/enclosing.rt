//! Results in their encapsulation.

ghost use Rattle.std.specs.Prelude.{◌≡◌, ◌≤◌, ◌+◌, IfOk, length};
ghost use Rattle.ice_encoding.specs.declared.limits.TheConstants.{SMALLEST};
ghost use Rattle.ice_encoding.specs.Opening.{encapsulated_bytes};
ghost use Rattle.object_adapter.specs.Refusals.{Outcome};
ghost use Rattle.object_adapter.specs.Admitting.{IsEnclosed, IsRefusedLength};

use crate::refusal::{LONGEST, Refusal, Unanswered};
use crate::results::Results;
use ice_encoding::SMALLEST;
use ice_prims::{put_byte, put_int};
use std::alloc::{AllocError, Global};

/// The encapsulation of this content, where it is not longer than results may be.
pub(crate) fn enclose(alloc: Global, content: &[u8]) -> Result<Results, Unanswered>
    ensures { Outcome (IsEnclosed content.now) (IsRefusedLength content.now) result }
{
    if content.len() > LONGEST as usize - SMALLEST {
        return Err(Unanswered::Refused(Refusal::TooLong));
    }
    Ok(enclose_short(alloc, content)?)
}

/// The encapsulation of this content.
pub(crate) fn enclose_short(alloc: Global, content: &[u8]) -> Result<Results, AllocError>
    requires { SMALLEST + length content.now ≤ LONGEST }
    ensures { IfOk result (λ bytes. bytes ≡ encapsulated_bytes content.now) }
{
    let mut out = Vec::new(alloc);
    put_int(&mut out, (SMALLEST + content.len()) as i32)?;
    put_byte(&mut out, 1)?;
    put_byte(&mut out, 1)?;
    out.extend_from_slice(content)?;
    Ok(Results::of(out))
}
