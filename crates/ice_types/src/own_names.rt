//! Whether members have names of their own.

ghost use Rattle.std.specs.Prelude.{[], IfOk, IsTrue, ◌↔◌};
ghost use Rattle.ice_types.specs.Names.{AreNew};
ghost use Rattle.ice_types.specs.Fits.{names_of};

use crate::declarations::Member;
use std::alloc::{AllocError, Global};
use std::collections::BTreeSet;

/// Whether no two of the members have names that are equal without regard to case, as a schema
/// demands of them. (Ice manual, "Lexical Rules".)
pub fn have_own_names(alloc: Global, members: &[Member]) -> Result<bool, AllocError>
    ensures { IfOk result (λ own. IsTrue own ↔ AreNew [] (names_of members.now)) }
{
    let mut names = BTreeSet::new(alloc);
    for member in members {
        let lowered = member.name.as_str().to_ascii_lowercase(alloc)?;
        if !names.insert(lowered)? {
            return Ok(false);
        }
    }
    Ok(true)
}
