//! Rows of numbers: any bytes of the right number are those of one.

ghost use Rattle.std.specs.Prelude.{ℕ, ◌≤◌, suc, IfSome};
ghost use Rattle.canonical_values.specs.Standing.{AreNumbers, IsPlain, kinds_of};

use crate::leaf::number_length;
use ice_types::{Member, Schema, TypeRef};

/// How many bytes a row has at most that is passed over at once.
pub const LONGEST_ROW: usize = 65_536;

/// How many bytes each value of the type has, where every byte may stand in it: a number, or a struct of numbers.
/// None of every other type.
pub(crate) fn row_length(schema: &Schema, kind: TypeRef) -> Option<usize>
    ensures within { IfSome result (λ n. n ≤ LONGEST_ROW) }
    ensures plain { IfSome result (λ n. (levels : ℕ) → IsPlain schema.now (suc (suc levels)) kind n) }
{
    match kind {
        TypeRef::Struct(at) => {
            let decl = schema.structs().get(at as usize)?;
            members_length(decl.members.as_slice())
        }
        _ => number_length(kind),
    }
}

/// How many bytes the members have together, where each is a number. None where one is none.
fn members_length(members: &[Member]) -> Option<usize>
    ensures within { IfSome result (λ n. n ≤ LONGEST_ROW) }
    ensures numbers { IfSome result (λ n. AreNumbers (kinds_of members.now) n) }
{
    let mut total = 0;
    for member in members {
        let length = number_length(member.kind)?;
        if LONGEST_ROW - total < length {
            return None;
        }
        total += length;
    }
    Some(total)
}
