//! The walk over the instances of a content, with a stack of its own.

ghost use Rattle.std.specs.Prelude.{ℕ, List, IsTrue};
ghost use Rattle.ice_types.specs.declared.kind.TypeRef.TheVariants as kinds;
ghost use Rattle.canonical_inputs.specs.Written.{IsWritten, one_member};

use crate::frame::{Frame, Met, Step, pass_next};
use ice_types::Schema;
use std::alloc::Global;

/// How deep instances may be in one another.
const MOST_IN_ONE_ANOTHER: u32 = 99_999_999;

/// Whether the content is the canonical one, in sliced format, of a reference to an instance where this class is
/// declared. Where the answer is `false`, it may be so all the same. (Ice manual, "Data Encoding for Class and
/// Exception Types".)
pub fn is_canonical_instance(
    alloc: Global,
    schema: &Schema,
    declared: Option<u32>,
    content: &[u8],
) -> bool
    ensures { IsTrue result → (name : List ℕ)
        → IsWritten schema.now (one_member name (kinds.Class declared)) content.now }
{
    let mut needs = Vec::new(alloc);
    if needs.push(declared).is_err() {
        return false;
    }
    let mut top = Frame {
        depth: MOST_IN_ONE_ANOTHER,
        needs,
        next: 0,
        last: None,
        base: None,
    };
    let mut met = Met {
        classes: Vec::new(alloc),
        ids: Vec::new(alloc),
    };
    let mut at = 0;
    let mut below = Vec::new(alloc);
    for _ in 0..u64::MAX {
        match pass_next(alloc, schema, content, at, &mut met, &mut top) {
            Step::On(next) => at = next,
            Step::Into(next, inside) => {
                if below.push(top).is_err() {
                    return false;
                }
                at = next;
                top = inside;
            }
            Step::Done => match below.pop() {
                Some(frame) => top = frame,
                None => return at == content.len(),
            },
            Step::Stop => return false,
        }
    }
    false
}
