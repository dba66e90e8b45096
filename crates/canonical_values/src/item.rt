//! Values of one type, one after the other.

ghost use Rattle.std.specs.Prelude.{◌≤◌, length};
ghost use Rattle.canonical_values.specs.declared.frame.Left.TheVariants.{Items};
ghost use Rattle.canonical_values.specs.Frames.{Steps, ItemsPassed};

use crate::frame::{Frame, Left, Step, as_step};
use crate::leaf::{is_leaf, leaf_length};
use crate::part::pass_part;
use ice_types::{Schema, TypeRef};

/// The next of so many values, or their end.
pub(crate) fn pass_item(
    schema: &Schema,
    input: &[u8],
    at: usize,
    levels: u32,
    kind: TypeRef,
    count: u32,
) -> Step
    requires { at ≤ length input.now }
    ensures { Steps schema.now input.now at (record { levels = levels; left = Items kind count }) result }
{
    if count == 0 {
        return Step::Done;
    }
    if levels > 0 && is_leaf(kind) {
        let (left, next) = pass_items(schema, input, at, kind, count);
        if left >= count {
            return Step::Stop;
        }
        let left = Left::Items(kind, left);
        return Step::On(next, Frame { levels, left });
    }
    let left = Left::Items(kind, count - 1);
    let part = pass_part(schema, input, at, levels, kind);
    as_step(part, Frame { levels, left })
}

/// How many of so many values without parts are left, and where those end that stand here.
fn pass_items(
    schema: &Schema,
    input: &[u8],
    start: usize,
    kind: TypeRef,
    count: u32,
) -> (u32, usize)
    requires { start ≤ length input.now }
    ensures { ItemsPassed schema.now input.now kind count start result.0 result.1 }
{
    let mut at = start;
    for done in 0..count {
        match leaf_length(schema, kind, &input[at..]) {
            Some(length) => at += length,
            None => return (count - done, at),
        }
    }
    (0, at)
}
