//! Pairs of a dictionary, one after the other.

ghost use Rattle.std.specs.Prelude.{◌≤◌, length, IfSome};
ghost use Rattle.canonical_values.specs.declared.frame.Left.TheVariants.{Pairs};
ghost use Rattle.canonical_values.specs.Frames.{Steps, KeyFound, key_in};

use crate::below::is_below;
use crate::frame::{Frame, Left, Step, as_step};
use crate::key::key_length;
use crate::part::pass_part;
use ice_types::{Schema, TypeRef};

/// The key of the next of so many pairs and the front of its value, or their end. The key before it stands between
/// these places.
pub(crate) fn pass_pair(
    schema: &Schema,
    input: &[u8],
    at: usize,
    levels: u32,
    kinds: (TypeRef, TypeRef),
    count: u32,
    last: Option<(usize, usize)>,
) -> Step
    requires { at ≤ length input.now }
    ensures { Steps schema.now input.now at (record { levels = levels; left = Pairs kinds.0 kinds.1 count last })
        result }
{
    if count == 0 {
        return Step::Done;
    }
    let (key, value) = kinds;
    let Some(end) = next_key(schema, input, at, levels, key, last) else {
        return Step::Stop;
    };
    let left = Left::Pairs(key, value, count - 1, Some((at, end)));
    let part = pass_part(schema, input, end, levels, value);
    as_step(part, Frame { levels, left })
}

/// Where the key ends that begins here, if it is above the one between these places. None where it is not told.
fn next_key(
    schema: &Schema,
    input: &[u8],
    at: usize,
    levels: u32,
    key: TypeRef,
    last: Option<(usize, usize)>,
) -> Option<usize>
    requires { at ≤ length input.now }
    ensures { IfSome result (λ end. KeyFound schema.now input.now levels key (key_in input.now last) at end) }
{
    let length = key_length(schema, levels, key, &input[at..])?;
    let end = at + length;
    if let Some((start, stop)) = last {
        let before = input.get(start..stop)?;
        if !is_below(schema, levels, key, before, &input[at..end]) {
            return None;
        }
    }
    Some(end)
}
