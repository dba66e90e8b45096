//! What is left of a value that has begun, and one look at it.

ghost use Rattle.std.specs.Prelude.{◌≡◌, ◌≤◌, length};
ghost use Rattle.canonical_values.specs.Frames.{Steps, as_step};

use crate::item::pass_item;
use crate::member::pass_member;
use crate::pair::pass_pair;
use ice_types::{Schema, TypeRef};

/// The parts that are left of a value.
#[derive(Clone, Copy)]
pub enum Left {
    /// So many values of one type.
    Items(TypeRef, u32),
    /// The members of the struct at this place of the schema, from this one on.
    Members(u32, usize),
    /// So many pairs with keys and values of these types, and where the key before them begins and ends.
    Pairs(TypeRef, TypeRef, u32, Option<(usize, usize)>),
}

/// A value that has begun.
#[derive(Clone, Copy)]
pub struct Frame {
    /// How deep each part nests at most.
    pub levels: u32,
    pub left: Left,
}

/// What stands at a place.
#[derive(Clone, Copy)]
pub enum Part {
    /// A value, which ends here.
    Over(usize),
    /// The front of a value, which ends here, and then what is inside it.
    Into(usize, Frame),
    /// It is not told.
    Stop,
}

/// What one look at a value that has begun comes to.
#[derive(Clone, Copy)]
pub enum Step {
    /// Parts that end here, and then what is left.
    On(usize, Frame),
    /// The front of a part, which ends here, what is left behind that part, and what is inside it.
    Into(usize, Frame, Frame),
    /// Nothing is left.
    Done,
    /// It is not told.
    Stop,
}

/// The next parts of the value that has begun, or its end.
pub(crate) fn pass_next(schema: &Schema, input: &[u8], at: usize, frame: Frame) -> Step
    requires { at ≤ length input.now }
    ensures { Steps schema.now input.now at frame result }
{
    let levels = frame.levels;
    match frame.left {
        Left::Items(kind, count) => pass_item(schema, input, at, levels, kind, count),
        Left::Members(place, next) => pass_member(schema, input, at, levels, place, next),
        Left::Pairs(key, value, count, last) => {
            pass_pair(schema, input, at, levels, (key, value), count, last)
        }
    }
}

/// The step over a part, behind which this is left.
pub(crate) fn as_step(part: Part, rest: Frame) -> Step
    ensures { result ≡ as_step part rest }
{
    match part {
        Part::Over(next) => Step::On(next, rest),
        Part::Into(next, inside) => Step::Into(next, rest, inside),
        Part::Stop => Step::Stop,
    }
}
