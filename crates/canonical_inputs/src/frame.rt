//! What is left of an instance that has begun, and one look at it.

ghost use Rattle.std.specs.Prelude.{◌≤◌, length};
ghost use Rattle.canonical_inputs.specs.Frames.{Steps};

use crate::entry::{pass_base, pass_entry};
use ice_types::Schema;
use std::alloc::Global;

/// What has been met up to a place.
#[derive(Drop)]
pub struct Met {
    /// The class of each instance that has begun, by number.
    pub classes: Vec<u32>,
    /// The classes of the type ids that stood as texts.
    pub ids: Vec<u32>,
}

/// What is left of an instance: the entries of a table from one on, and the slices of its bases.
#[derive(Drop)]
pub struct Frame {
    /// How deep instances may be in one another from here on.
    pub depth: u32,
    /// The class that is declared at each place of the table.
    pub needs: Vec<Option<u32>>,
    /// The first entry that is left.
    pub next: usize,
    /// What the entry before it names.
    pub last: Option<u32>,
    /// The class of the next slice.
    pub base: Option<u32>,
}

/// What one look at an instance that has begun comes to.
#[derive(Drop)]
pub enum Step {
    /// Parts that end here.
    On(usize),
    /// The front of an instance, which ends here, and what is left of it.
    Into(usize, Frame),
    /// Nothing is left.
    Done,
    /// It is not told.
    Stop,
}

/// The next parts of the instance that has begun, or its end. The frame becomes what is left behind them.
pub(crate) fn pass_next(
    alloc: Global,
    schema: &Schema,
    input: &[u8],
    at: usize,
    met: &mut Met,
    frame: &mut Frame,
) -> Step
    requires { at ≤ length input.now }
    ensures { Steps schema.now input.now at met.old frame.old met.new frame.new result }
{
    if frame.next < frame.needs.len() {
        return pass_entry(alloc, schema, input, at, met, frame);
    }
    match frame.base {
        Some(class) => pass_base(alloc, schema, input, at, met, class, frame),
        None => Step::Done,
    }
}
