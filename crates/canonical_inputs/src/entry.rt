//! An entry of a table: an instance that has begun, or the next one. (Ice manual, "Data Encoding for Class and
//! Exception Types".)

ghost use Rattle.std.specs.Prelude.{◌≡◌, ◌≤◌, IsTrue, length, true, Some, suc};
ghost use Rattle.ice_prims.specs.Bytes.{size_bytes};
ghost use Rattle.ice_encoding.specs.Instances.{class_fits};
ghost use Rattle.canonical_values.specs.Frames.{Passes};
ghost use Rattle.canonical_inputs.specs.Fitting.{IsAbove};
ghost use Rattle.canonical_inputs.specs.Frames.{Steps};
ghost use Rattle.canonical_inputs.specs.Looks.{IsNext, frame_of};

use crate::frame::{Frame, Met, Step};
use crate::front::size_front;
use crate::slice::{Passed, pass_slice};
use ice_types::Schema;
use std::alloc::Global;

/// The most instances that may begin.
pub const MOST_INSTANCES: usize = 100_000;

/// The next entry of a table.
pub(crate) fn pass_entry(
    alloc: Global,
    schema: &Schema,
    input: &[u8],
    at: usize,
    met: &mut Met,
    frame: &mut Frame,
) -> Step
    requires { at ≤ length input.now }
    ensures { Steps schema.now input.now at met.old frame.old met.new frame.new result }
{
    let Some((size, taken)) = size_front(&input[at..]) else {
        return Step::Stop;
    };
    match size {
        0 => Step::Stop,
        1 => begin(alloc, schema, input, at, at + taken, met, frame),
        _ => go_back(schema, input, at, at + taken, size - 2, met, frame),
    }
}

/// The number of an instance that has begun.
fn go_back(
    schema: &Schema,
    input: &[u8],
    at: usize,
    end: usize,
    name: u32,
    met: &Met,
    frame: &mut Frame,
) -> Step
    requires { Passes schema.now input.now at end (size_bytes (suc (suc name))) }
    ensures { Steps schema.now input.now at met.now frame.old met.now frame.new result }
{
    let Some(class) = met.classes.get(name as usize) else {
        return Step::Stop;
    };
    if !is_next(schema, frame, name, *class) {
        return Step::Stop;
    }
    frame.next += 1;
    frame.last = Some(name);
    Step::On(end)
}

/// An instance that begins, up to the entries of the table of its first slice.
fn begin(
    alloc: Global,
    schema: &Schema,
    input: &[u8],
    at: usize,
    front: usize,
    met: &mut Met,
    frame: &mut Frame,
) -> Step
    requires { Passes schema.now input.now at front (size_bytes 1) }
    ensures { Steps schema.now input.now at met.old frame.old met.new frame.new result }
{
    let number = met.classes.len();
    if frame.depth == 0 || number >= MOST_INSTANCES {
        return Step::Stop;
    }
    let name = number as u32;
    let Some(slice) = pass_slice(alloc, schema, input, front, &mut met.ids) else {
        return Step::Stop;
    };
    if !is_next(schema, frame, name, slice.class) {
        return Step::Stop;
    }
    if met.classes.push(slice.class).is_err() {
        return Step::Stop;
    }
    frame.next += 1;
    frame.last = Some(name);
    Step::Into(slice.end, frame_of(frame.depth - 1, slice))
}

/// The slice of a base, up to the entries of its table.
pub(crate) fn pass_base(
    alloc: Global,
    schema: &Schema,
    input: &[u8],
    at: usize,
    met: &mut Met,
    class: u32,
    frame: &mut Frame,
) -> Step
    requires place { at ≤ length input.now }
    requires base { frame.old.base ≡ Some class }
    requires entry { length frame.old.needs.items ≤ frame.old.next }
    ensures { Steps schema.now input.now at met.old frame.old met.new frame.new result }
{
    let Some(slice) = pass_slice(alloc, schema, input, at, &mut met.ids) else {
        return Step::Stop;
    };
    if slice.class != class {
        return Step::Stop;
    }
    let end = slice.end;
    *frame = frame_of(frame.depth, slice);
    Step::On(end)
}

/// What is left of an instance behind the front of a slice.
fn frame_of(depth: u32, slice: Passed) -> Frame
    ensures { result ≡ frame_of depth slice }
{
    Frame {
        depth,
        needs: slice.needs,
        next: 0,
        last: None,
        base: slice.base,
    }
}

/// Whether an instance of this number and class may be the next entry.
fn is_next(schema: &Schema, frame: &Frame, name: u32, class: u32) -> bool
    ensures { IsTrue result → IsNext schema.now frame.now name class }
{
    match frame.needs.get(frame.next) {
        Some(need) if is_above(frame.last, name) => fits(schema, *need, class),
        _ => false,
    }
}

/// Whether the number is above the one before it.
fn is_above(last: Option<u32>, name: u32) -> bool
    ensures { IsTrue result → IsAbove last name }
{
    match last {
        Some(last) => last < name,
        None => true,
    }
}

/// Whether an instance of the class may stand where this one is declared.
fn fits(schema: &Schema, declared: Option<u32>, class: u32) -> bool
    ensures { IsTrue result → class_fits schema.now declared (Some class) ≡ true }
{
    schema.rules();
    match declared {
        Some(base) => schema.is_a(class, base),
        None => true,
    }
}
