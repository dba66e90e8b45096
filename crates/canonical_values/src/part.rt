//! A value that begins at a place.

ghost use Rattle.std.specs.Prelude.{◌≤◌, ℕ, List, suc, length};
ghost use Rattle.ice_types.specs.declared.kind.TypeRef.TheVariants as kinds;
ghost use Rattle.canonical_values.specs.Frames.{PartFound};

use crate::frame::{Frame, Left, Part};
use crate::front::size_front;
use crate::leaf::leaf_length;
use crate::row::row_length;
use ice_types::{Schema, TypeRef};

/// A value of the type, which nests at most so deep.
pub(crate) fn pass_part(
    schema: &Schema,
    input: &[u8],
    at: usize,
    levels: u32,
    kind: TypeRef,
) -> Part
    requires { at ≤ length input.now }
    ensures { PartFound schema.now input.now levels kind at result }
{
    if levels == 0 {
        return Part::Stop;
    }
    match kind {
        TypeRef::Seq(place) => sequence(schema, input, at, levels - 1, place),
        TypeRef::Dict(place) => dictionary(schema, input, at, levels - 1, place),
        TypeRef::Struct(place) => structure(schema, at, levels - 1, place),
        _ => match leaf_length(schema, kind, &input[at..]) {
            Some(length) => Part::Over(at + length),
            None => Part::Stop,
        },
    }
}

/// A struct, whose members nest at most so deep.
fn structure(schema: &Schema, at: usize, levels: u32, place: u32) -> Part
    ensures { (input : List ℕ) → at ≤ length input
        → PartFound schema.now input (suc levels) (kinds.Struct place) at result }
{
    match schema.structs().get(place as usize) {
        Some(_) => {
            let left = Left::Members(place, 0);
            Part::Into(at, Frame { levels, left })
        }
        None => Part::Stop,
    }
}

/// A sequence, whose items nest at most so deep: of rows of numbers whole, else its size.
fn sequence(schema: &Schema, input: &[u8], at: usize, levels: u32, place: u32) -> Part
    requires { at ≤ length input.now }
    ensures { PartFound schema.now input.now (suc levels) (kinds.Seq place) at result }
{
    let Some(decl) = schema.seqs().get(place as usize) else {
        return Part::Stop;
    };
    let Some((count, taken)) = size_front(&input[at..]) else {
        return Part::Stop;
    };
    let next = at + taken;
    match row_length(schema, decl.element) {
        Some(row) if levels >= 2 => {
            let length = count as usize * row;
            if input.len() - next < length {
                return Part::Stop;
            }
            Part::Over(next + length)
        }
        _ => {
            let left = Left::Items(decl.element, count);
            Part::Into(next, Frame { levels, left })
        }
    }
}

/// A dictionary, whose keys and values nest at most so deep: its size.
fn dictionary(schema: &Schema, input: &[u8], at: usize, levels: u32, place: u32) -> Part
    requires { at ≤ length input.now }
    ensures { PartFound schema.now input.now (suc levels) (kinds.Dict place) at result }
{
    let Some(decl) = schema.dicts().get(place as usize) else {
        return Part::Stop;
    };
    let Some((count, taken)) = size_front(&input[at..]) else {
        return Part::Stop;
    };
    let left = Left::Pairs(decl.key, decl.value, count, None);
    Part::Into(at + taken, Frame { levels, left })
}
