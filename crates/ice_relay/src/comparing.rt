//! Whether two encapsulations hold the same graph.

ghost use Rattle.std.specs.Prelude.{◌≤◌, Ok, IfSome, length};
ghost use Rattle.ice_relay.specs.Comparing.{Compares};

use crate::fault::RelayFault;
use crate::relay::root_of;
use canonical_inputs::is_canonical_input;
use class_slices::{Format, decode_rest, encode_typed, take_graph};
use ice_prims::Cursor;
use ice_types::{Schema, TypeRef};
use std::alloc::Global;
use value_parts::DeclaredMembers;

/// The most bytes of a canonical encapsulation that is compared.
pub const MOST_COMPARED: usize = 2_147_483_647;

/// Whether the two values that the whole input holds, one encapsulation after the other, are the same with
/// all instances that they lead to, however these are named; or the first fault from the left; or the length of the
/// first of their canonical encapsulations that has more than 2,147,483,647 bytes.
/// (Ice manual, "Data Encoding for Class and Exception Types".)
pub fn are_same(
    alloc: Global,
    schema: &Schema,
    kind: TypeRef,
    input: &[u8],
) -> Result<bool, RelayFault>
    ensures { Compares schema.now kind input.now result }
{
    match told_by_bytes(alloc, schema, kind, input) {
        Some(same) => Ok(same),
        None => told_by_graphs(alloc, schema, kind, input),
    }
}

/// The same of two encapsulations that are canonical already. None where that is not told of both.
fn told_by_bytes(alloc: Global, schema: &Schema, kind: TypeRef, input: &[u8]) -> Option<bool>
    ensures { IfSome result (λ same. Compares schema.now kind input.now (Ok same)) }
{
    let length = claimed_length(input)?;
    let first = &input[..length];
    let second = &input[length..];
    if !is_canonical_input(alloc, schema, kind, first) {
        return None;
    }
    // Their contract says what every schema keeps.
    schema.rules();
    if first == second {
        Some(true)
    } else if is_canonical_input(alloc, schema, kind, second) {
        Some(false)
    } else {
        None
    }
}

/// How many bytes the encapsulation claims at the front. None where the input has fewer.
fn claimed_length(input: &[u8]) -> Option<usize>
    ensures { IfSome result (λ n. n ≤ length input.now) }
{
    match Cursor::new(input).take_int() {
        Ok(size) if size >= 0 && size as usize <= input.len() => Some(size as usize),
        _ => None,
    }
}

/// The same of any input, by way of the graphs.
fn told_by_graphs(
    alloc: Global,
    schema: &Schema,
    kind: TypeRef,
    input: &[u8],
) -> Result<bool, RelayFault>
    ensures { Compares schema.now kind input.now result }
{
    let root = [root_of(alloc, kind)?];
    let fields = DeclaredMembers {
        required: &root,
        optional: &[],
    };
    let mut cursor = Cursor::new(input);
    let first = take_graph(alloc, schema, fields, &mut cursor)?;
    let second = decode_rest(alloc, schema, fields, cursor)?;
    schema.rules();
    let first = encode_typed(
        alloc,
        schema,
        fields,
        first,
        Format::Sliced,
        MOST_COMPARED as u32,
    )?;
    let second = encode_typed(
        alloc,
        schema,
        fields,
        second,
        Format::Sliced,
        MOST_COMPARED as u32,
    )?;
    Ok(first.as_slice() == second.as_slice())
}
