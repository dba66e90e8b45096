//! One slice of an instance, up to the entries of its table.

ghost use Rattle.std.specs.Prelude.{◌≡◌, ◌≤◌, ◌==◌, ◌%◌, IfSome, length, not};
ghost use Rattle.ice_prims.specs.Laws.{any};
ghost use Rattle.canonical_values.specs.Fronts.{IsFront};
ghost use Rattle.canonical_inputs.specs.Heads.{sized_flags};
ghost use Rattle.canonical_inputs.specs.Slices.{SliceFound, table_size};

use crate::front::{count_front, size_front};
use crate::head::{Head, pass_head};
use crate::member::pass_members;
use ice_types::Schema;
use std::alloc::Global;

/// A slice of a class.
#[derive(Drop)]
pub struct Passed {
    pub class: u32,
    /// The class that it extends.
    pub base: Option<u32>,
    /// The class that is declared at each place of its table.
    pub needs: Vec<Option<u32>>,
    /// Where its table's entries begin.
    pub end: usize,
}

/// A slice, where the classes of the type ids before it that stood as texts are these. None where it is not told.
pub(crate) fn pass_slice(
    alloc: Global,
    schema: &Schema,
    input: &[u8],
    at: usize,
    ids: &mut Vec<u32>,
) -> Option<Passed>
    requires { at ≤ length input.now }
    ensures { IfSome result (λ slice. SliceFound schema.now input.now at ids.old.items ids.new.items slice) }
{
    let head = pass_head(schema, input, at, ids)?;
    let decl = schema.classes().get(head.class as usize)?;
    let size = count_front(&input[head.end..])?;
    let start = head.end + 4;
    let mut needs = Vec::new(alloc);
    let length = pass_members(
        alloc,
        schema,
        decl.members.as_slice(),
        &input[start..],
        &mut needs,
    )?;
    if size != length + 4 {
        return None;
    }
    if !are_flags(head, needs.is_empty(), decl.base.is_none()) {
        return None;
    }
    let front = start + length;
    let taken = table_front(&input[front..], needs.len())?;
    Some(Passed {
        class: head.class,
        base: decl.base,
        needs,
        end: front + taken,
    })
}

/// Whether the flags are those of a slice with a size and no optional members.
fn are_flags(head: Head, is_bare: bool, is_last: bool) -> bool
    ensures { result ≡ (head.flags == sized_flags (head.flags % 4) (not is_bare) is_last) }
{
    let table = if is_bare { 0 } else { 8 };
    let last = if is_last { 32 } else { 0 };
    head.flags == head.flags % 4 + 16 + table + last
}

/// How many bytes at the front are those that stand before the entries of a table of so many: their number, where there
/// is any entry. None where others stand there.
fn table_front(bytes: &[u8], many: usize) -> Option<usize>
    ensures { IfSome result (λ n. IsFront any table_size bytes.now many n) }
{
    if many == 0 {
        return Some(0);
    }
    match size_front(bytes) {
        Some((count, taken)) if count as usize == many => Some(taken),
        _ => None,
    }
}
