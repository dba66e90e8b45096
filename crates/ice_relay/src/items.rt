//! The line of a sequence, item by item.

ghost use Rattle.std.specs.Prelude.{◌≡◌, ◌<◌, ◌^◌, ◌++◌, List, ℕ, IfOk, IfSome, false};
ghost use Rattle.graph_arena.specs.View.{view};
ghost use Rattle.ice_encoding.specs.Tree.{Tree, Trees, sequence, tree_count};
ghost use Rattle.ice_encoding.specs.Typed.{AllOf};
ghost use Rattle.ice_encoding.specs.Canonical.{canonical};
ghost use Rattle.ice_relay.specs.Items.{AreItems, HasItems, IsItem, IsSequence, TakesItem};
ghost use Rattle.ice_relay.specs.Items.{each_text, item_text, sequence_text};
ghost use Rattle.ice_relay.specs.Pages.{Tells, TellsAll};

use crate::line::{with_comma, with_text};
use crate::page::{ended, turned};
use canonical_inputs::content_of;
use canonical_values::is_canonical;
use graph_arena::Value;
use graph_json::push_item;
use ice_ports::{PortFault, Sink};
use ice_prims::{Cursor, ReadFault};
use ice_types::{Schema, TypeRef};
use ice_values::read_value;
use std::alloc::{AllocError, Global};
use value_parts::Numbers;

/// The type of the items and the content, where the whole input is the canonical encapsulation of a sequence whose
/// items have parts of their own. None where it is not, or that is not told.
pub(crate) fn canonical_sequence<'a>(
    alloc: Global,
    schema: &Schema,
    kind: TypeRef,
    input: &'a [u8],
) -> Option<(TypeRef, &'a [u8])>
    ensures { IfSome result (λ found. IsSequence schema.now kind input.now found.0 found.1.now) }
{
    let element = deep_element(schema, kind)?;
    let content = content_of(input)?;
    if is_canonical(alloc, schema, kind, content) {
        Some((element, content))
    } else {
        None
    }
}

/// The type of the items, where the type is a sequence of structs, sequences or dictionaries.
fn deep_element(schema: &Schema, kind: TypeRef) -> Option<TypeRef>
    ensures { IfSome result (λ element. HasItems schema.now kind element) }
{
    match kind {
        TypeRef::Seq(at) => {
            let element = schema.seqs().get(at as usize)?.element;
            match element {
                TypeRef::Seq(_) | TypeRef::Dict(_) | TypeRef::Struct(_) => Some(element),
                _ => None,
            }
        }
        _ => None,
    }
}

/// Tells the line of the sequence whose canonical content this is. No more than one item is held at a time.
pub(crate) fn tell_sequence<K: Sink>(
    alloc: Global,
    schema: &Schema,
    element: TypeRef,
    content: &[u8],
    sink: &mut K,
) -> Result<(), PortFault>
    ensures { (items : Trees) → AllOf (IsItem schema.now element) items → tree_count items < 2 ^ 31
        → content.now ≡ canonical (sequence items)
        → TellsAll (sequence_text schema.now element items)
        (K.taken sink.old) (K.taken sink.new) (K.failures sink.old) (K.failures sink.new) result }
{
    let page = with_text(Vec::new(alloc), "{\"instances\":[],\"roots\":{\"$value\":[")?;
    let mut cursor = Cursor::new(content);
    match cursor.take_size() {
        Ok(count) => {
            let page = tell_items(page, alloc, schema, element, count, &mut cursor, sink)?;
            ended(with_text(page, "}}\n")?, sink)
        }
        // The content of no sequence.
        Err(_) => Err(PortFault::Memory),
    }
}

/// Tells so many items behind what stands on the page, one after the other, and the end of their array.
fn tell_items<K: Sink>(
    page: Vec<u8>,
    alloc: Global,
    schema: &Schema,
    element: TypeRef,
    count: u32,
    cursor: &mut Cursor<'_>,
    sink: &mut K,
) -> Result<Vec<u8>, PortFault>
    ensures { (items : Trees) → AreItems schema.now element items cursor.old.bytes → tree_count items ≡ count
        → Tells (page.items ++ each_text schema.now element false items)
        (K.taken sink.old) (K.taken sink.new) (K.failures sink.old) (K.failures sink.new) result }
{
    let mut page = page;
    for at in 0..count {
        let longer = with_item(page, alloc, schema, element, at > 0, cursor)?;
        page = turned(longer, sink)?;
    }
    Ok(with_text(page, "]")?)
}

/// The page with the item that stands first, behind a comma where one stands before it.
fn with_item(
    page: Vec<u8>,
    alloc: Global,
    schema: &Schema,
    element: TypeRef,
    later: bool,
    cursor: &mut Cursor<'_>,
) -> Result<Vec<u8>, AllocError>
    ensures { (v : Tree) (rest : List ℕ) → IsItem schema.now element v → cursor.old.bytes ≡ canonical v ++ rest
        → IfOk result (λ longer. (longer.items ≡ page.items ++ item_text schema.now element later v)
        × (cursor.new.bytes ≡ rest)) }
{
    match next_value(alloc, schema, element, cursor) {
        Ok(value) => with_value(page, alloc, schema, element, later, value),
        // Canonical bytes have no fault, so memory ran out.
        Err(_) => Err(AllocError),
    }
}

/// The page with this item, likewise.
fn with_value(
    page: Vec<u8>,
    alloc: Global,
    schema: &Schema,
    element: TypeRef,
    later: bool,
    item: Value,
) -> Result<Vec<u8>, AllocError>
    ensures { IfOk result (λ longer. longer.items ≡ page.items ++ item_text schema.now element later (view item)) }
{
    push_item(with_comma(page, later)?, alloc, schema, element, &item)
}

/// The item that stands first.
fn next_value(
    alloc: Global,
    schema: &Schema,
    element: TypeRef,
    cursor: &mut Cursor<'_>,
) -> Result<Value, ReadFault>
    ensures { (v : Tree) (rest : List ℕ) → IsItem schema.now element v → cursor.old.bytes ≡ canonical v ++ rest
        → TakesItem v rest result cursor.new }
{
    read_value(alloc, schema, element, cursor, &mut Numbers)
}
