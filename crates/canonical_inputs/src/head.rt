//! The flags and the id of a slice: a type id as a text where it stands first, then as its index; a compact id as the
//! number. (Ice manual, "Data Encoding for Class and Exception Types", "Compact Type IDs".)

ghost use Rattle.std.specs.Prelude.{◌≡◌, ◌≤◌, ℕ, List, IfSome, length};
ghost use Rattle.ice_encoding.specs.Flags.{as_text, as_index, as_number};
ghost use Rattle.canonical_inputs.specs.Heads.{FormFound, HeadFound, IdFound, number_place};

use crate::front::size_front;
use ice_prims::Cursor;
use ice_types::Schema;

/// The most classes whose type ids are looked for among those that stood as texts.
pub const MOST_IDS: usize = 256;

/// The flags and the id of a slice.
#[derive(Clone, Copy)]
pub struct Head {
    pub flags: u8,
    pub class: u32,
    /// Where it ends.
    pub end: usize,
}

/// The flags and the id of a slice of a class of the schema, where the classes of the type ids before it that stood as
/// texts are these. None where it is not told.
pub(crate) fn pass_head(
    schema: &Schema,
    input: &[u8],
    at: usize,
    ids: &mut Vec<u32>,
) -> Option<Head>
    requires { at ≤ length input.now }
    ensures { IfSome result (λ head. HeadFound schema.now input.now at ids.old.items ids.new.items head) }
{
    let flags = *input.get(at)?;
    let (class, end) = pass_id(schema, input, at + 1, flags % 4, ids)?;
    Some(Head { flags, class, end })
}

/// The class of an id in the form that these bits of the flags say, and where it ends.
fn pass_id(
    schema: &Schema,
    input: &[u8],
    at: usize,
    bits: u8,
    ids: &mut Vec<u32>,
) -> Option<(u32, usize)>
    requires { at ≤ length input.now }
    ensures { IfSome result (λ id. FormFound schema.now input.now bits at ids.old.items ids.new.items id.0 id.1) }
{
    match bits {
        1 => text_id(schema, input, at, ids),
        2 => index_id(schema, input, at, ids.as_slice()),
        3 => number_id(schema, input, at),
        _ => None,
    }
}

/// The class of a type id that stands as a text for the first time, and where it ends.
fn text_id(schema: &Schema, input: &[u8], at: usize, ids: &mut Vec<u32>) -> Option<(u32, usize)>
    requires { at ≤ length input.now }
    ensures { IfSome result (λ id. IdFound schema.now input.now as_text at ids.old.items ids.new.items id.0 id.1) }
{
    schema.rules();
    let mut cursor = Cursor::new(&input[at..]);
    let Ok(text) = cursor.take_str() else {
        return None;
    };
    let end = input.len() - cursor.left();
    let class = schema.class(text)?;
    let decl = schema.classes().get(class as usize)?;
    if decl.compact.is_some()
        || ids.len() >= MOST_IDS
        || place_of(ids.as_slice(), class).is_some()
    {
        return None;
    }
    match ids.push(class) {
        Ok(()) => Some((class, end)),
        Err(_) => None,
    }
}

/// The class of the type id of an index, and where that ends.
fn index_id(schema: &Schema, input: &[u8], at: usize, ids: &[u32]) -> Option<(u32, usize)>
    requires { at ≤ length input.now }
    ensures { IfSome result (λ id. IdFound schema.now input.now as_index at ids.now ids.now id.0 id.1) }
{
    schema.rules();
    let (index, taken) = size_front(&input[at..])?;
    if index == 0 {
        return None;
    }
    let class = *ids.get(index as usize - 1)?;
    let decl = schema.classes().get(class as usize)?;
    if decl.compact.is_some() {
        return None;
    }
    match place_of(ids, class) {
        Some(place) if place == index as usize - 1 => Some((class, at + taken)),
        _ => None,
    }
}

/// The class of a compact id, and where that ends.
fn number_id(schema: &Schema, input: &[u8], at: usize) -> Option<(u32, usize)>
    requires { at ≤ length input.now }
    ensures { IfSome result (λ id. (ids : List ℕ) → IdFound schema.now input.now as_number at ids ids id.0 id.1) }
{
    schema.rules();
    let (number, taken) = size_front(&input[at..])?;
    let class = schema.class_numbered(number)?;
    Some((class, at + taken))
}

/// Where the class stands first among these.
fn place_of(ids: &[u32], class: u32) -> Option<usize>
    ensures { result ≡ number_place ids.now class }
{
    ids.iter().position(|id| *id == class)
}
