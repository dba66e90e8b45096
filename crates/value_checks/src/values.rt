//! Whether a value is of a type, by its form. (Ice manual, "Data Encoding".)

ghost use Rattle.std.specs.Prelude.{◌≡◌, ◌<◌, ◌^◌, ◌↔◌, FitsSigned, IsTrue, ℕ, Option, map};
ghost use Rattle.std.specs.Int.{w16, w32, w64};
ghost use Rattle.ice_types.specs.declared.kind.TypeRef.TheVariants as kinds;
ghost use Rattle.ice_types.specs.declared.schema.TheConstants.{MOST_DEPTH};
ghost use Rattle.ice_encoding.specs.Proxy as parts;
ghost use Rattle.ice_encoding.specs.Tree.{dictionary, sequence, struct};
ghost use Rattle.ice_encoding.specs.Typed.{AllOf, EachOf, HasType, PairsOf, no_reference};
ghost use Rattle.graph_arena.specs.View.{byte_trees, unboxed, view, view_all, view_pairs};
ghost use Rattle.value_checks.specs.Forms.{HasForm, IsEnumerator};
ghost use Rattle.value_checks.specs.References.{AnyRefers, IsHeldBy, MayStand, most_of};

use crate::proxies::{is_proxy, is_size, is_text};
use crate::references::References;
use graph_arena::{Value, is_rising};
use ice_types::{MOST_DEPTH, Member, Proxy, Schema, TypeRef};
use value_parts::has_number;

/// Whether a value is of the type, by its form: each size is at most the greatest int, the keys of each
/// dictionary rise, each enumerator is one of its enum, and each proxy can be written. Any reference may
/// stand where a class is declared. It takes no memory. (Ice manual, "Data Encoding".)
pub fn fits(schema: &Schema, kind: TypeRef, value: &Value) -> bool
    ensures { IsTrue result ↔ HasType schema.now AnyRefers MOST_DEPTH kind (view value.now) }
{
    is_of(schema, References::Any, MOST_DEPTH, kind, value)
}

/// Whether a value is of the type, which nests at most so deep.
#[cycle(walk)]
pub(crate) fn is_of(
    schema: &Schema,
    references: References<'_>,
    levels: u32,
    kind: TypeRef,
    value: &Value,
) -> bool
    ensures { IsTrue result ↔ HasType schema.now (MayStand schema.now references.entry) levels kind (view value.now) }
{
    levels > 0 && has_form(schema, references, levels - 1, kind, value)
}

/// The same of a type whose parts nest at most so deep.
#[cycle(walk)]
fn has_form(
    schema: &Schema,
    references: References<'_>,
    levels: u32,
    kind: TypeRef,
    value: &Value,
) -> bool
    ensures { IsTrue result ↔ HasForm schema.now (MayStand schema.now references.entry) levels kind (view value.now) }
{
    match value {
        Value::Bool(_) => kind == TypeRef::Bool,
        Value::Byte(number) => is_byte(kind, *number),
        Value::Short(number) => is_short(kind, *number),
        Value::Int(number) => is_int(kind, *number),
        Value::Long(number) => is_long(kind, *number),
        Value::Text(text) => kind == TypeRef::Text && is_text(text),
        Value::Enum(number) => is_enumerator(schema, kind, *number),
        Value::Proxy(proxy) => is_proxy_of(references, kind, proxy),
        Value::Reference(name) => is_reference(schema, references, kind, *name),
        Value::Seq(items) => is_sequence(schema, references, levels, kind, items.as_slice()),
        Value::Bytes(bytes) => is_bytes(schema, levels, kind, bytes.as_slice()),
        Value::Pairs(pairs) => is_dictionary(schema, references, levels, kind, pairs.as_slice()),
        Value::Members(items) => is_struct(schema, references, levels, kind, items.as_slice()),
    }
}

/// Each number of eight bits is a byte.
fn is_byte(kind: TypeRef, number: u8) -> bool
    ensures { IsTrue result ↔ ((kind ≡ kinds.Byte) × (number < 256)) }
{
    let _ = number;
    kind == TypeRef::Byte
}

fn is_short(kind: TypeRef, number: i16) -> bool
    ensures { IsTrue result ↔ ((kind ≡ kinds.Short) × FitsSigned w16 number) }
{
    let _ = number;
    kind == TypeRef::Short
}

fn is_int(kind: TypeRef, number: i32) -> bool
    ensures { IsTrue result ↔ ((kind ≡ kinds.Int) × FitsSigned w32 number) }
{
    let _ = number;
    kind == TypeRef::Int
}

fn is_long(kind: TypeRef, number: i64) -> bool
    ensures { IsTrue result ↔ ((kind ≡ kinds.Long) × FitsSigned w64 number) }
{
    let _ = number;
    kind == TypeRef::Long
}

/// Whether the enum has the number, and a size can say it.
fn is_enumerator(schema: &Schema, kind: TypeRef, number: u32) -> bool
    ensures { IsTrue result ↔ IsEnumerator schema.now kind number }
{
    let TypeRef::Enum(at) = kind else {
        return false;
    };
    match schema.enums().get(at as usize) {
        Some(decl) => is_size(number as usize) && has_number(decl.entries.as_slice(), number),
        None => false,
    }
}

/// Null or a proxy, where a proxy is declared.
fn is_proxy_of(references: References<'_>, kind: TypeRef, proxy: &Option<Box<Proxy>>) -> bool
    ensures { IsTrue result ↔ (at : Option ℕ) × (kind ≡ kinds.Proxy at)
        × (parts.proxy_to (most_of references.entry)).Is (unboxed proxy.now) }
{
    match kind {
        TypeRef::Proxy(_) => is_some_proxy(proxy, references.most()),
        _ => false,
    }
}

/// Null, or a proxy that can be written, with endpoints up to this size.
fn is_some_proxy(proxy: &Option<Box<Proxy>>, most: usize) -> bool
    requires { most < 2 ^ 31 }
    ensures { IsTrue result ↔ (parts.proxy_to most).Is (unboxed proxy.now) }
{
    match proxy {
        Some(proxy) => is_proxy(proxy, most),
        None => true,
    }
}

/// Whether a class is declared, and the reference may stand there.
fn is_reference(
    schema: &Schema,
    references: References<'_>,
    kind: TypeRef,
    name: Option<u32>,
) -> bool
    ensures { IsTrue result ↔ (declared : Option ℕ) × (kind ≡ kinds.Class declared)
        × IsHeldBy schema.now references.entry declared name }
{
    match kind {
        TypeRef::Class(declared) => references.hold(schema, declared, name),
        _ => false,
    }
}

#[cycle(walk)]
#[tactic(auto, using(graph_arena::proofs::Shapes::count_all))]
fn is_sequence(
    schema: &Schema,
    references: References<'_>,
    levels: u32,
    kind: TypeRef,
    items: &[Value],
) -> bool
    ensures { IsTrue result ↔ HasForm schema.now (MayStand schema.now references.entry) levels kind
        (sequence (view_all items.now)) }
{
    let TypeRef::Seq(at) = kind else {
        return false;
    };
    let Some(decl) = schema.seqs().get(at as usize) else {
        return false;
    };
    is_size(items.len()) && are_of(schema, references, levels, decl.element, items)
}

/// The same of bytes, of which none is a reference.
fn is_bytes(schema: &Schema, levels: u32, kind: TypeRef, bytes: &[u8]) -> bool
    ensures { IsTrue result ↔ HasForm schema.now no_reference levels kind (sequence (byte_trees bytes.now)) }
{
    let TypeRef::Seq(at) = kind else {
        return false;
    };
    let Some(decl) = schema.seqs().get(at as usize) else {
        return false;
    };
    is_size(bytes.len()) && (bytes.is_empty() || is_byte_type(levels, decl.element))
}

/// Whether bytes are of the type, where so many levels are left. It takes no memory.
pub fn is_byte_type(levels: u32, kind: TypeRef) -> bool
    ensures { IsTrue result ↔ ((0 < levels) × (kind ≡ kinds.Byte)) }
{
    levels > 0 && kind == TypeRef::Byte
}

/// Whether each item is of the type.
#[cycle(walk)]
fn are_of(
    schema: &Schema,
    references: References<'_>,
    levels: u32,
    kind: TypeRef,
    items: &[Value],
) -> bool
    ensures { IsTrue result ↔ AllOf (HasType schema.now (MayStand schema.now references.entry) levels kind)
        (view_all items.now) }
{
    for item in items {
        if !is_of(schema, references, levels, kind, item) {
            return false;
        }
    }
    true
}

#[cycle(walk)]
#[tactic(auto, using(graph_arena::proofs::Shapes::count_pairs))]
fn is_dictionary(
    schema: &Schema,
    references: References<'_>,
    levels: u32,
    kind: TypeRef,
    pairs: &[(Value, Value)],
) -> bool
    ensures { IsTrue result ↔ HasForm schema.now (MayStand schema.now references.entry) levels kind
        (dictionary (view_pairs pairs.now)) }
{
    let TypeRef::Dict(at) = kind else {
        return false;
    };
    let Some(decl) = schema.dicts().get(at as usize) else {
        return false;
    };
    if !is_size(pairs.len()) || !is_rising(pairs) {
        return false;
    }
    are_pairs_of(schema, references, levels, (decl.key, decl.value), pairs)
}

/// Whether each key and each value is of its type. No reference stands in a key.
#[cycle(walk)]
fn are_pairs_of(
    schema: &Schema,
    references: References<'_>,
    levels: u32,
    kinds: (TypeRef, TypeRef),
    pairs: &[(Value, Value)],
) -> bool
    ensures { IsTrue result ↔ PairsOf (HasType schema.now no_reference levels kinds.0)
        (HasType schema.now (MayStand schema.now references.entry) levels kinds.1) (view_pairs pairs.now) }
{
    for pair in pairs {
        if !is_of(schema, References::No, levels, kinds.0, &pair.0)
            || !is_of(schema, references, levels, kinds.1, &pair.1)
        {
            return false;
        }
    }
    true
}

#[cycle(walk)]
fn is_struct(
    schema: &Schema,
    references: References<'_>,
    levels: u32,
    kind: TypeRef,
    items: &[Value],
) -> bool
    ensures { IsTrue result ↔ HasForm schema.now (MayStand schema.now references.entry) levels kind
        (struct (view_all items.now)) }
{
    let TypeRef::Struct(at) = kind else {
        return false;
    };
    match schema.structs().get(at as usize) {
        Some(decl) => are_members(schema, references, levels, decl.members.as_slice(), items),
        None => false,
    }
}

/// Whether they are values of these members, one after the other.
#[cycle(walk)]
fn are_members(
    schema: &Schema,
    references: References<'_>,
    levels: u32,
    members: &[Member],
    items: &[Value],
) -> bool
    ensures { IsTrue result ↔ EachOf (HasType schema.now (MayStand schema.now references.entry) levels)
        (map (λ m. m.kind) members.now) (view_all items.now) }
{
    for (at, item) in items.iter().enumerate() {
        let Some(member) = members.get(at) else {
            return false;
        };
        if !is_of(schema, references, levels, member.kind, item) {
            return false;
        }
    }
    items.len() == members.len()
}
