//! Keys without parts in order, by their bytes.

ghost use Rattle.std.specs.Prelude.{ℕ, IsTrue};
ghost use Rattle.ice_types.specs.Tables.{Tables};
ghost use Rattle.ice_types.specs.declared.kind.TypeRef.TheVariants as kinds;
ghost use Rattle.canonical_values.specs.Keys.{AreRising};

use crate::front::size_front;
use ice_prims::Cursor;
use ice_types::TypeRef;
use std::cmp::Ordering;

/// Whether the key at the front of the first is below the one at the front of the second. Of keys with parts it is
/// not told.
pub(crate) fn is_simple_below(kind: TypeRef, first: &[u8], second: &[u8]) -> bool
    ensures { IsTrue result → (t : Tables) (levels : ℕ) → AreRising t levels kind first.now second.now }
{
    match kind {
        TypeRef::Bool => is_bool_below(first, second),
        TypeRef::Byte => is_byte_below(first, second),
        TypeRef::Short => is_short_below(first, second),
        TypeRef::Int => is_int_below(first, second),
        TypeRef::Long => is_long_below(first, second),
        TypeRef::Text => is_text_below(first, second),
        TypeRef::Enum(place) => is_enum_below(place, first, second),
        _ => false,
    }
}

fn is_bool_below(first: &[u8], second: &[u8]) -> bool
    ensures { IsTrue result → (t : Tables) (levels : ℕ) → AreRising t levels kinds.Bool first.now second.now }
{
    match (first, second) {
        ([a, ..], [b, ..]) => a < b,
        _ => false,
    }
}

fn is_byte_below(first: &[u8], second: &[u8]) -> bool
    ensures { IsTrue result → (t : Tables) (levels : ℕ) → AreRising t levels kinds.Byte first.now second.now }
{
    match (first, second) {
        ([a, ..], [b, ..]) => a < b,
        _ => false,
    }
}

fn is_short_below(first: &[u8], second: &[u8]) -> bool
    ensures { IsTrue result → (t : Tables) (levels : ℕ) → AreRising t levels kinds.Short first.now second.now }
{
    match (
        Cursor::new(first).take_short(),
        Cursor::new(second).take_short(),
    ) {
        (Ok(a), Ok(b)) => a < b,
        _ => false,
    }
}

fn is_int_below(first: &[u8], second: &[u8]) -> bool
    ensures { IsTrue result → (t : Tables) (levels : ℕ) → AreRising t levels kinds.Int first.now second.now }
{
    match (
        Cursor::new(first).take_int(),
        Cursor::new(second).take_int(),
    ) {
        (Ok(a), Ok(b)) => a < b,
        _ => false,
    }
}

fn is_long_below(first: &[u8], second: &[u8]) -> bool
    ensures { IsTrue result → (t : Tables) (levels : ℕ) → AreRising t levels kinds.Long first.now second.now }
{
    match (
        Cursor::new(first).take_long(),
        Cursor::new(second).take_long(),
    ) {
        (Ok(a), Ok(b)) => a < b,
        _ => false,
    }
}

fn is_text_below(first: &[u8], second: &[u8]) -> bool
    ensures { IsTrue result → (t : Tables) (levels : ℕ) → AreRising t levels kinds.Text first.now second.now }
{
    match (
        Cursor::new(first).take_str(),
        Cursor::new(second).take_str(),
    ) {
        (Ok(a), Ok(b)) => match a.cmp(b) {
            Ordering::Less => true,
            _ => false,
        },
        _ => false,
    }
}

fn is_enum_below(place: u32, first: &[u8], second: &[u8]) -> bool
    ensures { IsTrue result → (t : Tables) (levels : ℕ) → AreRising t levels (kinds.Enum place) first.now second.now }
{
    match (size_front(first), size_front(second)) {
        (Some((a, _)), Some((b, _))) => a < b,
        _ => false,
    }
}
