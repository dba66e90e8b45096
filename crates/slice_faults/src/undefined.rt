//! Classes that are never defined.

ghost use Rattle.std.specs.Prelude.{◌≡◌, ◌<◌, ◌≤◌, length, [], ◌∷◌, Option, None, Some, Bool, not, filter, option_map};
ghost use Rattle.slice_meaning.specs.Names.{Declared};
ghost use Rattle.slice_meaning.specs.Meaning.{is_undefined, undefined};
ghost use Rattle.slice_meaning.specs.Checking.{stands_before, earlier};
ghost use Rattle.slice_meaning.specs.Numbers.{declared_at};
ghost use Rattle.slice_meaning.specs.Numbers.{stands_at};
ghost use Rattle.slice_faults.specs.Held.{known_of};

use crate::known::Known;
use ice_types::TypeRef;
use slice_meaning::Standing;

/// The file and the place of the first declaration of a class that is never defined.
pub(crate) fn first_undefined(known: &Known) -> Option<(u32, u32)>
    ensures { result ≡ option_map stands_at (earlier None (undefined (known_of known.now))) }
{
    let mut first = None;
    let mut number = known.names.len();
    while number != 0 {
        first = with_class(known, number, first);
        number -= 1;
    }
    first
}

/// The first one of a class and of the declaration of a number, where that is of a class that is never defined.
fn with_class(known: &Known, number: usize, first: Option<(u32, u32)>) -> Option<(u32, u32)>
    requires inner { 0 < number }
    requires within { number ≤ length known.now.names }
    ensures { (e : Option Declared) (d : Declared) → declared_at known.now.names number ≡ Some d
        → first ≡ option_map stands_at e
        → result ≡ option_map stands_at (earlier e (filter (is_undefined (known_of known.now).tables) (d ∷ []))) }
{
    if is_undefined(known, known.names.standing(number)) {
        Some(sooner(first, known.names.place(number)))
    } else {
        first
    }
}

/// The one of two places that comes first.
fn sooner(first: Option<(u32, u32)>, other: (u32, u32)) -> (u32, u32)
    ensures { (e : Option Declared) (d : Declared) → first ≡ option_map stands_at e → other ≡ stands_at d
        → Some result ≡ option_map stands_at (earlier e (d ∷ [])) }
{
    match first {
        Some(first) if first.0 < other.0 || (first.0 == other.0 && first.1 <= other.1) => first,
        _ => other,
    }
}

/// Whether the name stands for a class that is not defined.
fn is_undefined(known: &Known, standing: Standing) -> bool
    ensures { (d : Declared) → d.standing ≡ standing → result ≡ is_undefined (known_of known.now).tables d }
{
    match standing {
        Standing::Type(TypeRef::Class(Some(at))) => !known.rows.is_class_defined(at),
        _ => false,
    }
}
