//! Classes of both schemas, by their type ids.

ghost use Rattle.std.specs.Prelude.{◌↔◌, ℕ, IsTrue, List, MatchOption};
ghost use Rattle.ice_types.specs.Inherited.{IsA};
ghost use Rattle.ice_types.specs.Tables.{HasId, class_ids};
ghost use Rattle.slice_compat.specs.Reading.{IsBelow, ReadsClass};

use ice_types::Schema;

/// Whether an instance that stands at a place of the first class may stand at a place of the second.
pub(crate) fn reads_class(old: &Schema, new: &Schema, own: Option<u32>, class: Option<u32>) -> bool
    ensures { IsTrue result ↔ ReadsClass old.now new.now own class }
{
    let Some(base) = class else {
        return true;
    };
    match own {
        Some(at) => is_below(old, new, at, base),
        None => false,
    }
}

/// Whether the new schema has the class by its type id, and there it is the other or derived from it.
fn is_below(old: &Schema, new: &Schema, own: u32, base: u32) -> bool
    ensures { IsTrue result ↔ IsBelow old.now new.now own base }
{
    match class_id(old, own) {
        Some(id) => is_named_below(new, id, base),
        None => false,
    }
}

/// The type id of the class at a place, None where no class is.
fn class_id(schema: &Schema, at: u32) -> Option<&str>
    ensures { MatchOption result
        ((id : List ℕ) → HasId (class_ids schema.now) id at → ⊥) (λ id. HasId (class_ids schema.now) id.now at) }
{
    Some(schema.classes().get(at as usize)?.id.as_str())
}

/// Whether a class of this type id is there, and is the other or derived from it.
fn is_named_below(schema: &Schema, id: &str, base: u32) -> bool
    ensures { IsTrue result ↔ ((c : ℕ) × HasId (class_ids schema.now) id.now c × IsA schema.now.classes c base) }
{
    schema.rules();
    match schema.class(id) {
        Some(class) => schema.is_a(class, base),
        None => false,
    }
}
