//! What writing comes to where each reference is a number; and what the definitions of sorting promise, in words that
//! do not sort.

ghost use Rattle.std.specs.Prelude.{◌≡◌, ◌↔◌, true, false};
ghost use Rattle.ice_encoding.specs.Canonical.{canonical};
ghost use Rattle.ice_encoding.specs.Pausing.{written_in_place};
ghost use Rattle.ice_encoding.specs.Order.{IsOrdered};
ghost use Rattle.ice_encoding.specs.Same.{Same};
ghost use Rattle.ice_encoding.specs.Tree.{Tree, Everywhere};
ghost use Rattle.ice_encoding.specs.Writing.{written};
ghost use Rattle.value_writing.specs.Keys.{Somewhere, RepeatsKey, HasOrderedKeys};
ghost use Rattle.value_writing.specs.Numbering.{number_put};
ghost use Rattle.value_writing.specs.Putting.{InsideWritten};
ghost use Rattle.value_writing.specs.Sorted.{sorted, has_equal_keys};

/// At the port of numbers what `write_value` writes are the canonical bytes of the value.
pub fn written_by_number()
    ensures { (inside : InsideWritten (Unit {0})) (v : Tree)
        → (written (written_in_place number_put inside) v tt).0 ≡ canonical v }
{}

/// A value that is sorted is the same value, and each of its dictionaries stands in rising key order
/// unless two keys are equal.
pub fn sorting_keeps_the_value()
    ensures same { (v : Tree) → Same v (sorted v) }
    ensures ordered { (v : Tree) → has_equal_keys v ≡ false → IsOrdered (sorted v) }
{}

/// Equal keys are two pairs of one dictionary with the same key, at any depth.
pub fn equal_keys_repeat()
    ensures { (v : Tree) → Everywhere HasOrderedKeys v → (has_equal_keys v ≡ true) ↔ Somewhere RepeatsKey v }
{}
