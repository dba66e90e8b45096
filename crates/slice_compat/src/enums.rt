//! Whether an enum has each number of another.

ghost use Rattle.std.specs.Prelude.{◌≡◌, ◌↔◌, ℕ, IfOk, IsTrue};
ghost use Rattle.std.specs.BTreeSet.{contains};
ghost use Rattle.std.specs.Ordering.{nat_cmp};
ghost use Rattle.slice_compat.specs.Reading.{HaveEntries, has_entry};

use ice_types::Entry;
use std::alloc::{AllocError, Global};
use std::collections::BTreeSet;

/// Whether the second entries have each number of the first.
pub(crate) fn have_entries(
    alloc: Global,
    own: &[Entry],
    entries: &[Entry],
) -> Result<bool, AllocError>
    ensures { IfOk result (λ yes. IsTrue yes ↔ HaveEntries own.now entries.now) }
{
    let numbers = numbers_of(alloc, entries)?;
    Ok(are_among(own, entries, &numbers))
}

/// The numbers of the entries.
fn numbers_of(alloc: Global, entries: &[Entry]) -> Result<BTreeSet<u32>, AllocError>
    ensures { IfOk result (λ numbers. (number : ℕ) → contains nat_cmp numbers number ≡ has_entry entries.now number) }
{
    let mut numbers = BTreeSet::new(alloc);
    for entry in entries {
        numbers.insert(entry.number)?;
    }
    Ok(numbers)
}

/// Whether each number of the first entries is among these, which are those of the second.
fn are_among(own: &[Entry], entries: &[Entry], numbers: &BTreeSet<u32>) -> bool
    requires { (number : ℕ) → contains nat_cmp numbers.now number ≡ has_entry entries.now number }
    ensures { IsTrue result ↔ HaveEntries own.now entries.now }
{
    for entry in own {
        if !numbers.contains(&entry.number) {
            return false;
        }
    }
    true
}
