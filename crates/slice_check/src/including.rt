//! Includes: which one is next, and the file that it brings.

ghost use Rattle.std.specs.Prelude.{◌≡◌, List, Contains, drop};
ghost use Rattle.std.specs.BTreeSet.{contains_text};
ghost use Rattle.ice_ports.specs.Failures.{count_after};
ghost use Rattle.slice_meaning.specs.Names.{Name};
ghost use Rattle.slice_check.specs.Answers.{is_failed};
ghost use Rattle.slice_check.specs.Held.{Holds, unloaded};
ghost use Rattle.slice_check.specs.Opening.{Opens};

use crate::fault::{LoadFault, text_fault};
use crate::names::Names;
use crate::open::Open;
use crate::text::text_tree;
use ice_ports::Shelf;
use ice_types::Name;
use slice_meaning::MOST_FILES;
use std::alloc::Global;

/// The place, from one on, of the first include of a file that is not loaded, or how many includes there are.
pub(crate) fn next_new(included: &[(Name, u32)], from: usize, names: &Names) -> usize
    ensures { drop result included.now ≡ unloaded (contains_text names.now.held) (drop from included.now) }
{
    let mut at = from;
    while at < included.len() && names.has(included[at].0.as_str()) {
        at += 1;
    }
    at
}

/// Loads a file that is not loaded yet, for the include of its name at a place of another file.
pub(crate) fn opened<H: Shelf>(
    alloc: Global,
    shelf: &mut H,
    names: &mut Names,
    user: &str,
    name: &str,
    place: u32,
) -> Result<Open, LoadFault>
    ensures answer { (loaded : List Name) → Holds names.old.held loaded → (Contains loaded name.now → ⊥)
        → Opens (H.files shelf.old) loaded user.now name.now place names.new.held result }
    ensures kept { H.files shelf.new ≡ H.files shelf.old }
    ensures count { H.failures shelf.new ≡ count_after (H.failures shelf.old) (is_failed result) }
{
    let Some(text) = shelf.load(alloc, name)? else {
        return Err(text_fault(alloc, user, place, "NoFile"));
    };
    if names.len() >= MOST_FILES as usize {
        return Err(text_fault(alloc, user, place, "TooManyFiles"));
    }
    let tree = text_tree(alloc, name, text.as_slice())?;
    names.insert(alloc, name)?;
    Ok(Open {
        name: Name::of(alloc, name)?,
        tree,
        next: 0,
    })
}
