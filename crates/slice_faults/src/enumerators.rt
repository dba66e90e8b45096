//! The names of the enumerators of each enum, beside its row.

ghost use Rattle.std.specs.Prelude.{ℕ, ◌≡◌, ◌+◌, ◌<◌, ◌++◌, ◌∷◌, [], List, true, length, cond, bytes_eq, IfOk, OnOk};
ghost use Rattle.std.specs.Prelude.{OnErr, vec_len, vec_capacity};
ghost use Rattle.std.specs.BTreeSet.{contains_text};
ghost use Rattle.ice_types.specs.Tables.{IsTypeId, IsNewId, with_enum};
ghost use Rattle.ice_types.specs.Fits.{EnumFits};
ghost use Rattle.ice_types.specs.declared.rows.TheConstants.{MOST_ROWS};
ghost use Rattle.slice_meaning.specs.Values.{has_enumerator};
ghost use Rattle.slice_faults.specs.Enumerators.{HoldsEntries, AreHeld};

use crate::known::Known;
use ice_types::{Entry, EnumDecl, Schema};
use std::alloc::{AllocError, Global};
use std::collections::BTreeSet;

/// Whether the enum at a place has an enumerator of this name.
pub(crate) fn has_enumerator(known: &Known, at: u32, name: &str) -> bool
    ensures { result ≡ has_enumerator known.now.rows at name.now }
{
    match known.enumerators.get(at as usize) {
        Some(names) => names.contains(name),
        None => false,
    }
}

/// Adds an enum, with the names of its enumerators beside it, and answers its place. Out of memory leaves the
/// schema as it was.
pub(crate) fn add_enum(
    alloc: Global,
    rows: &mut Schema,
    enumerators: &mut Vec<BTreeSet<String>>,
    decl: EnumDecl,
) -> Result<u32, AllocError>
    requires room { length rows.old.enums + 1 < MOST_ROWS }
    requires type_id { IsTypeId decl.id }
    requires new_id { IsNewId rows.old decl.id }
    requires fits { EnumFits decl.entries }
    requires held { AreHeld enumerators.old.items rows.old }
    ensures held { AreHeld enumerators.new.items rows.new }
    ensures ok { IfOk result (λ at. (at ≡ length rows.old.enums) × (rows.new ≡ with_enum rows.old decl)) }
    ensures err { OnErr result (rows.new ≡ rows.old) }
{
    let names = names_of(alloc, decl.entries.as_slice())?;
    enumerators.reserve(1)?;
    let at = rows.add_enum(decl)?;
    put_last(enumerators, names);
    Ok(at)
}

/// The names of enumerators.
fn names_of(alloc: Global, entries: &[Entry]) -> Result<BTreeSet<String>, AllocError>
    ensures { IfOk result (λ names. HoldsEntries names entries.now) }
{
    let mut names = BTreeSet::new(alloc);
    for entry in entries {
        add_name(alloc, entry.name.as_str(), &mut names)?;
    }
    Ok(names)
}

/// Puts a name in.
fn add_name(alloc: Global, name: &str, names: &mut BTreeSet<String>) -> Result<(), AllocError>
    ensures { OnOk result ((word : List ℕ) → contains_text names.new word
        ≡ cond (bytes_eq name.now word) true (contains_text names.old word)) }
{
    names.insert(String::from_str(alloc, name)?)?;
    Ok(())
}

/// Puts names last, where there is room.
fn put_last(enumerators: &mut Vec<BTreeSet<String>>, names: BTreeSet<String>)
    requires { vec_len enumerators.old < vec_capacity enumerators.old }
    ensures { enumerators.new.items ≡ enumerators.old.items ++ names ∷ [] }
{
    if enumerators.push(names).is_err() {
        unreachable!()
    }
}
