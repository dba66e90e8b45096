//! Faults that are noted one by one.

ghost use Rattle.std.specs.Prelude.{◌≡◌};
ghost use Rattle.slice_meaning.specs.Checking.{noted};
ghost use Rattle.slice_meaning.specs.Uses.{where_true};
ghost use Rattle.slice_meaning.specs.Faults.{is_empty};
ghost use Rattle.slice_meaning.specs.declared.fault.CheckKind.TheVariants as rows;
ghost use Rattle.slice_faults.specs.Held.{where_row};

use ice_types::List;
use slice_meaning::{CheckKind, Found};
use slice_syntax::Word;

/// Notes the row that applies, where there is one.
pub(crate) fn note_row(row: Option<CheckKind>, place: u32, found: &mut Found)
    ensures { found.new.first ≡ noted found.old.first (where_row place row) }
{
    if let Some(row) = row {
        found.note_where(true, place, row);
    }
}

/// Notes a definition that has no members.
pub(crate) fn note_none<T>(members: &List<T>, word: &Word, found: &mut Found)
    ensures { found.new.first
        ≡ noted found.old.first (where_true (is_empty members.now) word.now.place rows.NoMembers) }
{
    found.note_where(members.is_empty(), word.place, CheckKind::NoMembers);
}
