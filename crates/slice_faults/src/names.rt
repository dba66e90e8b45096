//! Names of the innermost open scope.

ghost use Rattle.std.specs.Prelude.{◌≡◌, ◌&&◌, not, None, OnOk};
ghost use Rattle.slice_meaning.specs.Names.{declared_in};
ghost use Rattle.slice_meaning.specs.Known.{standing_here, with_name};
ghost use Rattle.slice_meaning.specs.Uses.{where_true};
ghost use Rattle.slice_meaning.specs.Clashes.{new_name, is_taken};
ghost use Rattle.slice_meaning.specs.declared.fault.CheckKind.TheVariants as rows;
ghost use Rattle.slice_meaning.specs.Checking.{noted};
ghost use Rattle.slice_meaning.specs.Numbers.{scope_at};
ghost use Rattle.slice_faults.specs.Held.{known_of};

use crate::known::Known;
use slice_meaning::{CheckKind, Found, Standing};
use slice_syntax::Word;
use std::alloc::{AllocError, Global};

/// Notes the name of a new declaration where it is taken.
pub(crate) fn note_new_name(
    alloc: Global,
    known: &Known,
    word: &Word,
    found: &mut Found,
) -> Result<(), AllocError>
    ensures { OnOk result (found.new.first ≡ noted found.old.first (new_name (known_of known.now) word.now)) }
{
    let taken = known
        .names
        .is_taken(alloc, known.scope, word.name.as_str())?;
    found.note_where(taken, word.place, CheckKind::Clash);
    Ok(())
}

/// What this very name of the innermost open scope stands for.
pub(crate) fn standing_here(known: &Known, word: &Word) -> Option<Standing>
    ensures { result ≡ standing_here (known_of known.now) word.now }
{
    match known.names.in_scope(known.scope, word.name.as_str()) {
        Some(number) => Some(known.names.standing(number)),
        None => None,
    }
}

/// Notes the name of a declaration where it is taken, unless it may stand there again.
pub(crate) fn note_reopened(
    alloc: Global,
    known: &Known,
    word: &Word,
    again: bool,
    found: &mut Found,
) -> Result<(), AllocError>
    ensures { OnOk result (found.new.first
        ≡ noted found.old.first (where_true (is_taken
        (known_of known.now) word.now && not again) word.now.place rows.Clash)) }
{
    let taken = known
        .names
        .is_taken(alloc, known.scope, word.name.as_str())?;
    found.note_where(taken && !again, word.place, CheckKind::Clash);
    Ok(())
}

/// Declares a name that the innermost open scope does not have.
pub(crate) fn declare<'a>(
    alloc: Global,
    known: &mut Known<'a>,
    word: &'a Word,
    standing: Standing,
) -> Result<(), AllocError>
    requires { declared_in known.old.names word.now.name (scope_at known.old.names known.old.scope) ≡ None }
    ensures { OnOk result (known_of known.new ≡ with_name (known_of known.old) word.now standing) }
{
    known.names.declare(
        alloc,
        known.scope,
        word.name.as_str(),
        standing,
        known.file,
        word.place,
    )
}
