//! Parts of a definition that have names of their own.

ghost use Rattle.std.specs.Prelude.{◌≡◌, [], map, OnOk};
ghost use Rattle.slice_syntax.specs.declared.tree.Word.{Word};
ghost use Rattle.slice_meaning.specs.Checking.{noted};
ghost use Rattle.slice_meaning.specs.Clashes.{second_names};

use crate::name_set::NameSet;
use slice_meaning::Found;
use slice_syntax::{Constant, Field, OpTree, Param, Word};
use std::alloc::{AllocError, Global};

/// A part of a definition that has a name.
pub(crate) trait Named {
    /// Its name.
    ghost word_of: { Self → Word };

    fn word(&self) -> &Word
        ensures { result.now ≡ word_of self.now };
}

impl Named for Field {
    ghost word_of = { λ f. f.word };

    fn word(&self) -> &Word {
        &self.word
    }
}

impl Named for (Word, Option<Constant>) {
    ghost word_of = { λ e. e.0 };

    fn word(&self) -> &Word {
        &self.0
    }
}

impl Named for Param {
    ghost word_of = { λ p. p.field.word };

    fn word(&self) -> &Word {
        &self.field.word
    }
}

impl Named for OpTree {
    ghost word_of = { λ op. op.word };

    fn word(&self) -> &Word {
        &self.word
    }
}

/// Notes each name that is equal to an earlier one without regard to case.
pub(crate) fn note_names<T: Named>(
    alloc: Global,
    parts: &[T],
    found: &mut Found,
) -> Result<(), AllocError>
    ensures { OnOk result (found.new.first ≡ noted found.old.first (second_names [] (map T.word_of parts.now))) }
{
    let mut names = NameSet::new(alloc);
    for part in parts {
        names.take(alloc, part.word(), found)?;
    }
    Ok(())
}
