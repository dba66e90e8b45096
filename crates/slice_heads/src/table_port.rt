//! References in a sized slice: places in the slice's table, which are known when that is read.

ghost use Rattle.std.specs.Prelude.{◌≡◌, []};
ghost use Rattle.slice_heads.specs.Seen.{view_references};

use crate::arena::Reference;
use ice_prims::{Cursor, Kind, ReadFault};
use std::alloc::Global;
use std::marker::Model;
use value_parts::{Met, RefPort};

/// The references that were met in a slice that has a table.
#[derive(Drop)]
pub struct InTable {
    uses: Vec<Reference>,
}

impl Model for InTable {
    ghost use Rattle.std.specs.Prelude.{ℕ, List};
    ghost use Rattle.ice_encoding.specs.References as refs;
    ghost use Rattle.slice_heads.specs.Seen.{references_code, view_references};

    ghost Value = { List (refs.Reference ℕ) };

    ghost coded = { references_code };

    ghost view = { λ p. view_references p.uses.items };
}

impl InTable {
    /// None were met.
    pub fn new(alloc: Global) -> InTable
        ensures { result ≡ [] }
    {
        InTable {
            uses: Vec::new(alloc),
        }
    }

    /// Those that were met.
    pub fn into_uses(self) -> Vec<Reference>
        ensures { view_references result.items ≡ self }
    {
        self.uses
    }
}

impl RefPort for InTable {
    ghost use Rattle.std.specs.Prelude.{true};
    ghost use Rattle.slice_heads.specs.Seen.{entry_met};

    ghost take = { entry_met true };

    ghost room = { λ s. 0 };

    fn take_ref(
        &mut self,
        declared: Option<u32>,
        cursor: &mut Cursor<'_>,
    ) -> Result<Met, ReadFault> {
        let place = cursor.place();
        let size = cursor.take_size()?;
        if size == 0 {
            return Ok(Met::Known(None));
        }
        let name = size - 1;
        self.uses.push(Reference {
            place,
            declared,
            name,
        })?;
        Ok(Met::Known(Some(name)))
    }
}

/// A slice without a table, in which null alone may stand.
#[derive(Drop)]
pub struct Untabled {
    /// What was met: nothing ever is.
    met: (),
}

impl Model for Untabled {
    ghost use Rattle.std.specs.Prelude.{ℕ, List, []};
    ghost use Rattle.ice_encoding.specs.References as refs;
    ghost use Rattle.slice_heads.specs.Seen.{references_code};

    ghost Value = { List (refs.Reference ℕ) };

    ghost coded = { references_code };

    ghost view = { λ p. [] };
}

impl Untabled {
    /// None were met.
    pub fn new() -> Untabled
        ensures { result ≡ [] }
    {
        Untabled { met: () }
    }

    /// None were met since.
    pub fn is_unused(&self)
        ensures { self.now ≡ [] }
    {
        let _ = &self.met;
    }
}

impl RefPort for Untabled {
    ghost use Rattle.std.specs.Prelude.{false};
    ghost use Rattle.slice_heads.specs.Seen.{entry_met};

    ghost take = { entry_met false };

    ghost room = { λ s. 0 };

    fn take_ref(
        &mut self,
        _declared: Option<u32>,
        cursor: &mut Cursor<'_>,
    ) -> Result<Met, ReadFault> {
        let no_such = cursor.fault(Kind::BadReference);
        let size = cursor.take_size()?;
        if size == 0 {
            return Ok(Met::Known(None));
        }
        Err(ReadFault::Broken(no_such))
    }
}
