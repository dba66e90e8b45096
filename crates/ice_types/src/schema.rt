//! The types, exceptions and interfaces of a Slice text by place, under the rules that every schema keeps.

ghost use Rattle.std.specs.Prelude.{◌≡◌};
ghost use Rattle.ice_types.specs.Tables.{no_types};
ghost use Rattle.ice_types.specs.Rules.{IsSchema};

use crate::compact_ids::CompactIds;
use crate::declarations::{
    ClassDecl, DictDecl, EnumDecl, ExceptionDecl, InterfaceDecl, SeqDecl, StructDecl,
};
use crate::ids::Ids;
use crate::list::List;
use crate::rows::TableRows;
use std::alloc::Global;
use std::marker::Model;

/// How deep a type may nest.
pub const MOST_DEPTH: u32 = 100;

/// How many bytes the smallest spelling of a struct may have.
pub const MOST_SMALLEST: u32 = 1_048_576;

/// How many bases an interface may have, counted by the paths that lead to them.
pub const MOST_BASES: u32 = 1_000;

/// The largest tag, and the largest number of an enum.
pub const MOST_NUMBER: u32 = 2_147_483_647;

/// Which types, exceptions and interfaces a Slice text defines. Contracts see its tables.
pub struct Schema {
    pub(crate) rows: TableRows,
    pub(crate) ids: Ids,
    pub(crate) compact_ids: CompactIds,
}

impl Drop for Schema {
    fn drop(self) {
        let Schema {
            rows,
            ids,
            compact_ids,
        } = self;
        drop(rows);
        drop(ids);
        drop(compact_ids);
    }
}

impl Model for Schema {
    ghost use Rattle.ice_types.specs.Tables.{Tables};
    ghost use Rattle.ice_types.specs.Kept.{beside_of, tables_of};
    ghost use Rattle.ice_types.specs.Ids.{AreNumbered, IsHeld, class_in, room_in, row_in};

    ghost Value = { Tables };

    ghost view = { λ s. tables_of s.rows };

    ghost invariant = { λ s. IsHeld (tables_of s.rows) (beside_of s.rows) (row_in s.ids)
        × AreNumbered (tables_of s.rows) (class_in s.compact_ids) (room_in s.compact_ids) };
}

impl Schema {
    /// A schema without types, which takes no memory.
    pub fn new(alloc: Global) -> Schema
        ensures { result ≡ no_types }
    {
        Schema {
            rows: TableRows::new(alloc),
            ids: Ids::new(alloc),
            compact_ids: CompactIds::new(alloc),
        }
    }

    /// The sequences, in the order in which they were added.
    pub fn seqs(&self) -> &List<SeqDecl>
        ensures { result.now ≡ self.now.seqs }
    {
        &self.rows.seqs.decls
    }

    /// The dictionaries, in the order in which they were added.
    pub fn dicts(&self) -> &List<DictDecl>
        ensures { result.now ≡ self.now.dicts }
    {
        &self.rows.dicts.decls
    }

    /// The structs, in the order in which they were added.
    pub fn structs(&self) -> &List<StructDecl>
        ensures { result.now ≡ self.now.structs }
    {
        &self.rows.structs.decls
    }

    /// The enums, in the order in which they were added.
    pub fn enums(&self) -> &List<EnumDecl>
        ensures { result.now ≡ self.now.enums }
    {
        &self.rows.enums.decls
    }

    /// The classes, in the order in which they were added.
    pub fn classes(&self) -> &List<ClassDecl>
        ensures { result.now ≡ self.now.classes }
    {
        &self.rows.classes.decls
    }

    /// The exceptions, in the order in which they were added.
    pub fn exceptions(&self) -> &List<ExceptionDecl>
        ensures { result.now ≡ self.now.exceptions }
    {
        &self.rows.exceptions.decls
    }

    /// The interfaces, in the order in which they were added.
    pub fn interfaces(&self) -> &List<InterfaceDecl>
        ensures { result.now ≡ self.now.interfaces }
    {
        &self.rows.interfaces.decls
    }

    /// What every schema keeps, for the proofs of its callers.
    pub fn rules(&self)
        ensures { IsSchema self.now }
    {
        let _ = &self.rows;
    }
}
