//! Types and exceptions that are added to a schema.

ghost use Rattle.std.specs.Prelude.{◌≡◌, ◌+◌, ◌<◌, IfOk, OnErr, length};
ghost use Rattle.ice_types.specs.Tables.{IsTypeId, IsNewId, with_seq, with_dict, with_struct, with_enum};
ghost use Rattle.ice_types.specs.Tables.{with_exception};
ghost use Rattle.ice_types.specs.Fits.{SeqFits, DictFits, StructFits, EnumFits, ExceptionFits};
ghost use Rattle.ice_types.specs.Rules.{IsSchema};

use crate::declarations::{DictDecl, EnumDecl, ExceptionDecl, SeqDecl, StructDecl};
use crate::kind::RowRef;
use crate::measure::Measure;
use crate::rows::{MOST_ROWS, add_row};
use crate::schema::Schema;
use std::alloc::AllocError;

impl Schema {
    /// Adds a sequence and answers its place. Out of memory leaves the schema as it was.
    pub fn add_seq(&mut self, decl: SeqDecl) -> Result<u32, AllocError>
        requires room { length self.old.seqs + 1 < MOST_ROWS }
        requires type_id { IsTypeId decl.id }
        requires new_id { IsNewId self.old decl.id }
        requires fits { SeqFits self.old decl.element }
        ensures ok { IfOk result (λ at. (at ≡ length self.old.seqs) × (self.new ≡ with_seq self.old decl)) }
        ensures err { OnErr result (self.new ≡ self.old) }
        ensures rules { IsSchema self.new }
    {
        let Some(measure) = self.measure_seq(decl.element) else {
            unreachable!()
        };
        let at = self.rows.seqs.decls.len() as u32;
        add_row(
            &mut self.rows.seqs,
            &mut self.ids,
            decl,
            measure,
            at,
            RowRef::Seq(at),
        )
    }

    /// Adds a dictionary and answers its place. Out of memory leaves the schema as it was.
    pub fn add_dict(&mut self, decl: DictDecl) -> Result<u32, AllocError>
        requires room { length self.old.dicts + 1 < MOST_ROWS }
        requires type_id { IsTypeId decl.id }
        requires new_id { IsNewId self.old decl.id }
        requires fits { DictFits self.old decl.key decl.value }
        ensures ok { IfOk result (λ at. (at ≡ length self.old.dicts) × (self.new ≡ with_dict self.old decl)) }
        ensures err { OnErr result (self.new ≡ self.old) }
        ensures rules { IsSchema self.new }
    {
        let Some(measure) = self.measure_dict(decl.key, decl.value) else {
            unreachable!()
        };
        let at = self.rows.dicts.decls.len() as u32;
        add_row(
            &mut self.rows.dicts,
            &mut self.ids,
            decl,
            measure,
            at,
            RowRef::Dict(at),
        )
    }

    /// Adds a struct and answers its place. Out of memory leaves the schema as it was.
    pub fn add_struct(&mut self, decl: StructDecl) -> Result<u32, AllocError>
        requires room { length self.old.structs + 1 < MOST_ROWS }
        requires type_id { IsTypeId decl.id }
        requires new_id { IsNewId self.old decl.id }
        requires fits { StructFits self.old decl.members }
        ensures ok { IfOk result (λ at. (at ≡ length self.old.structs) × (self.new ≡ with_struct self.old decl)) }
        ensures err { OnErr result (self.new ≡ self.old) }
        ensures rules { IsSchema self.new }
    {
        let Some(measure) = self.measure_struct(decl.members.as_slice()) else {
            unreachable!()
        };
        let at = self.rows.structs.decls.len() as u32;
        add_row(
            &mut self.rows.structs,
            &mut self.ids,
            decl,
            measure,
            at,
            RowRef::Struct(at),
        )
    }

    /// Adds an enum and answers its place. Out of memory leaves the schema as it was.
    pub fn add_enum(&mut self, decl: EnumDecl) -> Result<u32, AllocError>
        requires room { length self.old.enums + 1 < MOST_ROWS }
        requires type_id { IsTypeId decl.id }
        requires new_id { IsNewId self.old decl.id }
        requires fits { EnumFits decl.entries }
        ensures ok { IfOk result (λ at. (at ≡ length self.old.enums) × (self.new ≡ with_enum self.old decl)) }
        ensures err { OnErr result (self.new ≡ self.old) }
        ensures rules { IsSchema self.new }
    {
        let at = self.rows.enums.decls.len() as u32;
        add_row(
            &mut self.rows.enums,
            &mut self.ids,
            decl,
            Measure::enumeration(),
            at,
            RowRef::Enum(at),
        )
    }

    /// Adds an exception and answers its place. Out of memory leaves the schema as it was.
    pub fn add_exception(&mut self, decl: ExceptionDecl) -> Result<u32, AllocError>
        requires room { length self.old.exceptions + 1 < MOST_ROWS }
        requires type_id { IsTypeId decl.id }
        requires new_id { IsNewId self.old decl.id }
        requires fits { ExceptionFits self.old decl.base decl.members }
        ensures ok { IfOk result (λ at.
            (at ≡ length self.old.exceptions) × (self.new ≡ with_exception self.old decl)) }
        ensures err { OnErr result (self.new ≡ self.old) }
        ensures rules { IsSchema self.new }
    {
        let at = self.rows.exceptions.decls.len() as u32;
        let bases = self.exception_bases_from(decl.base);
        add_row(
            &mut self.rows.exceptions,
            &mut self.ids,
            decl,
            bases,
            at,
            RowRef::Exception(at),
        )
    }
}
