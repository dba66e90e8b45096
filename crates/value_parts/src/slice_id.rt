//! The id of a slice, as it stands in an encapsulation. (Ice manual, "Compact Type IDs".)

ghost use Rattle.std.specs.Prelude.{◌≡◌, IfOk};
ghost use Rattle.value_parts.specs.SlicedType.{row_of, rows_of};
ghost use Rattle.value_parts.specs.SliceIds.{id_of};

use crate::sliced_type::SlicedType;
use ice_types::{Name, Schema, numbered_id};
use std::alloc::{AllocError, Global};

/// The id of a slice: of an instance its type id or its compact id, of an exception its type id.
/// (Ice manual, "Compact Type IDs".)
#[derive(Clone, Copy)]
pub enum SliceId<'a> {
    /// A type id, which is empty where none stands or the schema has no such row.
    Text(&'a str),
    /// A compact id.
    Number(u32),
}

impl SliceId<'_> {
    /// The row that has it, None where the schema has none.
    pub fn row(self, sort: SlicedType, schema: &Schema) -> Option<u32>
        ensures { result ≡ row_of sort (rows_of sort schema.now) (id_of self.entry) }
    {
        match self {
            SliceId::Text(id) => sort.row_by_id(schema, id),
            SliceId::Number(number) => sort.row_numbered(schema, number),
        }
    }

    /// The id as it is kept: a compact id n as the text `#n`. Out of memory leaves nothing.
    pub fn kept(self, alloc: Global) -> Result<Name, AllocError>
        ensures { IfOk result (λ id. id ≡ id_of self.entry) }
    {
        match self {
            SliceId::Text(id) => Name::of(alloc, id),
            SliceId::Number(number) => numbered_id(alloc, number),
        }
    }
}
