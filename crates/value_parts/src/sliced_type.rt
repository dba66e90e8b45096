//! What has slices, and what a schema declares of it. (Ice manual, "Data Encoding for Class and Exception
//! Types".)

ghost use Rattle.std.specs.Prelude.{◌≡◌, ◌<◌, ◌↔◌, IsTrue, length, slice_get};
ghost use Rattle.ice_encoding.specs.CanonicalGraph.{id_in};
ghost use Rattle.ice_encoding.specs.Classes.{class_named, members_in};
ghost use Rattle.ice_encoding.specs.Classes as classes;
ghost use Rattle.value_parts.specs.Shapes.{handed};
ghost use Rattle.ice_types.specs.CompactIds.{numbered_id};
ghost use Rattle.value_parts.specs.SlicedType.{compact_in, own_fields, row_of, rows_of};

use crate::fields::DeclaredMembers;
use ice_types::{Member, Schema, number_in};

/// What has slices: an instance, whose slices are of classes, or a user exception, whose slices are of
/// exceptions. A class or an exception is named by its row in the schema.
/// (Ice manual, "Data Encoding for Class and Exception Types".)
#[derive(Clone, Copy, PartialEq, Eq)]
pub enum SlicedType {
    /// Class instances: the rows are the classes of the schema.
    Class,
    /// User exceptions: the rows are the exceptions of the schema.
    Exception,
}

impl SlicedType {
    /// The row of a type id, None where the schema has none.
    pub fn row_named(self, schema: &Schema, id: &str) -> Option<u32>
        ensures { result ≡ class_named (rows_of self schema.now) id.now }
    {
        // No two rows have one type id.
        schema.rules();
        match self {
            SlicedType::Class => schema.class(id),
            SlicedType::Exception => schema.exception(id),
        }
    }

    /// The row that slices of this id are of, None where the schema has none: a class has its type id, and for `#n`
    /// its compact id; an exception has its type id alone.
    pub fn row_by_id(self, schema: &Schema, id: &str) -> Option<u32>
        ensures { result ≡ row_of self (rows_of self schema.now) id.now }
    {
        schema.rules();
        match self {
            SlicedType::Class => match number_in(id) {
                Some(number) => self.row_numbered(schema, number),
                // No type id begins with `#`.
                None => self.row_named(schema, id),
            },
            SlicedType::Exception => self.row_named(schema, id),
        }
    }

    /// The row that slices of a compact id are of, None where the schema has none.
    pub fn row_numbered(self, schema: &Schema, number: u32) -> Option<u32>
        ensures { result ≡ row_of self (rows_of self schema.now) (numbered_id number) }
    {
        // No two classes have one compact id.
        schema.rules();
        match self {
            SlicedType::Class => schema.class_numbered(number),
            SlicedType::Exception => None,
        }
    }

    /// The compact id of a row, None where it has none, or there is no such row.
    pub fn compact_of(self, schema: &Schema, row: u32) -> Option<u32>
        ensures { result ≡ compact_in (slice_get (rows_of self schema.now).classes row) }
    {
        match self {
            SlicedType::Class => schema.classes().get(row as usize)?.compact,
            SlicedType::Exception => None,
        }
    }

    /// Whether there is such a row.
    pub fn has_row(self, schema: &Schema, row: u32) -> bool
        ensures { IsTrue result ↔ (row < length (rows_of self schema.now).classes) }
    {
        match self {
            SlicedType::Class => (row as usize) < schema.classes().len(),
            SlicedType::Exception => (row as usize) < schema.exceptions().len(),
        }
    }

    /// The row that a row extends, None where it extends none, or there is no such row.
    pub fn base_of(self, schema: &Schema, row: u32) -> Option<u32>
        ensures { result ≡ classes.base_of (rows_of self schema.now) row }
    {
        match self {
            SlicedType::Class => schema.classes().get(row as usize)?.base,
            SlicedType::Exception => schema.exceptions().get(row as usize)?.base,
        }
    }

    /// The members that a row declares itself, without those of its bases; none where there is no such row.
    pub fn own_members(self, schema: &Schema, row: u32) -> &[Member]
        ensures { result.now ≡ members_in (slice_get (rows_of self schema.now).classes row) }
    {
        match self {
            SlicedType::Class => match schema.classes().get(row as usize) {
                Some(decl) => decl.members.as_slice(),
                None => &[],
            },
            SlicedType::Exception => match schema.exceptions().get(row as usize) {
                Some(decl) => decl.members.as_slice(),
                None => &[],
            },
        }
    }

    /// The same, handed over as required and optional ones together.
    pub fn own_fields(self, schema: &Schema, row: u32) -> DeclaredMembers<'_>
        ensures { handed result ≡ own_fields (rows_of self schema.now) row }
    {
        let members = self.own_members(schema, row);
        DeclaredMembers {
            required: members,
            optional: members,
        }
    }

    /// The type id of a row, empty where there is no such row.
    pub fn id_of(self, schema: &Schema, row: u32) -> &str
        ensures { result.now ≡ id_in (slice_get (rows_of self schema.now).classes row) }
    {
        match self {
            SlicedType::Class => match schema.classes().get(row as usize) {
                Some(decl) => decl.id.as_str(),
                None => "",
            },
            SlicedType::Exception => match schema.exceptions().get(row as usize) {
                Some(decl) => decl.id.as_str(),
                None => "",
            },
        }
    }
}
