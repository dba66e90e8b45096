//! Whether a schema is another one without some classes.

ghost use Rattle.std.specs.Prelude.{◌≡◌, ◌<◌, ◌↔◌, ℕ, IsTrue, length, map};
ghost use Rattle.ice_types.specs.Lacking.{AreTaken, HasRow, HasRows, KeepsIds, KeepsRows, KeepsTypeIds, KeepsTypes};
ghost use Rattle.ice_types.specs.Lacking.{Lacks};
ghost use Rattle.ice_types.specs.declared.kind.RowRef.{RowRef};
ghost use Rattle.ice_types.specs.declared.kind.RowRef.TheVariants as rows;

use crate::same_rows::is_same_row;
use ice_types::{
    ClassDecl, DictDecl, EnumDecl, ExceptionDecl, InterfaceDecl, MOST_ROWS, Row, RowRef, Schema,
    SeqDecl, StructDecl,
};

/// Whether the smaller schema is the other one without some classes. Rows are found by their ids, wherever they
/// stand; inside a row all is equal and in the same order, and types, bases and exceptions are those of the same ids.
/// It takes no memory.
pub fn lacks(schema: &Schema, smaller: &Schema) -> bool
    ensures { IsTrue result ↔ Lacks schema.now smaller.now }
{
    has_rows_of(schema, smaller) && keeps_ids_of(smaller, schema)
}

/// Whether each row of the other schema is a row of the first one.
fn has_rows_of(one: &Schema, other: &Schema) -> bool
    ensures { IsTrue result ↔ KeepsRows one.now other.now }
{
    other.rules();
    has_types_of(one, other)
        && has_rows(one, other, other.classes().as_slice())
        && has_rows(one, other, other.exceptions().as_slice())
        && has_rows(one, other, other.interfaces().as_slice())
}

/// The same of sequences, dictionaries, structs and enums.
fn has_types_of(one: &Schema, other: &Schema) -> bool
    ensures { IsTrue result ↔ KeepsTypes one.now other.now }
{
    other.rules();
    has_rows(one, other, other.seqs().as_slice())
        && has_rows(one, other, other.dicts().as_slice())
        && has_rows(one, other, other.structs().as_slice())
        && has_rows(one, other, other.enums().as_slice())
}

/// Whether the smaller schema has the id of each row of the other one, but for classes.
fn keeps_ids_of(smaller: &Schema, other: &Schema) -> bool
    ensures { IsTrue result ↔ KeepsIds other.now smaller.now }
{
    keeps_type_ids_of(smaller, other)
        && has_ids(smaller, other.exceptions().as_slice())
        && has_ids(smaller, other.interfaces().as_slice())
}

/// The same of sequences, dictionaries, structs and enums.
fn keeps_type_ids_of(smaller: &Schema, other: &Schema) -> bool
    ensures { IsTrue result ↔ KeepsTypeIds other.now smaller.now }
{
    has_ids(smaller, other.seqs().as_slice())
        && has_ids(smaller, other.dicts().as_slice())
        && has_ids(smaller, other.structs().as_slice())
        && has_ids(smaller, other.enums().as_slice())
}

/// Whether the schema has the id of each of the rows.
fn has_ids<T: Row>(schema: &Schema, rows: &[T]) -> bool
    ensures { IsTrue result ↔ AreTaken schema.now (map T.id_of rows.now) }
{
    for row in rows {
        let Some(_) = schema.row_of_id(row.id()) else {
            return false;
        };
    }
    true
}

/// A row of a table of its own.
trait Placed: Row {
    /// The row at a place of that table.
    ghost as_row: { ℕ → RowRef };

    fn as_row(at: u32) -> RowRef
        ensures { result ≡ as_row at };
}

impl Placed for SeqDecl {
    ghost as_row = { rows.Seq };

    fn as_row(at: u32) -> RowRef {
        RowRef::Seq(at)
    }
}

impl Placed for DictDecl {
    ghost as_row = { rows.Dict };

    fn as_row(at: u32) -> RowRef {
        RowRef::Dict(at)
    }
}

impl Placed for StructDecl {
    ghost as_row = { rows.Struct };

    fn as_row(at: u32) -> RowRef {
        RowRef::Struct(at)
    }
}

impl Placed for EnumDecl {
    ghost as_row = { rows.Enum };

    fn as_row(at: u32) -> RowRef {
        RowRef::Enum(at)
    }
}

impl Placed for ClassDecl {
    ghost as_row = { rows.Class };

    fn as_row(at: u32) -> RowRef {
        RowRef::Class(at)
    }
}

impl Placed for ExceptionDecl {
    ghost as_row = { rows.Exception };

    fn as_row(at: u32) -> RowRef {
        RowRef::Exception(at)
    }
}

impl Placed for InterfaceDecl {
    ghost as_row = { rows.Interface };

    fn as_row(at: u32) -> RowRef {
        RowRef::Interface(at)
    }
}

/// Whether the first schema has each of the rows of a table of the other one.
fn has_rows<T: Placed>(one: &Schema, other: &Schema, rows: &[T]) -> bool
    requires { length rows.now < MOST_ROWS }
    ensures { IsTrue result ↔ HasRows one.now other.now (map T.Row.id_of rows.now) T.as_row }
{
    for (at, row) in rows.iter().enumerate() {
        if !has_row(one, other, row.id(), T::as_row(at as u32)) {
            return false;
        }
    }
    true
}

/// Whether a row of the first schema has this id, and is the same as that row of the other one.
fn has_row(one: &Schema, other: &Schema, id: &str, row: RowRef) -> bool
    ensures { IsTrue result ↔ HasRow one.now other.now id.now row }
{
    one.rules();
    match one.row_of_id(id) {
        Some(own) => is_same_row(one, other, own, row),
        None => false,
    }
}
