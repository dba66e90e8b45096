//! The schema of what every object has.

ghost use Rattle.std.specs.Prelude.{◌≡◌, [], IfOk, OnOk};
ghost use Rattle.ice_types.specs.Object.{is_a, object_operations, object_tables, strings_declared};
ghost use Rattle.ice_types.specs.Tables.{no_types};

use crate::operations::{add_member, idempotent, returning};
use ice_types::{List, Name, OpDecl, Schema, SeqDecl, TypeRef};
use std::alloc::{AllocError, Global};

/// The sequence of strings `::Ice::StringSeq` and the interface `::Ice::Object` with the four
/// operations that every object has. (Ice manual, "The Object Base Interface".)
pub fn object_schema(alloc: Global) -> Result<Schema, AllocError>
    ensures { IfOk result (λ schema. schema ≡ object_tables) }
{
    let mut schema = Schema::new(alloc);
    match declare(alloc, &mut schema) {
        Ok(()) => Ok(schema),
        Err(error) => {
            drop(schema);
            Err(error)
        }
    }
}

/// Declares both.
fn declare(alloc: Global, schema: &mut Schema) -> Result<(), AllocError>
    requires { schema.old ≡ no_types }
    ensures { IfOk result (λ _. schema.new ≡ object_tables) }
{
    add_strings(alloc, schema)?;
    add_object(alloc, schema)
}

/// Declares the sequence.
fn add_strings(alloc: Global, schema: &mut Schema) -> Result<(), AllocError>
    requires { schema.old ≡ no_types }
    ensures { IfOk result (λ _. schema.new ≡ strings_declared) }
{
    let strings = SeqDecl {
        id: Name::of(alloc, "::Ice::StringSeq")?,
        element: TypeRef::Text,
    };
    schema.add_seq(strings)?;
    Ok(())
}

/// Declares the interface.
fn add_object(alloc: Global, schema: &mut Schema) -> Result<(), AllocError>
    requires { schema.old ≡ strings_declared }
    ensures { IfOk result (λ _. schema.new ≡ object_tables) }
{
    schema.add_interface(Name::of(alloc, "::Ice::Object")?)?;
    let operations = object_operations(alloc)?;
    schema.define_interface(0, List::new(alloc), operations);
    Ok(())
}

/// The four operations.
fn object_operations(alloc: Global) -> Result<List<OpDecl>, AllocError>
    ensures { IfOk result (λ operations. operations ≡ object_operations) }
{
    let mut operations = List::new(alloc);
    add_operations(alloc, &mut operations)?;
    Ok(operations)
}

/// Adds the four to no operations.
fn add_operations(alloc: Global, operations: &mut List<OpDecl>) -> Result<(), AllocError>
    requires { operations.old ≡ [] }
    ensures { OnOk result (operations.new ≡ object_operations) }
{
    operations.push(idempotent(alloc, "ice_ping")?)?;
    operations.push(is_a(alloc)?)?;
    operations.push(returning(alloc, "ice_id", TypeRef::Text)?)?;
    operations.push(returning(alloc, "ice_ids", TypeRef::Seq(0))?)
}

/// `bool ice_isA(string id);`
fn is_a(alloc: Global) -> Result<OpDecl, AllocError>
    ensures { IfOk result (λ operation. operation ≡ is_a) }
{
    let mut operation = returning(alloc, "ice_isA", TypeRef::Bool)?;
    match add_member(
        alloc,
        &mut operation.arguments.required,
        "id",
        TypeRef::Text,
    ) {
        Ok(()) => Ok(operation),
        Err(error) => {
            drop(operation);
            Err(error)
        }
    }
}
