//! The schema of locators.

ghost use Rattle.std.specs.Prelude.{◌≡◌, [], IfOk, OnOk};
ghost use Rattle.ice_types.specs.Tables.{no_types};
ghost use Rattle.locator_types.specs.Locator.{identity_decl, identity_declared, locator_tables, object_declared};
ghost use Rattle.locator_types.specs.Locator.{types_declared, without_members};

use crate::operations::{add_member, locator_operations};
use ice_types::{ExceptionDecl, List, Member, Name, Schema, StructDecl, TypeRef};
use std::alloc::{AllocError, Global};

/// The interface `::Ice::Locator`, the struct `::Ice::Identity` and the two exceptions that say that nothing
/// was found. (Ice manual, "Locators".)
pub fn locator_schema(alloc: Global) -> Result<Schema, AllocError>
    ensures { IfOk result (λ schema. schema ≡ locator_tables) }
{
    let mut schema = Schema::new(alloc);
    match declare(alloc, &mut schema) {
        Ok(()) => Ok(schema),
        Err(error) => {
            drop(schema);
            Err(error)
        }
    }
}

/// Declares all of them.
fn declare(alloc: Global, schema: &mut Schema) -> Result<(), AllocError>
    requires { schema.old ≡ no_types }
    ensures { IfOk result (λ _. schema.new ≡ locator_tables) }
{
    add_identity(alloc, schema)?;
    add_object_not_found(alloc, schema)?;
    add_adapter_not_found(alloc, schema)?;
    add_locator(alloc, schema)
}

/// Declares the struct.
fn add_identity(alloc: Global, schema: &mut Schema) -> Result<(), AllocError>
    requires { schema.old ≡ no_types }
    ensures { IfOk result (λ _. schema.new ≡ identity_declared) }
{
    schema.add_struct(identity_decl(alloc)?)?;
    Ok(())
}

/// Declares the exception of objects.
fn add_object_not_found(alloc: Global, schema: &mut Schema) -> Result<(), AllocError>
    requires { schema.old ≡ identity_declared }
    ensures { IfOk result (λ _. schema.new ≡ object_declared) }
{
    schema.add_exception(without_members(alloc, "::Ice::ObjectNotFoundException")?)?;
    Ok(())
}

/// Declares the exception of adapters.
fn add_adapter_not_found(alloc: Global, schema: &mut Schema) -> Result<(), AllocError>
    requires { schema.old ≡ object_declared }
    ensures { IfOk result (λ _. schema.new ≡ types_declared) }
{
    schema.add_exception(without_members(alloc, "::Ice::AdapterNotFoundException")?)?;
    Ok(())
}

/// Declares the interface.
fn add_locator(alloc: Global, schema: &mut Schema) -> Result<(), AllocError>
    requires { schema.old ≡ types_declared }
    ensures { IfOk result (λ _. schema.new ≡ locator_tables) }
{
    schema.add_interface(Name::of(alloc, "::Ice::Locator")?)?;
    let operations = locator_operations(alloc)?;
    schema.define_interface(0, List::new(alloc), operations);
    Ok(())
}

/// The struct, of a name and a category.
fn identity_decl(alloc: Global) -> Result<StructDecl, AllocError>
    ensures { IfOk result (λ decl. decl ≡ identity_decl) }
{
    let mut decl = StructDecl {
        id: Name::of(alloc, "::Ice::Identity")?,
        members: List::new(alloc),
    };
    match add_texts(alloc, &mut decl.members) {
        Ok(()) => Ok(decl),
        Err(error) => {
            drop(decl);
            Err(error)
        }
    }
}

/// Adds both to no members.
fn add_texts(alloc: Global, members: &mut List<Member>) -> Result<(), AllocError>
    requires { members.old ≡ [] }
    ensures { OnOk result (members.new ≡ identity_decl.members) }
{
    add_member(alloc, members, "name", TypeRef::Text)?;
    add_member(alloc, members, "category", TypeRef::Text)
}

/// An exception of this id without a base and without members.
fn without_members(alloc: Global, id: &str) -> Result<ExceptionDecl, AllocError>
    ensures { IfOk result (λ decl. decl ≡ without_members id.now) }
{
    Ok(ExceptionDecl {
        id: Name::of(alloc, id)?,
        base: None,
        members: List::new(alloc),
    })
}
