//! Operations of locators, and of all objects.

ghost use Rattle.std.specs.Prelude.{◌≡◌, [], ◌∷◌, ◌++◌, IfOk, OnOk, codes};
ghost use Rattle.ice_types.specs.declared.kind.TypeRef.TheVariants as kinds;
ghost use Rattle.ice_types.specs.Object.{idempotent, required};
ghost use Rattle.locator_types.specs.Locator.{finding, locator_operations};

use ice_types::{List, Member, Name, OpDecl, Shape, TypeRef};
use std::alloc::{AllocError, Global};

/// Both operations, which find an object and an adapter.
pub(crate) fn locator_operations(alloc: Global) -> Result<List<OpDecl>, AllocError>
    ensures { IfOk result (λ operations. operations ≡ locator_operations) }
{
    let mut operations = List::new(alloc);
    add_finding(alloc, &mut operations)?;
    Ok(operations)
}

/// Adds both to no operations.
fn add_finding(alloc: Global, operations: &mut List<OpDecl>) -> Result<(), AllocError>
    requires { operations.old ≡ [] }
    ensures { OnOk result (operations.new ≡ locator_operations) }
{
    operations.push(finding(alloc, "findObjectById", TypeRef::Struct(0), 0)?)?;
    operations.push(finding(alloc, "findAdapterById", TypeRef::Text, 1)?)
}

/// An operation that finds what has this id, and throws the exception at this place where nothing has it.
fn finding(alloc: Global, name: &str, id: TypeRef, not_found: u32) -> Result<OpDecl, AllocError>
    ensures { IfOk result (λ operation. operation ≡ finding name.now id not_found) }
{
    let mut operation = returning(alloc, name, TypeRef::Proxy(None))?;
    match seek(alloc, &mut operation, id, not_found) {
        Ok(()) => Ok(operation),
        Err(error) => {
            drop(operation);
            Err(error)
        }
    }
}

/// Gives an operation the argument, and the exception, of one that finds.
fn seek(
    alloc: Global,
    operation: &mut OpDecl,
    id: TypeRef,
    not_found: u32,
) -> Result<(), AllocError>
    requires { operation.old
        ≡ idempotent operation.old.name [] (required (codes "$return") (kinds.Proxy None) ∷ []) }
    ensures { OnOk result (operation.new ≡ finding operation.old.name id not_found) }
{
    add_member(alloc, &mut operation.arguments.required, "id", id)?;
    operation.throws.push(not_found)
}

/// An operation that may be called again, takes nothing, returns a value of this type, and throws nothing.
pub(crate) fn returning(alloc: Global, name: &str, kind: TypeRef) -> Result<OpDecl, AllocError>
    ensures { IfOk result (λ operation.
        operation ≡ idempotent name.now [] (required (codes "$return") kind ∷ [])) }
{
    let mut operation = idempotent(alloc, name)?;
    match add_member(alloc, &mut operation.results.required, "$return", kind) {
        Ok(()) => Ok(operation),
        Err(error) => {
            drop(operation);
            Err(error)
        }
    }
}

/// An operation that may be called again, takes and returns nothing, and throws nothing.
pub(crate) fn idempotent(alloc: Global, name: &str) -> Result<OpDecl, AllocError>
    ensures { IfOk result (λ operation. operation ≡ idempotent name.now [] []) }
{
    Ok(OpDecl {
        name: Name::of(alloc, name)?,
        idempotent: true,
        arguments: no_members(alloc),
        results: no_members(alloc),
        throws: List::new(alloc),
    })
}

/// No members, which take no memory.
fn no_members(alloc: Global) -> Shape
    ensures { result ≡ record { required = []; optional = [] } }
{
    Shape {
        required: List::new(alloc),
        optional: List::new(alloc),
    }
}

/// Adds a member that is always there.
pub(crate) fn add_member(
    alloc: Global,
    members: &mut List<Member>,
    name: &str,
    kind: TypeRef,
) -> Result<(), AllocError>
    ensures { OnOk result (members.new ≡ members.old ++ required name.now kind ∷ []) }
{
    let name = Name::of(alloc, name)?;
    members.push(Member {
        name,
        kind,
        tag: None,
    })
}
