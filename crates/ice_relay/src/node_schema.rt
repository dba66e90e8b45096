//! The schema of the nodes that are drawn.

ghost use Rattle.std.specs.Prelude.{◌≡◌, [], ◌∷◌, IfOk};
ghost use Rattle.ice_types.specs.Object.{required};
ghost use Rattle.ice_types.specs.Tables.{no_types};
ghost use Rattle.ice_relay.specs.Nodes.{drill_tables, node_members, root};

use ice_types::{List, Member, Name, Schema, TypeRef};
use std::alloc::{AllocError, Global};

/// `module D { class N { int v; N left; N right; }; };`
pub(crate) fn node_schema(alloc: Global) -> Result<Schema, AllocError>
    ensures { IfOk result (λ schema. schema ≡ drill_tables) }
{
    let mut schema = Schema::new(alloc);
    match declare(alloc, &mut schema) {
        Ok(()) => Ok(schema),
        Err(error) => {
            drop(schema);
            Err(error)
        }
    }
}

/// Declares and defines the class.
fn declare(alloc: Global, schema: &mut Schema) -> Result<(), AllocError>
    requires { schema.old ≡ no_types }
    ensures { IfOk result (λ _. schema.new ≡ drill_tables) }
{
    schema.add_class(Name::of(alloc, "::D::N")?)?;
    let members = node_members(alloc)?;
    schema.define_class(0, None, None, members);
    Ok(())
}

/// The members of the class.
fn node_members(alloc: Global) -> Result<List<Member>, AllocError>
    ensures { IfOk result (λ members. members ≡ node_members) }
{
    let mut members = List::new(alloc);
    members.push(required(alloc, "v", TypeRef::Int)?)?;
    members.push(required(alloc, "left", TypeRef::Class(Some(0)))?)?;
    members.push(required(alloc, "right", TypeRef::Class(Some(0)))?)?;
    Ok(members)
}

/// The member that stands for one value of the class.
pub(crate) fn root(alloc: Global) -> Result<Member, AllocError>
    ensures { IfOk result (λ member. member ≡ root) }
{
    required(alloc, "root", TypeRef::Class(Some(0)))
}

/// A member that is always there.
fn required(alloc: Global, name: &str, kind: TypeRef) -> Result<Member, AllocError>
    ensures { IfOk result (λ member. member ≡ required name.now kind) }
{
    Ok(Member {
        name: Name::of(alloc, name)?,
        kind,
        tag: None,
    })
}
