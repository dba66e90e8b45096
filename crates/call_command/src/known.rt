//! The operation that is called.

ghost use Rattle.std.specs.Prelude.{◌≡◌, ◌↔◌, IfSome, IsTrue, option_map};
ghost use Rattle.ice_types.specs.Object.{object_tables};
ghost use Rattle.call_command.specs.Operations.{IsDeclared, WantsReply, operation_of, seen};

use ice_types::{OpDecl, Schema};

/// An operation, the schema in which its types are, and the mode of a call of it.
#[derive(Clone, Copy)]
pub(crate) struct Known<'a> {
    pub schema: &'a Schema,
    pub operation: &'a OpDecl,
    pub mode: u8,
}

/// The operation of this name that each object has, with mode 1; else that of the interface, with mode 2 where it
/// may be called again, and else 0.
pub(crate) fn known_of<'a>(
    object: &'a Schema,
    schema: &'a Schema,
    interface: u32,
    name: &str,
) -> Option<Known<'a>>
    requires { object.now ≡ object_tables }
    ensures found { option_map seen result ≡ operation_of schema.now interface name.now }
    ensures declared { IfSome result (λ k. IsDeclared (seen k)) }
{
    object.rules();
    schema.rules();
    if let Some(operation) = object.operation(0, name) {
        return Some(Known {
            schema: object,
            operation,
            mode: 1,
        });
    }
    let operation = schema.operation(interface, name)?;
    let mode = if operation.idempotent { 2 } else { 0 };
    Some(Known {
        schema,
        operation,
        mode,
    })
}

/// Whether a call of the operation wants a reply: it has results, or throws.
pub(crate) fn wants_reply(operation: &OpDecl) -> bool
    ensures { IsTrue result ↔ WantsReply operation.now }
{
    !operation.results.required.is_empty()
        || !operation.results.optional.is_empty()
        || !operation.throws.is_empty()
}
