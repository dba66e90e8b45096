//! What calls are forwarded by.

ghost use Rattle.std.specs.Prelude.{◌≡◌, option_map};
ghost use Rattle.ice_types.specs.Object.{object_tables};
ghost use Rattle.ice_gateway.specs.Gate.{operation_of, operation_seen, seen};

use ice_types::{OpDecl, Proxy, Schema};
use std::alloc::Global;

/// What calls are forwarded by.
#[derive(Clone, Copy)]
pub struct Gateway<'a> {
    pub alloc: Global,
    /// The operations that every object has.
    pub object: &'a Schema,
    pub schema: &'a Schema,
    /// The place of the interface whose operations are called.
    pub interface: u32,
    /// Where the servers are: its endpoints. No more of it is used.
    pub upstream: &'a Proxy,
    /// How often an attempt may be followed by another.
    pub retries: u32,
}

/// An operation, and the schema in which its types are.
#[derive(Clone, Copy)]
pub struct Known<'a> {
    pub schema: &'a Schema,
    pub operation: &'a OpDecl,
}

/// The operation of this name that every object has; else that of the interface.
pub(crate) fn known_of<'a>(gateway: &Gateway<'a>, name: &str) -> Option<Known<'a>>
    requires { gateway.now.object.now ≡ object_tables }
    ensures { option_map operation_seen result ≡ operation_of (seen gateway.now) name.now }
{
    if let Some(operation) = gateway.object.operation(0, name) {
        return Some(Known {
            schema: gateway.object,
            operation,
        });
    }
    let operation = gateway.schema.operation(gateway.interface, name)?;
    Some(Known {
        schema: gateway.schema,
        operation,
    })
}
