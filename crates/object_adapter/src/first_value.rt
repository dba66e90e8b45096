//! What a store keeps at first.

ghost use Rattle.std.specs.Prelude.{◌≡◌, IfOk, codes};
ghost use Rattle.ice_types.specs.Fits.{IsOf};
ghost use Rattle.object_adapter.specs.FirstValue.{HoldsZeros, zeros};
ghost use Rattle.object_adapter.specs.Interfaces.{named};

use crate::results::Results;
use crate::store_deeds::put_type;
use crate::writing::written;
use graph_arena::{Graph, Members, ThinList};
use ice_types::{List, Schema, TypeRef};
use std::alloc::{AllocError, Global};
use value_checks::{zero, zeros_have_types};

/// The canonical encapsulation of the value of zeros that may be put at the interface, None where that is
/// longer than results may be, and where nothing is put.
pub(crate) fn first_value(
    alloc: Global,
    schema: &Schema,
    interface: u32,
) -> Result<Option<Results>, AllocError>
    ensures { IfOk result (λ value. HoldsZeros schema.now (named schema.now interface (codes "put")) value) }
{
    schema.rules();
    zeros_have_types();
    let Some(op) = schema.operation(interface, "put") else {
        return Ok(None);
    };
    match put_type(op) {
        Some(kind) => {
            let values = zeros(alloc, schema, kind)?;
            Ok(written(alloc, schema, &op.arguments, values)?)
        }
        None => Ok(None),
    }
}

/// The value of zeros of this type, as the only argument.
fn zeros(alloc: Global, schema: &Schema, kind: TypeRef) -> Result<Graph, AllocError>
    requires { IsOf schema.now kind }
    ensures { IfOk result (λ graph. graph ≡ zeros schema.now kind) }
{
    schema.rules();
    zeros_have_types();
    let value = zero(alloc, schema, kind)?;
    let mut required = List::new(alloc);
    match required.push(value) {
        Ok(()) => {
            let roots = Members {
                required,
                optional: ThinList::new(),
            };
            Ok(Graph::of(roots, Vec::new(alloc)))
        }
        Err(error) => {
            drop(required);
            Err(error)
        }
    }
}
