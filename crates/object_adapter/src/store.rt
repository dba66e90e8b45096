//! A store: an object that keeps a number and a value.

ghost use Rattle.std.specs.Prelude.{◌≡◌, IfOk, OnErr, MatchOption};
ghost use Rattle.std.specs.Arc.{arc_value};
ghost use Rattle.ice_types.specs.declared.declarations.OpDecl.{OpDecl};
ghost use Rattle.object_adapter.specs.declared.store_deeds.Deed.{Deed};
ghost use Rattle.object_adapter.specs.Refusals.{Outcome};
ghost use Rattle.object_adapter.specs.FirstValue.{IsFirst};
ghost use Rattle.object_adapter.specs.Stores.{Acts, Has, Refuses};

use crate::admitting::admit;
use crate::first_value::first_value;
use crate::kept::Kept;
use crate::refusal::{Refusal, Unanswered};
use crate::results::Results;
use crate::store_deeds::{Deed, deed_of};
use ice_messages::Call;
use ice_types::{OpDecl, Schema};
use std::alloc::{AllocError, Global};
use std::sync::Arc;

/// An object that keeps a number and a value.
#[derive(Drop)]
pub struct Store {
    pub schema: Arc<Schema>,
    /// The place of its interface.
    pub interface: u32,
    pub kept: Kept,
}

impl Store {
    /// A store of the interface at this place, which keeps 0 and the value of zeros.
    pub fn new(alloc: Global, schema: Arc<Schema>, interface: u32) -> Result<Store, AllocError>
        ensures types { IfOk result (λ store. arc_value store.schema ≡ arc_value schema) }
        ensures interface { IfOk result (λ store. store.interface ≡ interface) }
        ensures kept { IfOk result (λ store. IsFirst (arc_value schema) interface store.kept) }
    {
        let types: &Schema = &schema;
        match first_value(alloc, types, interface) {
            Ok(value) => Ok(Store {
                schema,
                interface,
                kept: Kept { number: 0, value },
            }),
            Err(error) => {
                drop(schema);
                Err(error)
            }
        }
    }

    /// The results of a call, or why it is refused. A refusal changes nothing.
    pub(crate) fn act(&mut self, alloc: Global, call: &Call) -> Result<Results, Unanswered>
        ensures acts { Outcome
            (λ results. Acts (arc_value self.old.schema) self.old.interface call.now self.old.kept results
            self.new.kept)
            (Refuses (arc_value self.old.schema) self.old.interface call.now self.old.kept) result }
        ensures same { self.new ≡ record self.old { kept = self.new.kept } }
        ensures err { OnErr result (self.new ≡ self.old) }
    {
        let schema: &Schema = &self.schema;
        let found = find(schema, self.interface, call.operation.as_str());
        let Some((op, deed)) = found else {
            return Err(Unanswered::Refused(Refusal::NoOperation));
        };
        let arguments = admit(alloc, schema, op.idempotent, &op.arguments, call)?;
        self.kept.act(alloc, schema, deed, &op.arguments, arguments)
    }
}

/// The operation of this name that a store of the interface has, and what it does.
fn find<'a>(schema: &'a Schema, interface: u32, name: &str) -> Option<(&'a OpDecl, Deed)>
    ensures { MatchOption result
        ((op : OpDecl) (deed : Deed) → Has schema.now interface name.now op deed → ⊥)
        (λ found. Has schema.now interface name.now found.0.now found.1) }
{
    let op = schema.operation(interface, name)?;
    let deed = deed_of(schema.operation(interface, "put"), op)?;
    Some((op, deed))
}
