//! What a locator's operations seek, and the answers to them. (Ice manual, "Locators".)

ghost use Rattle.std.specs.Prelude.{◌≡◌, ◌<◌, IfOk, Some, length};
ghost use Rattle.ice_types.specs.Tables.{Finds};
ghost use Rattle.ice_types.specs.declared.kind.TypeRef.TheVariants as kinds;
ghost use Rattle.ice_encoding.specs.Proxy as form;
ghost use Rattle.ice_encoding.specs.Proxy.{HasProxySizes};
ghost use Rattle.object_adapter.specs.Replies.{IsReply};
ghost use Rattle.class_slices.specs.Seen.{view_user_exception};
ghost use Rattle.locator_types.specs.Locator.{locator_tables};
ghost use Rattle.object_adapter.specs.declared.refusal.Refusal.TheVariants as refusals;
ghost use Rattle.object_adapter.specs.Admitting.{IsRefusedLength};
ghost use Rattle.object_adapter.specs.Refusals.{Outcome};
ghost use Rattle.object_adapter.specs.Locators as spec;
ghost use Rattle.object_adapter.specs.Locators.{GivesNotFound, GivesProxy, IsNamed, not_found_bytes};

use crate::admitting::only_id;
use crate::enclosing::enclose;
use crate::refusal::{LONGEST, Refusal, Unanswered};
use crate::results::Results;
use class_slices::{Format, UserException, UserExceptionFault, write_exception};
use encaps_optionals::write_proxy;
use graph_arena::{Graph, Members, Slice, ThinList};
use ice_messages::Answer;
use ice_types::{List, Proxy, Schema, Shape, TypeRef};
use std::alloc::{AllocError, Global};

/// What an operation of a locator seeks.
#[derive(Clone, Copy)]
pub enum Sought {
    /// An object, by its identity.
    Object,
    /// An adapter, by its id.
    Adapter,
}

/// What the operation of this name seeks.
pub(crate) fn sought_of(name: &str) -> Option<Sought>
    ensures { Finds (IsNamed name.now) result }
{
    match name {
        "findObjectById" => Some(Sought::Object),
        "findAdapterById" => Some(Sought::Adapter),
        _ => None,
    }
}

/// The arguments of that operation.
pub(crate) fn sought_shape(alloc: Global, sought: Sought) -> Result<Shape, AllocError>
    ensures { IfOk result (λ shape. shape ≡ spec.sought_shape sought) }
{
    only_id(alloc, id_type(sought))
}

/// The type of the id: `::Ice::Identity`, or a string.
fn id_type(sought: Sought) -> TypeRef
    ensures { result ≡ spec.id_type sought }
{
    match sought {
        Sought::Object => TypeRef::Struct(0),
        Sought::Adapter => TypeRef::Text,
    }
}

/// The answer with a proxy, where it is not longer than answers may be.
pub(crate) fn proxy_answer(alloc: Global, proxy: &Proxy) -> Result<Answer, Unanswered>
    requires { HasProxySizes (Some proxy.now) }
    ensures answers { Outcome (GivesProxy proxy.now) (IsRefusedLength (form.proxy.put (Some proxy.now))) result }
    ensures writable { IfOk result IsReply }
{
    let mut content = Vec::new(alloc);
    write_proxy(&mut content, Some(proxy))?;
    Ok(enclose(alloc, content.as_slice())?.done())
}

/// The exception that says that the place of what is sought is not known, where it is not longer than
/// answers may be.
pub(crate) fn not_found_answer(
    alloc: Global,
    schema: &Schema,
    sought: Sought,
) -> Result<Answer, Unanswered>
    requires { schema.now ≡ locator_tables }
    ensures raises { Outcome (GivesNotFound sought)
        (λ refusal. (refusal ≡ refusals.TooLong) × (LONGEST < length (not_found_bytes sought))) result }
    ensures writable { IfOk result IsReply }
{
    let raised = not_found(alloc, sought)?;
    match write_exception(alloc, schema, raised, Format::Sliced, LONGEST) {
        Ok(bytes) => Ok(Results::of(bytes).raised()),
        Err(UserExceptionFault::TooLong(_)) => Err(Unanswered::Refused(Refusal::TooLong)),
        Err(UserExceptionFault::Memory) => Err(Unanswered::Memory),
        Err(UserExceptionFault::IllTyped(_)) => unreachable!(),
        Err(UserExceptionFault::UnknownNeedsSliced(_)) => unreachable!(),
    }
}

/// That exception, which has no members.
fn not_found(alloc: Global, sought: Sought) -> Result<UserException, AllocError>
    ensures { IfOk result (λ raised. view_user_exception raised ≡ spec.not_found sought) }
{
    let members = Members {
        required: List::new(alloc),
        optional: ThinList::new(),
    };
    let class = exception_of(sought);
    let mut slices = List::new(alloc);
    match slices.push(Slice::Known { class, members }) {
        Ok(()) => Ok(UserException {
            slices,
            graph: Graph::new(alloc),
        }),
        Err(error) => {
            drop(slices);
            Err(error)
        }
    }
}

/// The place of that exception in the schema.
fn exception_of(sought: Sought) -> u32
    ensures { result ≡ spec.exception_of sought }
{
    match sought {
        Sought::Object => 0,
        Sought::Adapter => 1,
    }
}
