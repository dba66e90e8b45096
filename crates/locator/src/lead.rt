//! Where the locator's answers lead. (Ice manual, "Locators".)

ghost use Rattle.std.specs.Prelude.{◌≡◌, ◌∷◌, [], IfOk, None, Some, option_copied};
ghost use Rattle.ice_types.specs.Object.{required};
ghost use Rattle.ice_types.specs.declared.kind.TypeRef.TheVariants as kinds;
ghost use Rattle.locator_types.specs.Locator.{find_object, locator_tables};
ghost use Rattle.graph_arena.specs.Seen.{view_slice, view_slices};
ghost use Rattle.graph_arena.specs.View.{view, unboxed};
ghost use Rattle.locator.specs.Leads as spec;

use crate::copies::{copy_endpoints, copy_name};
use class_slices::{decode, read_exception};
use graph_arena::{Graph, Slice, Value};
use ice_client::{Invoked, Outcome};
use ice_messages::Answer;
use ice_prims::ReadFault;
use ice_types::{Bytes, Endpoint, List, Member, Name, Proxy, Schema, TypeRef};
use std::alloc::{AllocError, Global};
use value_parts::DeclaredMembers;

/// Where an answer of the locator leads.
#[derive(Drop)]
pub enum Lead {
    /// To these endpoints, one at least.
    At(List<Endpoint>),
    /// To an adapter, by its id, and to no endpoints.
    Behind(Name),
    /// Nowhere: nothing was found.
    Nowhere,
}

/// Where the outcome of a question leads: None where it is no answer of a locator.
pub(crate) fn lead_of(
    alloc: Global,
    schema: &Schema,
    outcome: &Outcome,
) -> Result<Option<Lead>, AllocError>
    requires { schema.now ≡ locator_tables }
    ensures { IfOk result (λ lead. lead ≡ spec.lead_of outcome.now) }
{
    match outcome {
        Outcome::Replied(Answer::Done(body)) => of_results(alloc, schema, body),
        Outcome::Replied(Answer::Raised(body)) => of_raised(alloc, schema, body),
        Outcome::Replied(Answer::Missing { .. })
        | Outcome::Replied(Answer::Unknown { .. })
        | Outcome::Sent
        | Outcome::NetFailed
        | Outcome::Ended
        | Outcome::Closed
        | Outcome::Broke(_)
        | Outcome::NoEndpoint => Ok(None),
    }
}

/// Where the results of a question lead: None where they are no `Object*`.
fn of_results(alloc: Global, schema: &Schema, body: &Bytes) -> Result<Option<Lead>, AllocError>
    requires { schema.now ≡ locator_tables }
    ensures { IfOk result (λ lead. lead ≡ spec.of_results (spec.results_at body.now)) }
{
    let required = proxy_result(alloc)?;
    let fields = DeclaredMembers {
        required: required.as_slice(),
        optional: &[],
    };
    match decode(alloc, schema, fields, body.as_slice()) {
        Ok(results) => of_graph(alloc, &results),
        Err(ReadFault::Broken(_)) => Ok(None),
        Err(ReadFault::Memory) => Err(AllocError),
    }
}

/// The results of both operations: a proxy.
fn proxy_result(alloc: Global) -> Result<List<Member>, AllocError>
    ensures { IfOk result (λ members. members ≡ find_object.results.required) }
{
    let name = Name::of(alloc, "$return")?;
    let mut members = List::new(alloc);
    members.push(Member {
        name,
        kind: TypeRef::Proxy(None),
        tag: None,
    })?;
    Ok(members)
}

/// Where the only result leads.
fn of_graph(alloc: Global, results: &Graph) -> Result<Option<Lead>, AllocError>
    ensures { IfOk result (λ lead. lead ≡ spec.of_members results.now.roots.required) }
{
    match results.roots().required.as_slice() {
        [] => Ok(None),
        [value] => of_value(alloc, value),
        [_, _, ..] => Ok(None),
    }
}

/// Where a proxy leads, and None for any other value.
fn of_value(alloc: Global, value: &Value) -> Result<Option<Lead>, AllocError>
    ensures { IfOk result (λ lead. lead ≡ spec.of_value (view value.now)) }
{
    match value {
        Value::Proxy(Some(proxy)) => Ok(Some(of_proxy(alloc, proxy)?)),
        Value::Proxy(None) => Ok(Some(Lead::Nowhere)),
        _ => Ok(None),
    }
}

/// Where a proxy leads.
fn of_proxy(alloc: Global, proxy: &Proxy) -> Result<Lead, AllocError>
    ensures { IfOk result (λ lead. lead ≡ spec.of_proxy proxy.now) }
{
    if !proxy.endpoints.is_empty() {
        return Ok(Lead::At(copy_endpoints(alloc, proxy.endpoints.as_slice())?));
    }
    if proxy.adapter.as_str().is_empty() {
        return Ok(Lead::Nowhere);
    }
    Ok(Lead::Behind(copy_name(alloc, &proxy.adapter)?))
}

/// Where a raised exception leads: nowhere, if it says that nothing was found; None if it is another one.
fn of_raised(alloc: Global, schema: &Schema, body: &Bytes) -> Result<Option<Lead>, AllocError>
    requires { schema.now ≡ locator_tables }
    ensures { IfOk result (λ lead. lead ≡ spec.of_raised (spec.raised_at body.now)) }
{
    match read_exception(alloc, schema, body.as_slice()) {
        Ok(raised) => Ok(of_slices(raised.slices.as_slice())),
        Err(ReadFault::Broken(_)) => Ok(None),
        Err(ReadFault::Memory) => Err(AllocError),
    }
}

/// The same by its slices: the locator's schema knows the two exceptions that say so, and no other.
fn of_slices(slices: &[Slice]) -> Option<Lead>
    ensures { result ≡ spec.of_slices (view_slices slices.now) }
{
    match slices {
        [] => None,
        [first, ..] => of_slice(first),
    }
}

/// By the first one.
fn of_slice(first: &Slice) -> Option<Lead>
    ensures { result ≡ spec.of_slice (view_slice first.now) }
{
    match first {
        Slice::Known { .. } => Some(Lead::Nowhere),
        Slice::Unknown(_) => None,
    }
}
