//! Questions put to a locator, and what they find. (Ice manual, "Locators".)

ghost use Rattle.std.specs.Prelude.{◌≡◌, IfOk, List};
ghost use Rattle.ice_client.specs.ClientDid.{Rises};
ghost use Rattle.locator_types.specs.Locator.{locator_tables};
ghost use Rattle.locator.specs.Asking as spec;
ghost use Rattle.locator.specs.Asking.{Asks, FindsOrEnds, FollowsOrEnds, HasFailed, FindsFailure};
ghost use Rattle.locator.specs.Rounds.{Round, WereMade};

use crate::key::Key;
use crate::lead::{Lead, lead_of};
use crate::question::question;
use ice_client::{Invoked, invoke};
use ice_messages::WriteFault;
use ice_ports::Net;
use ice_types::{Endpoint, List, Name, Proxy, Schema};
use locator_types::locator_schema;
use std::alloc::{AllocError, Global};

/// What one question came to.
#[derive(Drop)]
pub enum Told {
    /// An answer that leads there.
    Leads(Lead),
    /// No answer of a locator.
    Failed(Invoked),
}

/// What is done after the first question.
#[derive(Drop)]
pub enum Next {
    /// The adapter with this id is asked for in turn.
    Ask(Name),
    /// Nothing: this was found.
    Over(Found),
}

/// What a locator found.
#[derive(Drop)]
pub enum Found {
    /// These endpoints.
    At(List<Endpoint>),
    /// Nothing.
    Nowhere,
    /// Nothing, since a question had no answer of a locator.
    Failed(Invoked),
}

/// Finds what the key names. An object that is behind an adapter leads to a second question, for that adapter.
pub(crate) fn find<N: Net>(
    alloc: Global,
    net: &mut N,
    locator: &Proxy,
    key: &Key,
    retries: u32,
) -> Result<Found, AllocError>
    ensures told { (rounds : List Round)
        × WereMade rounds (N.told net.old) (N.told net.new) (N.failures net.old) (N.failures net.new)
        × FindsOrEnds locator.now retries key.now rounds result }
    ensures fails { IfOk result (λ found. FindsFailure found → Rises (N.failures net.old) (N.failures net.new)) }
    ensures kept { N.listen_failures net.new ≡ N.listen_failures net.old }
{
    let schema = locator_schema(alloc)?;
    find_by(alloc, net, &schema, locator, key, retries)
}

/// The same by the schema of locators.
fn find_by<N: Net>(
    alloc: Global,
    net: &mut N,
    schema: &Schema,
    locator: &Proxy,
    key: &Key,
    retries: u32,
) -> Result<Found, AllocError>
    requires { schema.now ≡ locator_tables }
    ensures told { (rounds : List Round)
        × WereMade rounds (N.told net.old) (N.told net.new) (N.failures net.old) (N.failures net.new)
        × FindsOrEnds locator.now retries key.now rounds result }
    ensures fails { IfOk result (λ found. FindsFailure found → Rises (N.failures net.old) (N.failures net.new)) }
    ensures kept { N.listen_failures net.new ≡ N.listen_failures net.old }
{
    let told = ask(alloc, net, schema, locator, key, retries)?;
    match what_next(key, told) {
        Next::Ask(id) => find_behind(alloc, net, schema, locator, id, retries),
        Next::Over(found) => Ok(found),
    }
}

/// Finds an adapter that an object is behind.
fn find_behind<N: Net>(
    alloc: Global,
    net: &mut N,
    schema: &Schema,
    locator: &Proxy,
    id: Name,
    retries: u32,
) -> Result<Found, AllocError>
    requires { schema.now ≡ locator_tables }
    ensures told { (rounds : List Round)
        × WereMade rounds (N.told net.old) (N.told net.new) (N.failures net.old) (N.failures net.new)
        × FollowsOrEnds locator.now retries id rounds result }
    ensures fails { IfOk result (λ found. FindsFailure found → Rises (N.failures net.old) (N.failures net.new)) }
    ensures kept { N.listen_failures net.new ≡ N.listen_failures net.old }
{
    let adapter = Key::Adapter(id);
    let told = ask(alloc, net, schema, locator, &adapter, retries)?;
    Ok(settled(told))
}

/// What is done after this answer to the question for the key.
fn what_next(key: &Key, told: Told) -> Next
    ensures { result ≡ spec.next key.now told }
{
    match key {
        Key::Object(_) => next_of_object(told),
        Key::Adapter(_) => Next::Over(settled(told)),
    }
}

/// The same where the question was for an object.
fn next_of_object(told: Told) -> Next
    ensures { result ≡ spec.next_of_object told }
{
    match told {
        Told::Leads(Lead::Behind(id)) => Next::Ask(id),
        Told::Leads(Lead::At(endpoints)) => Next::Over(Found::At(endpoints)),
        Told::Leads(Lead::Nowhere) => Next::Over(Found::Nowhere),
        Told::Failed(invoked) => Next::Over(Found::Failed(invoked)),
    }
}

/// What is found by an answer after which no question follows.
fn settled(told: Told) -> Found
    ensures { result ≡ spec.found told }
{
    match told {
        Told::Leads(Lead::Behind(_)) => Found::Nowhere,
        Told::Leads(Lead::At(endpoints)) => Found::At(endpoints),
        Told::Leads(Lead::Nowhere) => Found::Nowhere,
        Told::Failed(invoked) => Found::Failed(invoked),
    }
}

/// Puts one question, and reads the answer.
fn ask<N: Net>(
    alloc: Global,
    net: &mut N,
    schema: &Schema,
    locator: &Proxy,
    key: &Key,
    retries: u32,
) -> Result<Told, AllocError>
    requires { schema.now ≡ locator_tables }
    ensures told { (rounds : List Round)
        × WereMade rounds (N.told net.old) (N.told net.new) (N.failures net.old) (N.failures net.new)
        × Asks locator.now retries key.now rounds result }
    ensures fails { IfOk result (λ told. HasFailed told → Rises (N.failures net.old) (N.failures net.new)) }
    ensures kept { N.listen_failures net.new ≡ N.listen_failures net.old }
{
    match put(alloc, net, locator, key, retries)? {
        Some(invoked) => tell(alloc, schema, invoked),
        None => Ok(Told::Leads(Lead::Nowhere)),
    }
}

/// What an invocation of the locator came to.
fn tell(alloc: Global, schema: &Schema, invoked: Invoked) -> Result<Told, AllocError>
    requires { schema.now ≡ locator_tables }
    ensures { IfOk result (λ told. told ≡ spec.told_by_invoked invoked) }
{
    match lead_of(alloc, schema, &invoked.outcome)? {
        Some(lead) => Ok(Told::Leads(lead)),
        None => Ok(Told::Failed(invoked)),
    }
}

/// Invokes the locator: None where the request may not be so long.
fn put<N: Net>(
    alloc: Global,
    net: &mut N,
    locator: &Proxy,
    key: &Key,
    retries: u32,
) -> Result<Option<Invoked>, AllocError>
    ensures told { (rounds : List Round)
        × WereMade rounds (N.told net.old) (N.told net.new) (N.failures net.old) (N.failures net.new)
        × spec.Puts locator.now retries key.now rounds result }
    ensures fails { IfOk result (λ invoked.
        spec.IsNetFailure invoked → Rises (N.failures net.old) (N.failures net.new)) }
    ensures kept { N.listen_failures net.new ≡ N.listen_failures net.old }
{
    let Some(call) = question(alloc, locator, key)? else {
        return Ok(None);
    };
    match invoke(alloc, net, locator, &call, retries) {
        Ok(invoked) => Ok(Some(invoked)),
        Err(WriteFault::TooLong(_)) => Ok(None),
        Err(WriteFault::Memory) => Err(AllocError),
    }
}
