//! One attempt at a message whose proxy is resolved first.

ghost use Rattle.std.specs.Prelude.{◌≡◌, IfOk, IsSome, List, false, option_copied};
ghost use Rattle.encaps_optionals.specs.Usable.{tcp_at};
ghost use Rattle.retry_core.specs.declared.client_table.ClientState.TheVariants as states;
ghost use Rattle.ice_client.specs.Asking.{IsFor};
ghost use Rattle.ice_client.specs.ClientDid.{Rises};
ghost use Rattle.locator.specs.Caches.{kept_by};
ghost use Rattle.locator.specs.Keys as keys;
ghost use Rattle.locator.specs.Resolving.{got};
ghost use Rattle.locator.specs.Rounds.{Round, WereMade};
ghost use Rattle.locator.specs.Steps as spec;

use crate::cache::Cache;
use crate::key::Key;
use crate::resolving::{Resolved, resolve};
use encaps_optionals::tcp_of;
use ice_client::{Invoked, Once, Outgoing, attempt_once};
use ice_ports::Net;
use ice_types::Proxy;
use retry_core::{Attempt, Client};
use std::alloc::{AllocError, Global};

/// To whom a message goes, and by which locator.
#[derive(Clone, Copy)]
pub struct Target<'a> {
    pub locator: Option<&'a Proxy>,
    pub proxy: &'a Proxy,
    pub retries: u32,
}

/// What one step came to.
#[derive(Drop)]
pub enum Step {
    /// An attempt, which is over.
    Over(Once),
    /// No attempt: the proxy, or the one that it was resolved to, has no endpoint that can be used.
    NoEndpoint,
    /// No attempt: no endpoints were found.
    NotLocated,
    /// No attempt: the locator's own invocation failed.
    LocatorFailed(Invoked),
}

/// Resolves the proxy, and makes the attempt with this number at the place that it leads to. A place of the cache
/// at which nobody listens, or where the object is no more, is forgotten.
pub(crate) fn take_step<N: Net>(
    alloc: Global,
    net: &mut N,
    cache: &mut Cache,
    target: Target<'_>,
    key: &Key,
    number: u32,
    outgoing: &Outgoing,
    client: &mut Client,
) -> Result<Step, AllocError>
    requires key { key.now ≡ keys.key_of target.proxy.now }
    requires state { client.old.state ≡ states.Connecting }
    requires made { IsFor client.old outgoing.now }
    ensures told { (rounds : List Round)
        × WereMade rounds (N.told net.old) (N.told net.new) (N.failures net.old) (N.failures net.new)
        × spec.Steps (spec.target_of target.entry) outgoing.now number client.old client.new
        cache.old rounds cache.new (got result) }
    ensures fails { IfOk result (λ s. spec.IsFailure s → Rises (N.failures net.old) (N.failures net.new)) }
    ensures kept { N.listen_failures net.new ≡ N.listen_failures net.old }
{
    let resolved = resolve(
        alloc,
        net,
        cache,
        target.locator,
        target.proxy,
        target.retries,
    )?;
    match resolved {
        Resolved::Direct { proxy, cached } => attempt_at(
            alloc, net, cache, &proxy, cached, key, number, outgoing, client,
        ),
        Resolved::Unknown => Ok(Step::NotLocated),
        Resolved::Failed(invoked) => Ok(Step::LocatorFailed(invoked)),
    }
}

/// Makes the attempt at this place.
fn attempt_at<N: Net>(
    alloc: Global,
    net: &mut N,
    cache: &mut Cache,
    place: &Proxy,
    cached: bool,
    key: &Key,
    number: u32,
    outgoing: &Outgoing,
    client: &mut Client,
) -> Result<Step, AllocError>
    requires state { client.old.state ≡ states.Connecting }
    requires made { IsFor client.old outgoing.now }
    ensures told { (rounds : List Round)
        × WereMade rounds (N.told net.old) (N.told net.new) (N.failures net.old) (N.failures net.new)
        × spec.AttemptsAt place.now cached key.now outgoing.now number client.old client.new
        cache.old rounds cache.new (got result) }
    ensures fails { IfOk result (λ s. spec.IsFailure s → Rises (N.failures net.old) (N.failures net.new)) }
    ensures kept { N.listen_failures net.new ≡ N.listen_failures net.old }
{
    if tcp_of(place, number).is_none() {
        return Ok(Step::NoEndpoint);
    }
    let once = attempt_once(alloc, net, place, number, outgoing, cached, client)?;
    leave(cache, key, cached, client.attempts());
    Ok(Step::Over(once))
}

/// Forgets the key where the last attempt was at a place of the cache, and tells that the object is not there.
fn leave(cache: &mut Cache, key: &Key, cached: bool, attempts: &[Attempt])
    ensures { cache.new ≡ spec.left_after key.now cached attempts.now cache.old }
{
    if cached && ended_elsewhere(attempts) {
        cache.forget(key);
    }
}

/// Whether the last attempt found nobody at the place, or another than the object.
fn ended_elsewhere(attempts: &[Attempt]) -> bool
    ensures { result ≡ spec.ended_elsewhere attempts.now }
{
    match attempts.last() {
        Some(attempt) => is_elsewhere(*attempt),
        None => false,
    }
}

/// Whether an attempt that ended so tells that the object is not at the place.
fn is_elsewhere(attempt: Attempt) -> bool
    ensures { result ≡ spec.is_elsewhere attempt }
{
    match attempt {
        Attempt::NotConnected => true,
        Attempt::NotWhole => false,
        Attempt::Sent => false,
        Attempt::Lost => false,
        Attempt::Closed => false,
        Attempt::Stale => true,
        Attempt::Broke => false,
        Attempt::Replied => false,
    }
}
