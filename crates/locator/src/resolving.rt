//! The endpoints of a proxy. (Ice manual, "Locators".)

ghost use Rattle.std.specs.Prelude.{◌≡◌, IfOk, List, false, option_copied};
ghost use Rattle.ice_client.specs.ClientDid.{Rises};
ghost use Rattle.locator.specs.Keys as keys;
ghost use Rattle.locator.specs.Resolving as spec;
ghost use Rattle.locator.specs.Resolving.{Resolves, By, IsFailure, got, placed};
ghost use Rattle.locator.specs.declared.resolving.Resolved.TheVariants as answers;
ghost use Rattle.locator.specs.Rounds.{Round, WereMade};

use crate::asking::{Found, find};
use crate::cache::Cache;
use crate::copies::{copy_endpoints, copy_name, copy_to};
use crate::key::{Key, key_of};
use ice_client::Invoked;
use ice_ports::Net;
use ice_types::{Endpoint, Name, Proxy};
use std::alloc::{AllocError, Global};

/// Where a proxy leads.
#[derive(Drop)]
pub enum Resolved {
    /// To the endpoints of this proxy: the one given, or for one without endpoints the same without its adapter
    /// and with those that were found; and whether they came from the cache.
    Direct { proxy: Proxy, cached: bool },
    /// Nowhere: no endpoints were found.
    Unknown,
    /// Nowhere, since the locator's own invocation gave neither a proxy nor an exception that says that nothing
    /// was found.
    Failed(Invoked),
}

/// Finds the endpoints of the proxy: its own, else those that the cache keeps for its adapter or, without one,
/// for its object, else those that the locator tells, which are kept then. The locator is called twoway, and
/// tried again at most so many times. Out of memory leaves the cache as it was. (Ice manual, "Locators".)
pub fn resolve<N: Net>(
    alloc: Global,
    net: &mut N,
    cache: &mut Cache,
    locator: Option<&Proxy>,
    proxy: &Proxy,
    retries: u32,
) -> Result<Resolved, AllocError>
    ensures told { (rounds : List Round)
        × WereMade rounds (N.told net.old) (N.told net.new) (N.failures net.old) (N.failures net.new)
        × Resolves cache.old (option_copied locator.entry) proxy.now retries rounds cache.new (got result) }
    ensures fails { IfOk result (λ r. IsFailure r → Rises (N.failures net.old) (N.failures net.new)) }
    ensures kept { N.listen_failures net.new ≡ N.listen_failures net.old }
{
    if !proxy.endpoints.is_empty() {
        return own(alloc, proxy);
    }
    let key = key_of(alloc, proxy)?;
    if let Some(endpoints) = cache.get(&key) {
        return direct(alloc, proxy, endpoints.as_slice(), true);
    }
    not_kept(alloc, net, cache, locator, proxy, key, retries)
}

/// The proxy as it is.
fn own(alloc: Global, proxy: &Proxy) -> Result<Resolved, AllocError>
    ensures { IfOk result (λ r. r ≡ answers.Direct proxy.now false) }
{
    let endpoints = copy_endpoints(alloc, proxy.endpoints.as_slice())?;
    let adapter = copy_name(alloc, &proxy.adapter)?;
    Ok(Resolved::Direct {
        proxy: copy_to(alloc, proxy, endpoints, adapter)?,
        cached: false,
    })
}

/// The proxy without its adapter and with these endpoints.
fn direct(
    alloc: Global,
    proxy: &Proxy,
    endpoints: &[Endpoint],
    cached: bool,
) -> Result<Resolved, AllocError>
    ensures { IfOk result (λ r. r ≡ answers.Direct (placed proxy.now endpoints.now) cached) }
{
    let endpoints = copy_endpoints(alloc, endpoints)?;
    Ok(Resolved::Direct {
        proxy: copy_to(alloc, proxy, endpoints, Name::of(alloc, "")?)?,
        cached,
    })
}

/// Goes on where the proxy has no endpoints and none are kept for it.
fn not_kept<N: Net>(
    alloc: Global,
    net: &mut N,
    cache: &mut Cache,
    locator: Option<&Proxy>,
    proxy: &Proxy,
    key: Key,
    retries: u32,
) -> Result<Resolved, AllocError>
    requires { key ≡ keys.key_of proxy.now }
    ensures told { (rounds : List Round)
        × WereMade rounds (N.told net.old) (N.told net.new) (N.failures net.old) (N.failures net.new)
        × By (spec.beyond (option_copied locator.entry)) cache.old proxy.now retries rounds cache.new (got result) }
    ensures fails { IfOk result (λ r. IsFailure r → Rises (N.failures net.old) (N.failures net.new)) }
    ensures kept { N.listen_failures net.new ≡ N.listen_failures net.old }
{
    match locator {
        Some(locator) => look_up(alloc, net, cache, locator, proxy, key, retries),
        None => Ok(Resolved::Unknown),
    }
}

/// Has the locator find the endpoints, and keeps them.
fn look_up<N: Net>(
    alloc: Global,
    net: &mut N,
    cache: &mut Cache,
    locator: &Proxy,
    proxy: &Proxy,
    key: Key,
    retries: u32,
) -> Result<Resolved, AllocError>
    requires { key ≡ keys.key_of proxy.now }
    ensures told { (rounds : List Round)
        × WereMade rounds (N.told net.old) (N.told net.new) (N.failures net.old) (N.failures net.new)
        × By (spec.by_locator locator.now) cache.old proxy.now retries rounds cache.new (got result) }
    ensures fails { IfOk result (λ r. IsFailure r → Rises (N.failures net.old) (N.failures net.new)) }
    ensures kept { N.listen_failures net.new ≡ N.listen_failures net.old }
{
    let found = find(alloc, net, locator, &key, retries)?;
    settle(alloc, cache, proxy, key, found)
}

/// Keeps what was found.
fn settle(
    alloc: Global,
    cache: &mut Cache,
    proxy: &Proxy,
    key: Key,
    found: Found,
) -> Result<Resolved, AllocError>
    requires { key ≡ keys.key_of proxy.now }
    ensures { spec.SettlesOrEnds cache.old proxy.now found cache.new (got result) }
{
    match found {
        Found::At(endpoints) => {
            let resolved = direct(alloc, proxy, endpoints.as_slice(), false)?;
            cache.keep(key, endpoints)?;
            Ok(resolved)
        }
        Found::Nowhere => Ok(Resolved::Unknown),
        Found::Failed(invoked) => Ok(Resolved::Failed(invoked)),
    }
}
