//! Where objects and adapters are, as a locator knows it. (Ice manual, "Locators".)

ghost use Rattle.std.specs.Prelude.{◌≡◌, ◌≤◌, Some, IfErr, OnErr, MatchOption, length};
ghost use Rattle.std.specs.Cmp.{IsTotalOrder};
ghost use Rattle.std.specs.Ordering.{nat_cmp};
ghost use Rattle.std.specs.Cmp.Lexicographic.{slice_cmp};
ghost use Rattle.ice_encoding.specs.Proxies.{identity_cmp};
ghost use Rattle.ice_encoding.specs.Proxy.{HasProxySizes};
ghost use Rattle.ice_types.specs.declared.proxy.Proxy as proxies;
ghost use Rattle.object_adapter.specs.Rising.{IsSearched, Rises};
ghost use Rattle.object_adapter.specs.Places.{AddsPlace, ArePlacesBy, IsAt, by_id, by_identity, no_places};

use crate::add_fault::AddFault;
use crate::inserting::insert_at;
use crate::keys::identity_order;
use ice_types::{Identity, Name, Proxy};
use std::alloc::Global;
use std::cmp::Ordering;
use std::marker::Model;

/// How many objects, and how many adapters, a locator knows at most.
pub const MOST_PLACES: usize = 1_000;

/// Where objects and adapters are.
#[derive(Drop)]
pub struct Places {
    objects: Vec<(Identity, Proxy)>,
    adapters: Vec<(Name, Proxy)>,
}

impl Model for Places {
    ghost use Rattle.object_adapter.specs.Places.{ArePlaces, Known};

    ghost Value = { Known };

    ghost view = { λ p. record { objects = p.objects.items; adapters = p.adapters.items } };

    ghost invariant = { λ p. ArePlaces (record { objects = p.objects.items; adapters = p.adapters.items }) };
}

impl Places {
    /// No places, which take no memory.
    pub fn new(alloc: Global) -> Places
        ensures { result ≡ no_places }
    {
        Places {
            objects: Vec::new(alloc),
            adapters: Vec::new(alloc),
        }
    }

    /// Adds where an object is. It is refused where the place of one of this identity is known already, and
    /// else where as many are known as may be. A refusal changes nothing.
    pub fn add_object(&mut self, identity: Identity, proxy: Proxy) -> Result<(), AddFault>
        requires { HasProxySizes (Some proxy) }
        ensures adds { AddsPlace identity_cmp self.old.objects (identity, proxy) result self.new.objects }
        ensures same { self.new ≡ record self.old { objects = self.new.objects } }
        ensures err { OnErr result (self.new ≡ self.old) }
    {
        let searched = object_place(self.objects.as_slice(), &identity);
        add_place(&mut self.objects, searched, identity, proxy)
    }

    /// Adds where an adapter is, by its id. It is refused as `add_object` is.
    pub fn add_adapter(&mut self, id: Name, proxy: Proxy) -> Result<(), AddFault>
        requires { HasProxySizes (Some proxy) }
        ensures adds { AddsPlace (slice_cmp nat_cmp) self.old.adapters (id, proxy) result self.new.adapters }
        ensures same { self.new ≡ record self.old { adapters = self.new.adapters } }
        ensures err { OnErr result (self.new ≡ self.old) }
    {
        let searched = adapter_place(self.adapters.as_slice(), id.as_str());
        add_place(&mut self.adapters, searched, id, proxy)
    }

    /// Where the object of this identity is. It takes no memory.
    pub fn object(&self, identity: &Identity) -> Option<&Proxy>
        ensures found { MatchOption result
            ((p : proxies.Proxy) → IsAt self.now.objects identity.now p → ⊥)
            (λ p. IsAt self.now.objects identity.now p.now × HasProxySizes (Some p.now)) }
    {
        match object_place(self.objects.as_slice(), identity) {
            Ok(at) => Some(&self.objects[at].1),
            Err(_) => None,
        }
    }

    /// Where the adapter of this id is. It takes no memory.
    pub fn adapter(&self, id: &str) -> Option<&Proxy>
        ensures found { MatchOption result
            ((p : proxies.Proxy) → IsAt self.now.adapters id.now p → ⊥)
            (λ p. IsAt self.now.adapters id.now p.now × HasProxySizes (Some p.now)) }
    {
        match adapter_place(self.adapters.as_slice(), id) {
            Ok(at) => Some(&self.adapters[at].1),
            Err(_) => None,
        }
    }
}

/// Adds the place of a key where a search found no such key and there is room. A refusal changes nothing.
fn add_place<K: Drop>(
    places: &mut Vec<(K, Proxy)>,
    searched: Result<usize, usize>,
    key: K,
    proxy: Proxy,
) -> Result<(), AddFault>
    requires within { IfErr searched (λ at. at ≤ length places.old.items) }
    requires room { length places.old.items ≤ MOST_PLACES }
    ensures adds { (cmp : _) → IsTotalOrder cmp → IsSearched cmp (λ p. p.0) places.old.items key searched
        → AddsPlace cmp places.old.items (key, proxy) result places.new.items }
    ensures kept { (cmp : _) → IsTotalOrder cmp → IsSearched cmp (λ p. p.0) places.old.items key searched
        → HasProxySizes (Some proxy) → ArePlacesBy cmp places.old.items → ArePlacesBy cmp places.new.items }
    ensures err { OnErr result (places.new.items ≡ places.old.items) }
{
    let Err(at) = searched else {
        drop(proxy);
        return Err(AddFault::Twice);
    };
    if places.len() == MOST_PLACES {
        drop(proxy);
        return Err(AddFault::Full);
    }
    if insert_at(places, at, (key, proxy)).is_err() {
        return Err(AddFault::Memory);
    }
    Ok(())
}

/// Where the place of this object stands among those that rise, or would stand.
fn object_place(places: &[(Identity, Proxy)], identity: &Identity) -> Result<usize, usize>
    requires { Rises identity_cmp by_identity places.now }
    ensures { IsSearched identity_cmp by_identity places.now identity.now result }
{
    places.binary_search_by(|place| order_by_identity(place, identity))
}

/// Where the place of this adapter stands among those that rise, or would stand.
fn adapter_place(places: &[(Name, Proxy)], id: &str) -> Result<usize, usize>
    requires { Rises (slice_cmp nat_cmp) by_id places.now }
    ensures { IsSearched (slice_cmp nat_cmp) by_id places.now id.now result }
{
    places.binary_search_by(|place| order_by_id(place, id))
}

/// By the identity.
fn order_by_identity(place: &(Identity, Proxy), identity: &Identity) -> Ordering
    ensures { result ≡ identity_cmp place.now.0 identity.now }
{
    identity_order(&place.0, identity)
}

/// By the id.
fn order_by_id(place: &(Name, Proxy), id: &str) -> Ordering
    ensures { result ≡ slice_cmp nat_cmp place.now.0 id.now }
{
    place.0.as_str().cmp(id)
}
