//! The keys of a server's objects, in order.

ghost use Rattle.std.specs.Prelude.{◌≡◌, ◌≤◌, ◌<◌, ◌↔◌, [], IfErr, IfOk, IsTrue, OnOk, OnErr, length};
ghost use Rattle.std.specs.List.{insert};
ghost use Rattle.ice_encoding.specs.Proxies.{identity_cmp};
ghost use Rattle.object_adapter.specs.Adapters.{Declines};
ghost use Rattle.object_adapter.specs.Rising.{IsSearched};
ghost use Rattle.object_adapter.specs.Keys.{AreKeys, HasIdentity, IsFound, IsGapFor, KeysRise, itself, key_cmp};

use crate::add_fault::AddFault;
use crate::inserting::insert_at;
use ice_types::{Identity, Name};
use std::alloc::{AllocError, Global};
use std::cmp::Ordering;
use std::marker::Model;

/// How many objects an adapter has at most.
pub const MOST_OBJECTS: u32 = 1_000;

/// Which object a call names.
#[derive(Clone, Copy)]
pub enum Found {
    /// The one at this place.
    At(u32),
    /// No object has the identity.
    NoObject,
    /// An object has the identity, with another facet alone.
    NoFacet,
}

/// The keys of objects: identities with facets, each once, in rising order.
/// (Ice manual, "Object Identity" and "Facets".)
pub struct Keys {
    keys: Vec<(Identity, Name)>,
}

impl Drop for Keys {
    fn drop(self) {
        let Keys { keys } = self;
        drop(keys);
    }
}

impl Model for Keys {
    ghost use Rattle.std.specs.Prelude.{List};
    ghost use Rattle.object_adapter.specs.Keys.{AreKeys, Key};

    ghost Value = { List Key };

    ghost view = { λ k. k.keys.items };

    ghost invariant = { λ k. AreKeys k.keys.items };
}

impl Keys {
    /// No keys, which take no memory.
    pub fn new(alloc: Global) -> Keys
        ensures { result ≡ [] }
    {
        Keys {
            keys: Vec::new(alloc),
        }
    }

    /// How many keys there are.
    pub fn len(&self) -> u32
        ensures len { result ≡ length self.now }
        ensures kept { AreKeys self.now }
    {
        self.keys.len() as u32
    }

    /// Whether there is no key.
    pub fn is_empty(&self) -> bool
        ensures { IsTrue result ↔ (self.now ≡ []) }
    {
        self.keys.is_empty()
    }

    /// Which key has this identity and facet. It takes no memory, and time that grows as the logarithm of
    /// the number of keys.
    pub fn find(&self, identity: &Identity, facet: &str) -> Found
        ensures { IsFound self.now identity.now facet.now result }
    {
        // Its contract says what all keys keep.
        self.len();
        match self.search(identity, facet) {
            Ok(at) => Found::At(at as u32),
            Err(_) if self.has_identity(identity) => Found::NoFacet,
            Err(_) => Found::NoObject,
        }
    }

    /// Where the key stands, or would stand.
    fn search(&self, identity: &Identity, facet: &str) -> Result<usize, usize>
        ensures { IsSearched key_cmp itself self.now (identity.now, facet.now) result }
    {
        place_of(self.keys.as_slice(), identity, facet)
    }

    /// Where an object of this identity and facet would stand, or why none may be added.
    pub(crate) fn gap_for(&self, identity: &Identity, facet: &str) -> Result<usize, AddFault>
        ensures ok { IfOk result (λ at.
            IsGapFor self.now (identity.now, facet.now) at × (length self.now < MOST_OBJECTS)) }
        ensures err { IfErr result (Declines self.now (identity.now, facet.now)) }
    {
        let Err(at) = self.search(identity, facet) else {
            return Err(AddFault::Twice);
        };
        if self.len() == MOST_OBJECTS {
            return Err(AddFault::Full);
        }
        Ok(at)
    }

    /// Whether a key has this identity.
    fn has_identity(&self, identity: &Identity) -> bool
        ensures { IsTrue result ↔ HasIdentity self.now identity.now }
    {
        have_identity(self.keys.as_slice(), identity)
    }

    /// Puts a key where it would stand. Out of memory leaves the keys as they were.
    pub(crate) fn insert(&mut self, at: usize, key: (Identity, Name)) -> Result<(), AllocError>
        requires room { length self.old < MOST_OBJECTS }
        requires gap { IsGapFor self.old key at }
        ensures ok { OnOk result (self.new ≡ insert self.old at key) }
        ensures err { OnErr result (self.new ≡ self.old) }
    {
        insert_at(&mut self.keys, at, key)
    }
}

/// Where the key stands among keys that rise, or would stand.
fn place_of(keys: &[(Identity, Name)], identity: &Identity, facet: &str) -> Result<usize, usize>
    requires { KeysRise keys.now }
    ensures { IsSearched key_cmp itself keys.now (identity.now, facet.now) result }
{
    keys.binary_search_by(|key| key_order(key, identity, facet))
}

/// Whether one of the keys, which rise, has this identity.
fn have_identity(keys: &[(Identity, Name)], identity: &Identity) -> bool
    requires { KeysRise keys.now }
    ensures { IsTrue result ↔ HasIdentity keys.now identity.now }
{
    keys.binary_search_by(|key| order_by_identity(key, identity))
        .is_ok()
}

/// By the identity, and then by the facet.
fn key_order(key: &(Identity, Name), identity: &Identity, facet: &str) -> Ordering
    ensures { result ≡ key_cmp key.now (identity.now, facet.now) }
{
    let facets = key.1.as_str().cmp(facet);
    identity_order(&key.0, identity).then(facets)
}

/// By the identity alone.
fn order_by_identity(key: &(Identity, Name), identity: &Identity) -> Ordering
    ensures { result ≡ identity_cmp key.now.0 identity.now }
{
    identity_order(&key.0, identity)
}

/// By the name, and then by the category.
pub(crate) fn identity_order(one: &Identity, other: &Identity) -> Ordering
    ensures { result ≡ identity_cmp one.now other.now }
{
    let categories = one.category.as_str().cmp(other.category.as_str());
    one.name.as_str().cmp(other.name.as_str()).then(categories)
}
