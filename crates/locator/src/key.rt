//! What a place is kept by, and asked for.

ghost use Rattle.std.specs.Prelude.{◌≡◌, ◌++◌, IfOk};
ghost use Rattle.std.proofs.Common.{rules};
ghost use Rattle.std.specs.Cmp.{and_equiv, on_equiv, nat_eq_equiv, partial_equiv_from_equiv};
ghost use Rattle.std.specs.Cmp.Lexicographic.{nat_list_eq_equiv};
ghost use Rattle.std.specs.Cmp.Rules.{comparing, hashing};
ghost use Rattle.std.specs.Hash as fed;
ghost use Rattle.locator.specs.Keys as keys;

use crate::copies::{copy_identity, copy_name};
use ice_types::{Identity, Name, Proxy};
use std::alloc::{AllocError, Global};
use std::hash::{Hash, Hasher};

/// What a place is kept by, and asked for. (Ice manual, "Locators".)
#[derive(Drop)]
pub enum Key {
    /// An object, by its identity.
    Object(Identity),
    /// An object adapter, by its id.
    Adapter(Name),
}

impl Key {
    /// Of what sort it is.
    fn sort(&self) -> u8
        ensures { result ≡ keys.sort self.now }
    {
        match self {
            Key::Object(_) => 0,
            Key::Adapter(_) => 1,
        }
    }

    /// The name of the object, or the id.
    pub(crate) fn name(&self) -> &str
        ensures { result.now ≡ keys.name self.now }
    {
        match self {
            Key::Object(identity) => identity.name.as_str(),
            Key::Adapter(id) => id.as_str(),
        }
    }

    /// The category of the object; an adapter has none.
    pub(crate) fn category(&self) -> &str
        ensures { result.now ≡ keys.category self.now }
    {
        match self {
            Key::Object(identity) => identity.category.as_str(),
            Key::Adapter(_) => "",
        }
    }
}

impl PartialEq for Key {
    ghost eq = { keys.same };

    ghost laws = { partial_equiv_from_equiv (keys.same_equiv) };

    fn eq(&self, other: &Key) -> bool {
        self.sort() == other.sort()
            && (self.name() == other.name() && self.category() == other.category())
    }
}

impl Eq for Key {
    ghost laws = { keys.same_equiv };
}

impl Hash for Key {
    ghost hash_input = { λ k. fed.u8 (keys.sort k) ++ (fed.str (keys.name k) ++ fed.str (keys.category k)) };

    ghost respects_eq = { Prim.search (hashing, rules) };

    fn hash<H: Hasher>(&self, state: &mut H) {
        state.write_u8(self.sort());
        self.name().hash(state);
        self.category().hash(state);
    }
}

/// What the place of a proxy without endpoints is kept by: its adapter, or else its object.
pub(crate) fn key_of(alloc: Global, proxy: &Proxy) -> Result<Key, AllocError>
    ensures { IfOk result (λ key. key ≡ keys.key_of proxy.now) }
{
    if proxy.adapter.as_str().is_empty() {
        Ok(Key::Object(copy_identity(alloc, &proxy.identity)?))
    } else {
        Ok(Key::Adapter(copy_name(alloc, &proxy.adapter)?))
    }
}
