//! The objects of a server by identity and facet.

ghost use Rattle.std.specs.Prelude.{◌≡◌, ◌<◌, IfOk, IfErr, OnOk, OnErr, length};
ghost use Rattle.std.specs.List.{insert};
ghost use Rattle.object_adapter.specs.declared.add_fault.AddFault.TheVariants as add_faults;
ghost use Rattle.object_adapter.specs.declared.keys.TheConstants.{MOST_OBJECTS};
ghost use Rattle.object_adapter.specs.Objects.{AreObjects, no_objects};
ghost use Rattle.object_adapter.specs.Adapters.{Adds, Answered};
ghost use Rattle.object_adapter.specs.Keys.{IsFound, IsGapFor};
ghost use Rattle.object_adapter.specs.Replies.{CanReply};

use crate::add_fault::AddFault;
use crate::inserting::insert_at;
use crate::keys::{Found, Keys};
use crate::servant::Servant;
use crate::telling::missed;
use ice_messages::{Answer, Call};
use ice_types::{Identity, Name};
use std::alloc::{AllocError, Global};
use std::marker::Model;

/// The objects of a server by identity and facet.
pub struct Adapter {
    keys: Keys,
    servants: Vec<Servant>,
}

impl Drop for Adapter {
    fn drop(self) {
        let Adapter { keys, servants } = self;
        drop(keys);
        drop(servants);
    }
}

impl Model for Adapter {
    ghost use Rattle.std.specs.Prelude.{◌≡◌, length};
    ghost use Rattle.object_adapter.specs.Objects.{Objects};

    ghost Value = { Objects };

    ghost view = { λ a. record { keys = a.keys; servants = a.servants.items } };

    ghost invariant = { λ a. length a.servants.items ≡ length a.keys };
}

impl Adapter {
    /// No objects, which take no memory.
    pub fn new(alloc: Global) -> Adapter
        ensures { result ≡ no_objects }
    {
        Adapter {
            keys: Keys::new(alloc),
            servants: Vec::new(alloc),
        }
    }

    /// How many objects there are.
    pub fn len(&self) -> u32
        ensures len { result ≡ length self.now.keys }
        ensures kept { AreObjects self.now }
    {
        self.keys.len()
    }

    /// Which object a call of this identity and facet names. It takes no memory.
    pub fn find(&self, identity: &Identity, facet: &str) -> Found
        ensures { IsFound self.now.keys identity.now facet.now result }
    {
        self.keys.find(identity, facet)
    }

    /// Adds an object under an identity and a facet. It is refused where they name an object already, and
    /// else where there are as many objects as may be. A refusal changes nothing.
    pub fn add(&mut self, identity: Identity, facet: Name, servant: Servant) -> Result<(), AddFault>
        ensures adds { Adds self.old (identity, facet) servant result self.new }
        ensures err { OnErr result (self.new ≡ self.old) }
    {
        match self.keys.gap_for(&identity, facet.as_str()) {
            Ok(at) => insert_both(
                &mut self.keys,
                &mut self.servants,
                at,
                (identity, facet),
                servant,
            ),
            Err(fault) => {
                drop((identity, facet));
                drop(servant);
                Err(fault)
            }
        }
    }

    /// What the objects answer to a call: the one that it names answers, and no other changes. A reply with the answer
    /// is no longer than a message may be, where the call came in a message. Out of memory changes nothing.
    #[tactic(auto, using(crate::proofs::Short::missed_2, crate::proofs::Short::missed_3))]
    pub fn answer(&mut self, alloc: Global, call: &Call) -> Result<Answer, AllocError>
        ensures ok { IfOk result (λ answer. Answered self.old call.now answer self.new) }
        ensures writable { IfOk result (CanReply call.now) }
        ensures err { OnErr result (self.new ≡ self.old) }
    {
        match self.find(&call.identity, call.facet.as_str()) {
            Found::At(at) => Ok(self.servants[at as usize].answer(alloc, call)?),
            Found::NoObject => missed(alloc, 2, call),
            Found::NoFacet => missed(alloc, 3, call),
        }
    }

    /// The keys, and the object of each at the same place. It takes no memory.
    pub fn into_parts(self) -> (Keys, Vec<Servant>)
        ensures keys { result.0 ≡ self.keys }
        ensures servants { result.1.items ≡ self.servants }
        ensures one_each { length self.servants ≡ length self.keys }
    {
        let Adapter { keys, servants } = self;
        (keys, servants)
    }

    /// The objects of these keys, an object for each at the same place: what `into_parts` took apart. It
    /// takes no memory.
    pub fn from_parts(keys: Keys, servants: Vec<Servant>) -> Adapter
        requires { length servants.items ≡ length keys }
        ensures { result ≡ record { keys = keys; servants = servants.items } }
    {
        Adapter { keys, servants }
    }
}

/// Puts a key where it would stand, and its object at the same place. Out of memory leaves both as they were.
fn insert_both<S: Drop>(
    keys: &mut Keys,
    servants: &mut Vec<S>,
    at: usize,
    key: (Identity, Name),
    servant: S,
) -> Result<(), AddFault>
    requires room { length keys.old < MOST_OBJECTS }
    requires gap { IsGapFor keys.old key at }
    requires one_each { length servants.old.items ≡ length keys.old }
    ensures keys { OnOk result (keys.new ≡ insert keys.old at key) }
    ensures servants { OnOk result (servants.new.items ≡ insert servants.old.items at servant) }
    ensures err { IfErr result (λ fault. fault ≡ add_faults.Memory) }
    ensures err_keys { OnErr result (keys.new ≡ keys.old) }
    ensures err_servants { OnErr result (servants.new.items ≡ servants.old.items) }
{
    if insert_at(servants, at, servant).is_err() {
        drop(key);
        return Err(AddFault::Memory);
    }
    if keys.insert(at, key).is_err() {
        drop(servants.remove(at));
        return Err(AddFault::Memory);
    }
    Ok(())
}
