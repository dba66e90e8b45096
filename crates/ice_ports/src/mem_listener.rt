//! A listener and trays in memory, which tell all.
ghost use Rattle.std.specs.Prelude.{◌≡◌, ◌∷◌, [], ℕ, Option, List, None, Some, IfOk, IfSome, is_err, drop};
ghost use Rattle.ice_ports.specs.Failures.{count_after};
ghost use Rattle.ice_ports.specs.Plan.{fails_now, after_call};
ghost use Rattle.ice_ports.specs.Nets.{behind, accepted, is_over};
ghost use Rattle.std.specs.List.{All};
ghost use Rattle.ice_ports.specs.MemLinks.{IsPlan, NextLink};
ghost use Rattle.ice_ports.specs.MemNets.{new_door, told_of_door};

use super::fault_plan::FaultPlan;
use super::mem_link::MemLink;
use super::nets::{Listener, Tray};
use super::plan_of_link::{Plan, Seed};
use super::ports::Failed;
use super::talk::{Talk, put_behind};
use ice_types::List;
use std::alloc::{AllocError, Global};
use std::collections::LinkedList;
use std::marker::Model;

/// The links to come of a listener, by their plans, and which accepts fail.
#[derive(Drop)]
pub(crate) struct Incoming {
    pub(crate) seeds: LinkedList<Seed>,
    pub(crate) accept_fails: List<u64>,
}

/// The links of these plans, with their memory.
pub(crate) fn seeds_of(alloc: Global, plans: &[Plan]) -> Result<LinkedList<Seed>, AllocError>
    requires { All IsPlan plans.now }
    ensures { IfOk result (λ seeds. seeds ≡ plans.now) }
{
    let mut seeds = LinkedList::new(alloc);
    for plan in plans {
        seeds.push_back(Seed::new(alloc, plan)?)?;
    }
    Ok(seeds)
}

/// What links gave and took that were taken back. It takes no memory.
#[derive(Drop)]
pub struct MemTray {
    talks: LinkedList<Talk>,
}

impl Model for MemTray {
    ghost use Rattle.std.specs.Prelude.{List};
    ghost use Rattle.ice_ports.specs.declared.talk.Talk.{Talk};

    ghost Value = { List Talk };

    ghost view = { λ t. t.talks };
}

impl Tray for MemTray {
    type Link = MemLink;

    ghost told = { λ t. Some t };

    fn take_back(&mut self, link: MemLink)
        ensures talks { self.new ≡ behind self.old (link.talk ∷ []) }
    {
        put_behind(&mut self.talks, link.into_talk());
    }
}

/// Gives links by their plans, in order, and then None. The accepts of the given numbers fail. It
/// takes no memory.
#[derive(Drop)]
pub struct MemListener {
    port: u16,
    seeds: LinkedList<Seed>,
    accepts: FaultPlan,
    given: u64,
    nones: u64,
    gathered: LinkedList<Talk>,
    alloc: Global,
}

impl Model for MemListener {
    ghost use Rattle.ice_ports.specs.MemNets.{MemDoor};

    ghost Value = { MemDoor };

    ghost view = { λ l. record {
      port = l.port;
      plans = l.seeds;
      accepts = l.accepts;
      given = l.given;
      nones = l.nones;
      gathered = l.gathered;
    } };
}

impl MemListener {
    pub(crate) fn new(alloc: Global, port: u16, incoming: Incoming) -> MemListener
        ensures { result ≡ new_door port incoming }
    {
        MemListener {
            port,
            seeds: incoming.seeds,
            accepts: FaultPlan::new(incoming.accept_fails),
            given: 0,
            nones: 0,
            gathered: LinkedList::new(alloc),
            alloc,
        }
    }

    /// What was gathered, in order.
    pub(crate) fn into_gathered(self) -> LinkedList<Talk>
        ensures { result ≡ self.gathered }
    {
        let MemListener { gathered, .. } = self;
        gathered
    }

    /// How many accepts failed, as far as u64 counts.
    pub fn failures(&self) -> u64
        ensures { result ≡ self.now.accepts.failures }
    {
        self.accepts.failures
    }

    /// How many accepts answered None, as far as u64 counts.
    pub fn nones(&self) -> u64
        ensures { result ≡ self.now.nones }
    {
        self.nones
    }
}

impl Listener for MemListener {
    type Link = MemLink;

    type Tray = MemTray;

    ghost told = { λ l. Some (told_of_door l) };

    ghost failures = { λ l. l.accepts.failures };

    ghost nones = { λ l. l.nones };

    ghost port = { λ l. l.port };

    fn port(&self) -> u16 {
        self.port
    }

    fn accept(&mut self) -> Result<Option<MemLink>, Failed>
        ensures told { told_of_door self.new ≡ accepted result (told_of_door self.old) }
        ensures fails { is_err result ≡ fails_now self.old.accepts }
        ensures accepts { self.new.accepts ≡ after_call self.old.accepts (is_err result) }
        ensures nones { self.new.nones ≡ count_after self.old.nones (is_over result) }
        ensures port { self.new.port ≡ self.old.port }
        ensures link { IfOk result (λ answer. NextLink answer self.old.plans self.new.plans) }
    {
        let fails = self.accepts.fails_now();
        self.accepts.count(fails)?;
        match self.seeds.pop_front() {
            Some(seed) => {
                self.given = self.given.saturating_add(1);
                Ok(Some(MemLink::new(seed)))
            }
            None => {
                self.nones = self.nones.saturating_add(1);
                Ok(None)
            }
        }
    }

    fn tray(&self) -> MemTray
        ensures { result ≡ [] }
    {
        MemTray {
            talks: LinkedList::new(self.alloc),
        }
    }

    fn gather(&mut self, tray: MemTray)
        ensures { self.new ≡ record self.old { gathered = behind self.old.gathered tray } }
    {
        let MemTray { talks } = tray;
        put_behind(&mut self.gathered, talks);
    }
}
