//! The calls of a net in memory: the connects to come, and what it was asked for.
ghost use Rattle.std.specs.Prelude.{◌≡◌, ◌||◌, [], Some, None, false, IfOk, is_err, is_some};
ghost use Rattle.std.specs.List.{All};
ghost use Rattle.std.specs.Option.{option_copied};
ghost use Rattle.ice_ports.specs.Nets.{first_listen};
ghost use Rattle.ice_ports.specs.MemLinks.{IsPlan, NextLink};
ghost use Rattle.ice_ports.specs.MemNets.{refuses, after_call};

use super::asked::{Asked, HostRoom, NotePlace};
use super::mem_link::MemLink;
use super::plan_of_link::{Plan, Seed};
use super::ports::Failed;
use std::alloc::{AllocError, Global};
use std::collections::LinkedList;
use std::marker::Model;

/// The plan of one connect, with all memory that it needs.
#[derive(Drop)]
struct Call {
    seed: Seed,
    note: NotePlace,
}

impl Model for Call {
    ghost use Rattle.ice_ports.specs.declared.plan_of_link.Plan.{Plan};

    ghost Value = { Plan };

    ghost view = { λ c. c.seed };
}

/// The plans of the connects to come, and what the connects before asked for.
#[derive(Drop)]
pub(crate) struct Connects {
    calls: LinkedList<Call>,
    asked: LinkedList<Asked>,
}

impl Model for Connects {
    ghost use Rattle.std.specs.Prelude.{◌+◌, ◌<◌, ◌^◌};
    ghost use Rattle.std.specs.LinkedList.{linked_list_len};
    ghost use Rattle.ice_ports.specs.MemNets.{Calls};

    ghost Value = { Calls };

    ghost view = { λ c. record { plans = c.calls; asked = c.asked } };

    ghost invariant = { λ c. linked_list_len c.calls + linked_list_len c.asked < 2 ^ 63 };
}

impl Connects {
    pub(crate) fn new(alloc: Global, plans: &[Plan]) -> Result<Connects, AllocError>
        requires { All IsPlan plans.now }
        ensures { IfOk result (λ c. c ≡ record { plans = plans.now; asked = [] }) }
    {
        Ok(Connects {
            calls: calls_of(alloc, plans)?,
            asked: LinkedList::new(alloc),
        })
    }

    /// The link of the next plan; `Failed` where that refuses, or none is left. The call is noted up
    /// to the last plan.
    pub(crate) fn next(&mut self, host: &str, port: u16) -> Result<MemLink, Failed>
        ensures fails { is_err result ≡ refuses self.old.plans }
        ensures calls { self.new ≡ after_call host.now port self.old }
        ensures link { IfOk result (λ link.
            NextLink (Some link) self.old.plans self.new.plans) }
    {
        let Some(call) = self.calls.pop_front() else {
            return Err(Failed);
        };
        let Call { seed, note } = call;
        let mut noted = note.note(host, port);
        self.asked.append(&mut noted).unwrap();
        if seed.refuses() {
            return Err(Failed);
        }
        Ok(MemLink::new(seed))
    }

    /// What the connects up to the last plan asked for.
    pub(crate) fn asked(&self) -> &LinkedList<Asked>
        ensures { result.now ≡ self.now.asked }
    {
        &self.asked
    }
}

/// The connects of these plans, with their memory.
fn calls_of(alloc: Global, plans: &[Plan]) -> Result<LinkedList<Call>, AllocError>
    requires { All IsPlan plans.now }
    ensures { IfOk result (λ calls. calls ≡ plans.now) }
{
    let mut calls = LinkedList::new(alloc);
    for plan in plans {
        calls.push_back(Call {
            seed: Seed::new(alloc, plan)?,
            note: NotePlace::new(alloc)?,
        })?;
    }
    Ok(calls)
}

/// The first listen, and whether there was another.
#[derive(Drop)]
pub(crate) struct Listens {
    first: Option<Asked>,
    room: Option<HostRoom>,
    again: bool,
}

impl Model for Listens {
    ghost use Rattle.std.specs.Prelude.{◌≡◌, not, is_some};
    ghost use Rattle.ice_ports.specs.MemNets.{ListenCalls};

    ghost Value = { ListenCalls };

    ghost view = { λ l. record { first = l.first; again = l.again } };

    ghost invariant = { λ l. is_some l.room ≡ not (is_some l.first) };
}

impl Listens {
    pub(crate) fn new(alloc: Global) -> Result<Listens, AllocError>
        ensures { IfOk result (λ l. l ≡ record { first = None; again = false }) }
    {
        Ok(Listens {
            first: None,
            room: Some(HostRoom::new(alloc)?),
            again: false,
        })
    }

    /// Notes a call.
    pub(crate) fn note(&mut self, host: &str, port: u16)
        ensures { self.new ≡ record {
          first = first_listen host.now port self.old.first;
          again = self.old.again || is_some self.old.first;
        } }
    {
        match self.room.take() {
            Some(room) => self.first = Some(room.note(host, port)),
            None => self.again = true,
        }
    }

    /// What the first listen asked for.
    pub(crate) fn first(&self) -> Option<&Asked>
        ensures { option_copied result ≡ self.now.first }
    {
        self.first.as_ref()
    }
}
