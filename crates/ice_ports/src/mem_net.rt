//! A net in memory, which tells all.
ghost use Rattle.std.specs.Prelude.{◌≡◌, ◌<◌, Some, IfOk, is_err, length};
ghost use Rattle.std.specs.List.{All};
ghost use Rattle.std.specs.Option.{option_copied};
ghost use Rattle.ice_ports.specs.MemLinks.{IsPlan, NextLink};
ghost use Rattle.ice_ports.specs.MemNets.{new_net, refuses, listen_refused, IsListener, port_for};
ghost use Rattle.ice_ports.specs.MemNets.{after_connect, after_listen, after_hang_up, after_retire};

use super::asked::Asked;
use super::connects::{Connects, Listens};
use super::mem_link::MemLink;
use super::mem_listener::{Incoming, MemListener, seeds_of};
use super::nets::Net;
use super::plan_of_link::Plan;
use super::ports::Failed;
use super::talk::{Talk, put_behind};
use ice_types::List;
use std::alloc::{AllocError, Global};
use std::collections::LinkedList;
use std::marker::Model;

/// Gives links by their plans, in order, and one listener. It has all memory that later calls on it,
/// its listener, its trays and its links need.
#[derive(Drop)]
pub struct MemNet {
    alloc: Global,
    connects: Connects,
    given: u64,
    refused: u64,
    failures: u64,
    listens: Listens,
    incoming: Option<Incoming>,
    listen_fails: bool,
    listen_failures: u64,
    talks: LinkedList<Talk>,
}

impl Model for MemNet {
    ghost use Rattle.std.specs.Prelude.{◌+◌, length};
    ghost use Rattle.ice_ports.specs.MemNets.{MemWeb, links_of};

    ghost Value = { MemWeb };

    ghost view = { λ n. record {
      told = record {
        talks = n.talks;
        given = n.given;
        to_come = links_of n.connects.plans;
        refused = n.refused;
        asked = n.connects.asked;
        room = length n.connects.asked + length n.connects.plans;
        listened = n.listens.first;
        listened_again = n.listens.again;
      };
      plans = n.connects.plans;
      incoming = n.incoming;
      listen_fails = n.listen_fails;
      failures = n.failures;
      listen_failures = n.listen_failures;
    } };
}

impl MemNet {
    /// Connects give links by the plans `outgoing`, and the listener by `incoming`. `accept_fails`
    /// lists the accepts that fail, from 0; `listen_fails` tells whether each listen does.
    pub fn new(
        alloc: Global,
        outgoing: List<Plan>,
        incoming: List<Plan>,
        accept_fails: List<u64>,
        listen_fails: bool,
    ) -> Result<MemNet, AllocError>
        requires outgoing { All IsPlan outgoing }
        requires incoming { All IsPlan incoming }
        ensures { IfOk result (λ net. net ≡ new_net outgoing incoming accept_fails listen_fails) }
    {
        Ok(MemNet {
            alloc,
            connects: Connects::new(alloc, outgoing.as_slice())?,
            given: 0,
            refused: 0,
            failures: 0,
            listens: Listens::new(alloc)?,
            incoming: Some(Incoming {
                seeds: seeds_of(alloc, incoming.as_slice())?,
                accept_fails,
            }),
            listen_fails,
            listen_failures: 0,
            talks: LinkedList::new(alloc),
        })
    }

    /// What each link gave and took that came back, by `hang_up` or with the listener, in order.
    pub fn talks(&self) -> &LinkedList<Talk>
        ensures { result.now ≡ self.now.told.talks }
    {
        &self.talks
    }

    /// What the connects up to the last plan asked for, the refused ones among them, in order.
    pub fn asked(&self) -> &LinkedList<Asked>
        ensures { result.now ≡ self.now.told.asked }
    {
        self.connects.asked()
    }

    /// What the first listen asked for, None where there was none.
    pub fn listened(&self) -> Option<&Asked>
        ensures { option_copied result ≡ self.now.told.listened }
    {
        self.listens.first()
    }

    /// How many calls of `connect` and `hang_up` counted a failure, as far as u64 counts.
    pub fn failures(&self) -> u64
        ensures { result ≡ self.now.failures }
    {
        self.failures
    }

    /// The same of `listen` and `retire`.
    pub fn listen_failures(&self) -> u64
        ensures { result ≡ self.now.listen_failures }
    {
        self.listen_failures
    }
}

impl Net for MemNet {
    type Link = MemLink;

    type Listener = MemListener;

    ghost told = { λ n. Some n.told };

    ghost failures = { λ n. n.failures };

    ghost listen_failures = { λ n. n.listen_failures };

    fn connect(&mut self, host: &str, port: u16) -> Result<MemLink, Failed>
        ensures net { self.new ≡ after_connect host.now port self.old }
        ensures fails { is_err result ≡ refuses self.old.plans }
        ensures some { IfOk result (λ _. 0 < self.old.told.to_come) }
        ensures link { IfOk result (λ link.
            NextLink (Some link) self.old.plans self.new.plans) }
    {
        let result = self.connects.next(host, port);
        if result.is_err() {
            self.refused = self.refused.saturating_add(1);
            self.failures = self.failures.saturating_add(1);
        } else {
            self.given = self.given.saturating_add(1);
        }
        result
    }

    fn listen(&mut self, host: &str, port: u16) -> Result<MemListener, Failed>
        ensures net { self.new ≡ after_listen host.now port self.old }
        ensures fails { is_err result ≡ listen_refused self.old }
        ensures listener { IfOk result (IsListener port self.old.incoming) }
        ensures port { IfOk result (λ listener. 0 < port → listener.port ≡ port) }
    {
        self.listens.note(host, port);
        if !self.listen_fails {
            if let Some(incoming) = self.incoming.take() {
                return Ok(MemListener::new(self.alloc, port_for(port), incoming));
            }
        }
        self.listen_failures = self.listen_failures.saturating_add(1);
        Err(Failed)
    }

    fn hang_up(&mut self, link: MemLink)
        ensures { self.new ≡ after_hang_up link self.old }
    {
        if link.reads_failed() > 0 || link.writes_failed() > 0 {
            self.failures = self.failures.saturating_add(1);
        }
        put_behind(&mut self.talks, link.into_talk());
    }

    fn retire(&mut self, listener: MemListener)
        ensures { self.new ≡ after_retire listener self.old }
    {
        if listener.failures() > 0 {
            self.listen_failures = self.listen_failures.saturating_add(1);
        }
        put_behind(&mut self.talks, listener.into_gathered());
    }
}

/// The port of a new listener: the one that was asked for, or 4100 for 0.
fn port_for(port: u16) -> u16
    ensures value { result ≡ port_for port }
    ensures asked { 0 < port → result ≡ port }
{
    if port == 0 { 4100 } else { port }
}
