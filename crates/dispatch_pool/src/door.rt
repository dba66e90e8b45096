//! The door: what lies under its lock.

ghost use Rattle.std.specs.Prelude.{◌≡◌, ◌≢◌, ℕ, ◌+◌, ◌<◌, ◌≤◌, ◌^◌, [], Some, IfSome, IfNone};
ghost use Rattle.ice_ports.specs.Failures.{count_after};
ghost use Rattle.ice_ports.specs.Nets.{IsNew};
ghost use Rattle.talking.specs.Told.{LinkTells, DoorTells, NoneToCome};
ghost use Rattle.dispatch_pool.specs.Endings.{has_failed, has_run_out};
ghost use Rattle.dispatch_pool.specs.declared.ending.Ending.TheVariants as endings;

use crate::ending::Ending;
use crate::opening::Opening;
use ice_ports::{Failed, Listener};
use std::marker::PhantomData;
use std::sync::ledger::{Book, Ledger, Share};

/// A listener, how many links are asked for, how many were accepted, and why accepting has ended. The ledger `A` ties
/// the number asked for to the caller, and `L` the number accepted to the threads that serve.
pub(crate) struct Door<D: Listener, A: Ledger, L: Ledger, O: Opening> {
    pub(crate) listener: D,
    pub(crate) wanted: u64,
    pub(crate) accepted: u64,
    pub(crate) ending: Ending,
    pub(crate) asked: Book<A>,
    pub(crate) taken: Book<L>,
    pub(crate) opening: PhantomData<O>,
    ghost wanted_is: { asked.total ≡ wanted },
    ghost accepted_is: { taken.total ≡ accepted },
    ghost fits: { accepted ≤ wanted },
    ghost tells: { DoorTells O.first accepted (D.told listener) [] },
    ghost failures_are: { D.failures listener ≡ count_after O.failures (has_failed ending) },
    ghost nones_are: { D.nones listener ≡ count_after O.nones (has_run_out ending) },
    ghost reached: { ending ≡ endings.Reached → accepted ≡ wanted },
    ghost no_more: { ending ≡ endings.NoMore → NoneToCome (D.told listener) },
}

impl<D: Listener, A: Ledger, L: Ledger, O: Opening> Door<D, A, L, O> {
    /// A door at which no link was accepted yet.
    pub(crate) fn new(listener: D, wanted: u64, asked: Book<A>, taken: Book<L>) -> Door<D, A, L, O>
        requires asked { asked.total ≡ wanted }
        requires taken { taken.total ≡ 0 }
        requires told { O.first ≡ D.told listener }
        requires counts { (O.failures ≡ D.failures listener) × (O.nones ≡ D.nones listener) }
        ensures listener { result.listener ≡ listener }
        ensures wanted { result.wanted ≡ wanted }
        ensures accepted { result.accepted ≡ 0 }
        ensures ending { result.ending ≡ endings.Open }
    {
        Door {
            listener,
            wanted,
            accepted: 0,
            ending: Ending::Open,
            asked,
            taken,
            opening: PhantomData,
        }
    }

    /// The next link, which counts in the share; None where accepting has ended, now or before.
    pub(crate) fn accept(&mut self, mine: &mut Share<L>) -> Option<D::Link>
        requires { 0 < mine.old.parts }
        ensures parts { mine.new.parts ≡ mine.old.parts }
        ensures some { IfSome result (λ link. LinkTells O.first (D.Link.talk link)
            × (mine.new.amount ≡ mine.old.amount + 1)) }
        ensures none { IfNone result ((mine.new.amount ≡ mine.old.amount) × (self.new.ending ≢ endings.Open)) }
    {
        let Door {
            listener,
            wanted,
            accepted,
            ending,
            asked: _,
            taken,
            opening: _,
        } = self;
        match *ending {
            Ending::Open => {}
            Ending::Reached | Ending::NoMore | Ending::Failed => return None,
        }
        if *accepted == *wanted {
            *ending = Ending::Reached;
            return None;
        }
        match listener.accept() {
            Ok(Some(link)) => {
                *accepted += 1;
                taken.add(mine, 1);
                Some(link)
            }
            Ok(None) => {
                *ending = Ending::NoMore;
                None
            }
            Err(Failed) => {
                *ending = Ending::Failed;
                None
            }
        }
    }
}
