//! A thread that serves.

ghost use Rattle.std.specs.Prelude.{◌≡◌, ◌≢◌, ℕ, ◌+◌, ◌<◌, false};

use crate::door::Door;
use crate::gate::Gate;
use crate::lanes::{LanePasses, Lanes};
use crate::opening::Opening;
use crate::session::serve_connection;
use ice_ports::{Listener, Tray};
use std::alloc::Global;
use std::sync::ledger::{Ledger, Share};
use std::sync::{Mutex, Wait};

/// What a thread that serves has for itself: a tray, passes, and its share of the links accepted; and whether it
/// lacked memory.
pub(crate) struct Worker<D: Listener, L: Ledger> {
    pub(crate) tray: D::Tray,
    pub(crate) passes: LanePasses,
    pub(crate) mine: Share<L>,
    pub(crate) starved: bool,
    ghost backed: { 0 < mine.parts },
}

impl<D: Listener, L: Ledger> Worker<D, L> {
    ghost use Rattle.dispatch_pool.specs.Lanes.{AreOf};
    ghost use Rattle.talking.specs.Told.{LinkTells};
    ghost use Rattle.dispatch_pool.specs.Shares.{SameShares};
    ghost use Rattle.dispatch_pool.specs.Sessions.{Side, callers, split_off, HasServed};
    ghost use Rattle.dispatch_pool.specs.declared.ending.Ending.TheVariants as endings;

    /// Serves one link, and takes it back.
    fn serve<O: Opening, G: Gate, R: Wait>(
        &mut self,
        rt: &R,
        alloc: Global,
        lanes: &Lanes,
        gate: &G,
        link: D::Link,
        messages: u64,
    )
        requires of { AreOf lanes.now self.old.passes }
        requires fed { self.old.starved ≡ false }
        requires new { LinkTells O.first (D.Link.talk link) }
        ensures parts { self.new.mine.parts ≡ self.old.mine.parts }
        ensures amount { self.new.mine.amount ≡ self.old.mine.amount }
        ensures shares { SameShares self.old.passes self.new.passes }
        ensures did { (side : Side) (n : ℕ)
            → HasServed side lanes.now messages O.first O.passes
            (D.Tray.told self.old.tray) self.old.passes n self.old.starved
            → HasServed side lanes.now messages O.first O.passes
            (D.Tray.told self.new.tray) self.new.passes (n + 1) self.new.starved }
    {
        let mut link = link;
        let end = serve_connection(
            rt,
            alloc,
            lanes,
            &mut self.passes,
            gate,
            &mut link,
            messages,
        );
        self.starved = self.starved | end.is_err();
        self.tray.take_back(link);
    }

    /// Serves links until no more come, or memory lacks.
    pub(crate) fn work<A: Ledger, O: Opening, G: Gate, R: Wait>(
        &mut self,
        rt: &R,
        alloc: Global,
        lanes: &Lanes,
        gate: &G,
        door: &Mutex<Door<D, A, L, O>>,
        messages: u64,
    )
        requires { HasServed split_off lanes.now messages O.first O.passes
            (D.Tray.told self.old.tray) self.old.passes self.old.mine.amount self.old.starved }
        ensures did { HasServed split_off lanes.now messages O.first O.passes
            (D.Tray.told self.new.tray) self.new.passes self.new.mine.amount self.new.starved }
        ensures parts { self.new.mine.parts ≡ self.old.mine.parts }
        ensures shares { SameShares self.old.passes self.new.passes }
    {
        for _ in rt.forever() {
            if self.starved {
                return;
            }
            // The guard of the lock ends here. Inside the `match` it would be held while the link is served.
            let next = door.lock(rt).accept(&mut self.mine);
            match next {
                Some(link) => self.serve::<O, G, R>(rt, alloc, lanes, gate, link, messages),
                None => return,
            }
        }
        unreachable!()
    }

    /// Serves links alone until no more come, or memory lacks.
    pub(crate) fn work_alone<A: Ledger, O: Opening, G: Gate, R: Wait>(
        &mut self,
        rt: &R,
        alloc: Global,
        lanes: &Lanes,
        gate: &G,
        door: &mut Door<D, A, L, O>,
        messages: u64,
    )
        requires served { HasServed callers lanes.now messages O.first O.passes
            (D.Tray.told self.old.tray) self.old.passes self.old.mine.amount self.old.starved }
        ensures did { HasServed callers lanes.now messages O.first O.passes
            (D.Tray.told self.new.tray) self.new.passes self.new.mine.amount self.new.starved }
        ensures parts { self.new.mine.parts ≡ self.old.mine.parts }
        ensures shares { SameShares self.old.passes self.new.passes }
        ensures ended { self.new.starved ≡ false → door.new.ending ≢ endings.Open }
    {
        for _ in rt.forever() {
            if self.starved {
                return;
            }
            match door.accept(&mut self.mine) {
                Some(link) => self.serve::<O, G, R>(rt, alloc, lanes, gate, link, messages),
                None => return,
            }
        }
        unreachable!()
    }
}
