//! A turnstile for each object, and a pass of each for each caller.

ghost use Rattle.std.specs.Prelude.{◌≡◌, ◌≢◌, ◌<◌, ◌≤◌, ℕ, [], length, vec_len, vec_capacity, slice_index_or};
ghost use Rattle.std.specs.Prelude.{IsOk, IfOk, IfErr, OnErr, OnOk};
ghost use Rattle.std.specs.Vec.Iter.{into_iter_items};
ghost use Rattle.object_adapter.specs.declared.keys.TheConstants.{MOST_OBJECTS};

use crate::gate::{AtGate, Gate};
use crate::object::Object;
use ice_messages::{Answer, Call};
use object_adapter::{Adapter, Keys, Servant};
use std::alloc::{AllocError, Global};
use std::sync::Wait;
use std::vec::IntoIter;
use turnstile::{Pass, Stray, Turnstile};

/// The objects of an adapter, each behind a turnstile of its own, so that different objects answer at once and each
/// takes one call at a time. Threads share lanes by reference.
#[derive(Drop)]
pub struct Lanes {
    pub(crate) keys: Keys,
    pub(crate) stiles: Vec<Turnstile<Object>>,
    ghost one_each: { vec_len stiles ≡ length keys },
    ghost few: { vec_len stiles ≤ MOST_OBJECTS },
}

/// One caller's passes of lanes, one for each object. They have seen a prefix of each object's history, and know which
/// calls in it are their own.
#[derive(Drop)]
pub struct LanePasses {
    pub(crate) passes: Vec<Pass<Object>>,
}

/// Why lanes were not closed.
#[derive(Drop)]
pub enum Unclosed {
    /// Out of memory. Everything is handed back as it was.
    Memory { lanes: Lanes, passes: LanePasses },
    /// The first object whose turnstile has a turn that was not passed on or a call of a pass that was not joined. All
    /// lanes and passes are gone.
    Stray { object: u32, stray: Stray },
}

impl Lanes {
    ghost use Rattle.dispatch_pool.specs.Rows.{Fits, RowFits, HasSplit, HasJoined};
    ghost use Rattle.dispatch_pool.specs.Abreast.{Beside};
    ghost use Rattle.dispatch_pool.specs.Lanes.{AreOf, AreNew, AreWhole, RowIsNew, RowIsWhole, Begins, Opens};
    ghost use Rattle.dispatch_pool.specs.Lanes.{DidSplit, DidJoinAll};
    ghost use Rattle.dispatch_pool.specs.Turns.{DidTurnAt, Grew};
    ghost use Rattle.dispatch_pool.specs.Ends.{ClosesAll, RowCloses, Remains, StaysOpen, IsMemory};

    /// Lanes of the objects, and the first passes, which have the whole share of each.
    pub fn new(alloc: Global, adapter: Adapter) -> Result<(Lanes, LanePasses), AllocError>
        ensures keys { IfOk result (λ made. made.0.keys ≡ adapter.keys) }
        ensures opens { IfOk result (λ made. Opens adapter.servants made.0) }
        ensures of { IfOk result (λ made. AreOf made.0 made.1) }
        ensures new { IfOk result (λ made. AreNew made.1) }
        ensures whole { IfOk result (λ made. AreWhole made.1) }
    {
        let (keys, servants) = adapter.into_parts();
        let count = servants.len();
        let mut servants = servants.into_iter();
        let mut stiles = Vec::new(alloc);
        let mut passes = Vec::new(alloc);
        let seated = Lanes::seat_all(alloc, count, &mut servants, &mut stiles, &mut passes);
        drop(servants);
        match seated {
            Ok(()) => Ok((Lanes { keys, stiles }, LanePasses { passes })),
            Err(error) => {
                drop(keys);
                drop(stiles);
                drop(passes);
                Err(error)
            }
        }
    }

    // A turnstile for each object, and the first pass of each.
    fn seat_all(
        alloc: Global,
        count: usize,
        servants: &mut IntoIter<Servant>,
        stiles: &mut Vec<Turnstile<Object>>,
        passes: &mut Vec<Pass<Object>>,
    ) -> Result<(), AllocError>
        requires count { count ≡ length (into_iter_items servants.old) }
        requires empty { (stiles.old.items ≡ []) × (passes.old.items ≡ []) }
        ensures opens { OnOk result (Beside Begins (into_iter_items servants.old) stiles.new.items) }
        ensures of { OnOk result (RowFits stiles.new.items passes.new.items) }
        ensures new { OnOk result (RowIsNew passes.new.items) }
        ensures whole { OnOk result (RowIsWhole passes.new.items) }
    {
        stiles.reserve(count)?;
        passes.reserve(count)?;
        for i in 0..count {
            let Some(servant) = servants.next() else {
                unreachable!()
            };
            let (stile, pass) = Turnstile::new(alloc, Object { alloc, servant })?;
            stiles.push_reserved(stile);
            passes.push_reserved(pass);
        }
        Ok(())
    }

    /// Passes for a further caller: they have seen the same, and no call is their own. Each share is cut in two. Out of
    /// memory leaves the passes as they were.
    pub fn split(&self, alloc: Global, passes: &mut LanePasses) -> Result<LanePasses, AllocError>
        requires { AreOf self.now passes.old }
        ensures of { AreOf self.now passes.new }
        ensures ok_of { IfOk result (AreOf self.now) }
        ensures split { IfOk result (DidSplit passes.old passes.new) }
        ensures err { OnErr result (passes.new ≡ passes.old) }
    {
        let mut made = Vec::new(alloc);
        if made.reserve(self.stiles.len()).is_err() {
            drop(made);
            return Err(AllocError);
        }
        for i in 0..self.stiles.len() {
            let pass = self.split_at(passes, i);
            made.push_reserved(pass);
        }
        Ok(LanePasses { passes: made })
    }

    // A pass of the turnstile at a place, split off.
    fn split_at(&self, passes: &mut LanePasses, at: usize) -> Pass<Object>
        requires of { AreOf self.now passes.old }
        requires at { at < length self.now.stiles.items }
        ensures of { AreOf self.now passes.new }
        ensures made { (t : _) → Fits (slice_index_or self.now.stiles.items at t) result }
        ensures others { (i : ℕ) (d : _) → i ≢ at
            → slice_index_or passes.new.passes.items i d ≡ slice_index_or passes.old.passes.items i d }
        ensures split { (d e : _) → HasSplit
            (slice_index_or passes.old.passes.items at d) result (slice_index_or passes.new.passes.items at e) }
    {
        match self.stiles[at].split(&mut passes.passes[at]) {
            Ok(pass) => pass,
            Err(_) => unreachable!(),
        }
    }

    /// The passes take in those of another caller. No memory is taken, and nobody is waited for.
    pub fn join(&self, passes: &mut LanePasses, other: LanePasses)
        requires of { AreOf self.now passes.old }
        requires other { AreOf self.now other }
        ensures of { AreOf self.now passes.new }
        ensures joined { DidJoinAll self.now passes.old other passes.new }
    {
        let LanePasses { passes: others } = other;
        let mut others = others.into_iter();
        for i in 0..self.stiles.len() {
            let Some(pass) = others.next() else {
                unreachable!()
            };
            self.join_at(passes, i, pass);
        }
        drop(others);
    }

    // Joins a pass of the turnstile at a place.
    fn join_at(&self, passes: &mut LanePasses, at: usize, other: Pass<Object>)
        requires of { AreOf self.now passes.old }
        requires at { at < length self.now.stiles.items }
        requires other { (t : _) → Fits (slice_index_or self.now.stiles.items at t) other }
        ensures of { AreOf self.now passes.new }
        ensures others { (i : ℕ) (d : _) → i ≢ at
            → slice_index_or passes.new.passes.items i d ≡ slice_index_or passes.old.passes.items i d }
        ensures joined { (t d e : _) → HasJoined (slice_index_or self.now.stiles.items at t)
            (slice_index_or passes.old.passes.items at d) other (slice_index_or passes.new.passes.items at e) }
    {
        self.stiles[at].join(&mut passes.passes[at], other);
    }

    // A turn of the object at a place, with the gate round its answer.
    pub(crate) fn turn_at<R: Wait, G: Gate>(
        &self,
        rt: &R,
        passes: &mut LanePasses,
        gate: &G,
        at: usize,
        call: &Call,
    ) -> Result<Answer, AllocError>
        requires of { AreOf self.now passes.old }
        requires at { at < length self.now.stiles.items }
        ensures of { AreOf self.now passes.new }
        ensures ok { IfOk result (DidTurnAt at self.now passes.old passes.new call.now) }
        ensures err { OnErr result (Grew passes.old passes.new []) }
    {
        self.stiles[at].turn_around(rt, &mut passes.passes[at], call, &AtGate { gate })
    }

    // Takes the object of each turnstile, or answers the first place whose turnstile cannot be closed.
    fn close_all(
        stiles: Vec<Turnstile<Object>>,
        passes: Vec<Pass<Object>>,
        servants: &mut Vec<Servant>,
    ) -> Result<(), (usize, Stray)>
        requires of { RowFits stiles.items passes.items }
        requires empty { servants.old.items ≡ [] }
        requires room { vec_len stiles ≤ vec_capacity servants.old }
        ensures ok { OnOk result (RowCloses stiles.items passes.items servants.new.items) }
        ensures err { IfErr result (λ stray. StaysOpen stiles.items passes.items stray.0 stray.1) }
        ensures whole { RowIsWhole passes.items → IsOk result }
    {
        let count = stiles.len();
        let mut stiles = stiles.into_iter();
        let mut passes = passes.into_iter();
        for i in 0..count {
            let Some(stile) = stiles.next() else {
                unreachable!()
            };
            let Some(pass) = passes.next() else {
                unreachable!()
            };
            match stile.close(pass) {
                Ok(object) => servants.push_reserved(object.servant),
                Err(stray) => {
                    drop(stiles);
                    drop(passes);
                    return Err((i, stray));
                }
            }
        }
        drop(stiles);
        drop(passes);
        Ok(())
    }

    /// The adapter with its objects as the histories left them, where each turn was passed on and the passes made all
    /// calls. No memory is taken but before the first turnstile is closed. Passes with the whole share leave no stray.
    pub fn close(self, alloc: Global, passes: LanePasses) -> Result<Adapter, Unclosed>
        requires { AreOf self passes }
        ensures keys { IfOk result (λ adapter. adapter.keys ≡ self.keys) }
        ensures ok { IfOk result (λ adapter. ClosesAll self passes adapter.servants) }
        ensures err { IfErr result (Remains self passes) }
        ensures whole { AreWhole passes → IfErr result IsMemory }
    {
        let mut servants = Vec::new(alloc);
        if servants.reserve(self.stiles.len()).is_err() {
            drop(servants);
            return Err(Unclosed::Memory {
                lanes: self,
                passes,
            });
        }
        let Lanes { keys, stiles } = self;
        let LanePasses { passes } = passes;
        match Lanes::close_all(stiles, passes, &mut servants) {
            Ok(()) => Ok(Adapter::from_parts(keys, servants)),
            Err((object, stray)) => {
                drop(keys);
                drop(servants);
                Err(Unclosed::Stray {
                    object: object as u32,
                    stray,
                })
            }
        }
    }
}

/// Lanes are shared among threads, and passes go from one thread to another.
pub fn cross_threads(lanes: &Lanes, passes: &LanePasses) {
    share(lanes);
    hand_over(passes);
}

fn share<T: Sync>(_value: &T) {}

fn hand_over<T: Send>(_value: &T) {}
