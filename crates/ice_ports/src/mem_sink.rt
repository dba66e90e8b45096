//! A sink that keeps its bytes in memory.
ghost use Rattle.std.specs.Prelude.{◌≡◌, ◌≤◌, ◌<◌, ◌-◌, [], min, length, Some, IfOk, is_err};
ghost use Rattle.std.specs.Io.{WritesAtMost};
ghost use Rattle.std.specs.Io.KnownBytes.{WriteAppends};
ghost use Rattle.ice_ports.specs.Plan.{new_plan, after_call};
ghost use Rattle.ice_ports.specs.Memory.{write_fails};

use super::fault_plan::FaultPlan;
use super::ports::{Failed, Sink};
use ice_types::List;
use std::alloc::{AllocError, Global};
use std::marker::Model;

/// The most bytes that a sink in memory has room for.
pub const MOST_ROOM: u32 = 16_777_216;

/// Takes bytes up to its room, which is all of its memory. The calls of the given numbers fail.
#[derive(Drop)]
pub struct MemSink {
    bytes: Vec<u8>,
    room: usize,
    plan: FaultPlan,
}

impl Model for MemSink {
    ghost use Rattle.std.specs.Prelude.{◌≤◌, vec_len, vec_capacity};
    ghost use Rattle.ice_ports.specs.Memory.{Store};

    ghost Value = { Store };

    ghost view = { λ s. record { taken = s.bytes.items; room = s.room; plan = s.plan } };

    ghost invariant = { λ s. (vec_len s.bytes ≤ s.room) × (s.room ≤ vec_capacity s.bytes) };
}

impl MemSink {
    /// Has room for `room` bytes in all. `fails` lists the calls that fail, from 0.
    pub fn new(alloc: Global, room: u32, fails: List<u64>) -> Result<MemSink, AllocError>
        requires { room ≤ MOST_ROOM }
        ensures { IfOk result (λ s. s ≡ record { taken = []; room = room; plan = new_plan fails }) }
    {
        let room = room as usize;
        Ok(MemSink {
            bytes: Vec::with_capacity(alloc, room)?,
            room,
            plan: FaultPlan::new(fails),
        })
    }

    /// The bytes that were taken, which are not copied.
    pub fn taken(&self) -> &[u8]
        ensures { result.now ≡ self.now.taken }
    {
        self.bytes.as_slice()
    }

    /// How many calls were made, as far as u64 counts.
    pub fn calls(&self) -> u64
        ensures { result ≡ self.now.plan.calls }
    {
        self.plan.calls
    }

    /// How many calls failed, as far as u64 counts.
    pub fn failures(&self) -> u64
        ensures { result ≡ self.now.plan.failures }
    {
        self.plan.failures
    }
}

impl Sink for MemSink {
    ghost taken = { λ s. Some s.taken };

    ghost failures = { λ s. s.plan.failures };

    fn write(&mut self, piece: &[u8]) -> Result<usize, Failed>
        ensures bound { WritesAtMost result piece.now }
        ensures bytes { WriteAppends (Some self.old.taken) (Some self.new.taken) result piece.now }
        ensures progress { IfOk result (λ n. 0 < length piece.now → 0 < n) }
        ensures fails { is_err result ≡ write_fails self.old (length piece.now) }
        ensures most { IfOk result (λ n.
            n ≡ min (length piece.now) (self.old.room - length self.old.taken)) }
        ensures room { self.new.room ≡ self.old.room }
        ensures plan { self.new.plan ≡ after_call self.old.plan (is_err result) }
    {
        let left = self.room - self.bytes.len();
        let fails = self.plan.fails_now() || (left == 0 && !piece.is_empty());
        self.plan.count(fails)?;
        let count = piece.len().min(left);
        self.bytes.extend_from_slice(&piece[..count]).unwrap();
        Ok(count)
    }
}
