//! A source over bytes in memory.
ghost use Rattle.std.specs.Prelude.{◌≡◌, ◌<◌, min, length, drop, Some, IfOk, OnErr, is_err};
ghost use Rattle.std.specs.Io.{ReadsAtMost};
ghost use Rattle.std.specs.Io.KnownBytes.{ReadConsumes};
ghost use Rattle.ice_ports.specs.Plan.{new_plan, fails_now, after_call};

use super::fault_plan::FaultPlan;
use super::ports::{Failed, Source};
use ice_types::{Bytes, List};
use std::marker::Model;

/// Bytes in memory that come in pieces. The calls of the given numbers fail.
#[derive(Drop)]
pub struct MemSource {
    bytes: Bytes,
    at: usize,
    piece: usize,
    plan: FaultPlan,
}

impl Model for MemSource {
    ghost use Rattle.std.specs.Prelude.{◌≤◌, ◌<◌, length, drop};
    ghost use Rattle.ice_ports.specs.Memory.{Supply};

    ghost Value = { Supply };

    ghost view = { λ s. record { left = drop s.at s.bytes; piece = s.piece; plan = s.plan } };

    ghost invariant = { λ s. (s.at ≤ length s.bytes) × (0 < s.piece) };
}

impl MemSource {
    /// Gives these bytes, at most `piece` a read. `fails` lists the calls that fail, from 0.
    pub fn new(bytes: Bytes, piece: u32, fails: List<u64>) -> MemSource
        requires { 0 < piece }
        ensures { result ≡ record { left = bytes; piece = piece; plan = new_plan fails } }
    {
        MemSource {
            bytes,
            at: 0,
            piece: piece as usize,
            plan: FaultPlan::new(fails),
        }
    }

    /// How many calls were made, as far as u64 counts.
    pub fn calls(&self) -> u64
        ensures { result ≡ self.now.plan.calls }
    {
        self.plan.calls
    }

    /// How many calls failed, as far as u64 counts.
    pub fn failures(&self) -> u64
        ensures { result ≡ self.now.plan.failures }
    {
        self.plan.failures
    }
}

impl Source for MemSource {
    ghost left = { λ s. Some s.left };

    ghost failures = { λ s. s.plan.failures };

    fn read(&mut self, into: &mut [u8]) -> Result<usize, Failed>
        ensures bound { ReadsAtMost result into.new }
        ensures bytes { ReadConsumes (Some self.old.left) (Some self.new.left) result into.new }
        ensures fails { is_err result ≡ fails_now self.old.plan }
        ensures most { IfOk result (λ n.
            n ≡ min (length into.old) (min self.old.piece (length self.old.left))) }
        ensures rest { IfOk result (λ n. drop n into.new ≡ drop n into.old) }
        ensures untouched { OnErr result (into.new ≡ into.old) }
        ensures piece { self.new.piece ≡ self.old.piece }
        ensures plan { self.new.plan ≡ after_call self.old.plan (is_err result) }
    {
        let fails = self.plan.fails_now();
        self.plan.count(fails)?;
        let count = into.len().min(self.piece).min(self.bytes.len() - self.at);
        into[..count].copy_from_slice(&self.bytes.as_slice()[self.at..self.at + count]);
        self.at += count;
        Ok(count)
    }
}
