//! A link in memory, which tells all.
ghost use Rattle.std.specs.Prelude.{◌≡◌, ◌<◌, ◌-◌, ◌||◌, ◌∷◌, [], min, length, Some, IfOk, is_err};
ghost use Rattle.std.specs.Io.{ReadsAtMost, WritesAtMost};
ghost use Rattle.std.specs.Io.KnownBytes.{ReadConsumes, WriteAppends};
ghost use Rattle.ice_ports.specs.Failures.{count_after};
ghost use Rattle.ice_ports.specs.Talks.{and_then, adds, is_end, read_part, write_part};
ghost use Rattle.ice_ports.specs.MemLinks.{MemTalk, new_link, read_fails, write_fails};
ghost use Rattle.ice_ports.specs.MemLinks.{given_to, reach, fails_at, left, cut};

use super::links::Link;
use super::plan_of_link::Seed;
use super::ports::{Failed, Sink, Source};
use super::talk::{Talk, TalkPlace};
use ice_types::List;
use std::collections::LinkedList;
use std::marker::Model;

/// Keeps to its plan, and tells what went over it. It takes no memory.
#[derive(Drop)]
pub struct MemLink {
    refuse: bool,
    gives: Vec<u8>,
    piece: u32,
    read_fails_at: Option<u64>,
    takes: u64,
    at: usize,
    taken: Vec<u8>,
    ended: bool,
    reads_failed: u64,
    writes_failed: u64,
    place: TalkPlace,
}

impl Model for MemLink {
    ghost use Rattle.std.specs.Prelude.{◌≤◌, ◌<◌, take, vec_len, vec_capacity};
    ghost use Rattle.ice_ports.specs.Nets.{has_failed};
    ghost use Rattle.ice_ports.specs.MemLinks.{MemTalk};

    ghost Value = { MemTalk };

    ghost view = { λ s. record {
      plan = record {
        refuse = s.refuse;
        gives = s.gives.items;
        piece = s.piece;
        read_fails_at = s.read_fails_at;
        takes = s.takes;
      };
      talk = record {
        given = take s.at s.gives.items;
        taken = s.taken.items;
        ended = s.ended;
        failed = has_failed s.reads_failed s.writes_failed;
      };
      reads_failed = s.reads_failed;
      writes_failed = s.writes_failed;
    } };

    ghost invariant = { λ s. (0 < s.piece) × (s.at ≤ vec_len s.gives)
        × (vec_len s.taken ≤ s.takes) × (s.takes ≤ vec_capacity s.taken) };
}

impl MemLink {
    /// A link of this plan.
    pub(crate) fn new(seed: Seed) -> MemLink
        ensures { result ≡ new_link seed }
    {
        let Seed {
            refuse,
            gives,
            piece,
            read_fails_at,
            takes,
            taken,
            place,
        } = seed;
        MemLink {
            refuse,
            gives,
            piece,
            read_fails_at,
            takes,
            at: 0,
            taken,
            ended: false,
            reads_failed: 0,
            writes_failed: 0,
            place,
        }
    }

    /// What went over the link, as a list of this talk alone.
    pub(crate) fn into_talk(self) -> LinkedList<Talk>
        ensures { result ≡ self.talk ∷ [] }
    {
        let MemLink {
            mut gives,
            at,
            taken,
            ended,
            reads_failed,
            writes_failed,
            place,
            ..
        } = self;
        gives.truncate(at);
        place.fill(Talk {
            given: List::from_vec(gives),
            taken: List::from_vec(taken),
            ended,
            failed: reads_failed > 0 || writes_failed > 0,
        })
    }

    /// How many reads failed, as far as u64 counts.
    pub fn reads_failed(&self) -> u64
        ensures { result ≡ self.now.reads_failed }
    {
        self.reads_failed
    }

    /// How many writes failed, as far as u64 counts.
    pub fn writes_failed(&self) -> u64
        ensures { result ≡ self.now.writes_failed }
    {
        self.writes_failed
    }
}

impl Source for MemLink {
    ghost use Rattle.std.specs.Prelude.{◌≡◌, Some};
    ghost use Rattle.ice_ports.specs.Talks.{adds};
    ghost use Rattle.ice_ports.specs.MemLinks.{left};

    ghost left = { λ s. Some (left s) };

    ghost failures = { λ s. s.reads_failed };

    ghost reads = { λ before part after.
        (Some after.talk ≡ adds (Some before.talk) part)
        × (after.writes_failed ≡ before.writes_failed)
        × (after.talk.taken ≡ before.talk.taken) };

    fn read(&mut self, into: &mut [u8]) -> Result<usize, Failed>
        ensures bound { ReadsAtMost result into.new }
        ensures bytes { ReadConsumes (Some (left self.old)) (Some (left self.new)) result into.new }
        ensures count { self.new.reads_failed ≡ count_after self.old.reads_failed (is_err result) }
        ensures talk { self.new.talk ≡ and_then self.old.talk (read_part result into.new) }
        ensures writes { self.new.writes_failed ≡ self.old.writes_failed }
        ensures fails { is_err result ≡ read_fails self.old }
        ensures most { IfOk result (λ n. n ≡ given_to self.old (length into.old)) }
        ensures plan { self.new.plan ≡ self.old.plan }
    {
        if fails_at(self.read_fails_at, self.at) {
            self.reads_failed = self.reads_failed.saturating_add(1);
            return Err(Failed);
        }
        let left = reach(self.read_fails_at, self.gives.as_slice()) - self.at;
        let count = into.len().min(left.min(self.piece as usize));
        into[..count].copy_from_slice(&self.gives[self.at..self.at + count]);
        self.at += count;
        self.ended = either(self.ended, is_end(count, into));
        Ok(count)
    }
}

impl Sink for MemLink {
    ghost use Rattle.std.specs.Prelude.{◌≡◌, Some};
    ghost use Rattle.ice_ports.specs.Talks.{adds};
    ghost use Rattle.ice_ports.specs.MemLinks.{left};

    ghost taken = { λ s. Some s.talk.taken };

    ghost failures = { λ s. s.writes_failed };

    ghost writes = { λ before part after.
        (Some after.talk ≡ adds (Some before.talk) part)
        × (after.reads_failed ≡ before.reads_failed)
        × (left after ≡ left before) };

    fn write(&mut self, piece: &[u8]) -> Result<usize, Failed>
        ensures bound { WritesAtMost result piece.now }
        ensures bytes { WriteAppends
            (Some self.old.talk.taken) (Some self.new.talk.taken) result piece.now }
        ensures progress { IfOk result (λ n. 0 < length piece.now → 0 < n) }
        ensures count { self.new.writes_failed ≡ count_after self.old.writes_failed (is_err result) }
        ensures talk { self.new.talk ≡ and_then self.old.talk (write_part result piece.now) }
        ensures reads { self.new.reads_failed ≡ self.old.reads_failed }
        ensures fails { is_err result ≡ write_fails self.old }
        ensures most { IfOk result (λ n.
            n ≡ min (length piece.now) (self.old.plan.takes - length self.old.talk.taken)) }
        ensures plan { self.new.plan ≡ self.old.plan }
    {
        let room = self.takes as usize - self.taken.len();
        if room == 0 {
            self.writes_failed = self.writes_failed.saturating_add(1);
            return Err(Failed);
        }
        let count = piece.len().min(room);
        self.taken.extend_from_slice(&piece[..count]).unwrap();
        Ok(count)
    }
}

impl Link for MemLink {
    ghost use Rattle.std.specs.Prelude.{◌≡◌, Some};
    ghost use Rattle.std.proofs.Common.{ap};

    ghost talk = { λ s. Some s.talk };

    fn shut(&mut self)
        ensures plan { self.new.plan ≡ cut self.old }
        ensures talk { self.new.talk ≡ self.old.talk }
        ensures reads { self.new.reads_failed ≡ self.old.reads_failed }
        ensures writes { self.new.writes_failed ≡ self.old.writes_failed }
    {
        self.gives.truncate(self.at);
        self.read_fails_at = None;
        self.takes = self.taken.len() as u64;
    }

    ghost read_adds = { λ _ _ _ kept. (kept.0, kept.1, ap (λ taken. Some taken) kept.2) };

    ghost write_adds = { λ _ _ _ kept. (kept.0, kept.1, ap (λ left. Some left) kept.2) };
}

/// How many bytes are given before reads fail or end.
fn reach(read_fails_at: Option<u64>, gives: &[u8]) -> usize
    ensures { result ≡ reach read_fails_at gives.now }
{
    match read_fails_at {
        Some(most) => (gives.len() as u64).min(most) as usize,
        None => gives.len(),
    }
}

/// Whether so many bytes were given that reads fail.
fn fails_at(read_fails_at: Option<u64>, given: usize) -> bool
    ensures { result ≡ fails_at read_fails_at given }
{
    match read_fails_at {
        Some(most) => most <= given as u64,
        None => false,
    }
}

/// Whether a read of so many bytes into this slice is the end.
fn is_end(count: usize, into: &[u8]) -> bool
    ensures { result ≡ is_end count into.now }
{
    count == 0 && !into.is_empty()
}

/// At least one of the two.
fn either(one: bool, other: bool) -> bool
    ensures { result ≡ (one || other) }
{
    one || other
}
