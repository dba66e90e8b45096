//! What a link in memory does, and the memory for it.
ghost use Rattle.std.specs.Prelude.{◌≡◌, IfOk};
ghost use Rattle.ice_ports.specs.MemLinks.{IsPlan};

use super::talk::TalkPlace;
use ice_types::Bytes;
use std::alloc::{AllocError, Global};
use std::marker::Model;

/// What a link in memory does: it gives `gives` in order, at most `piece` bytes a read, and then the
/// end. It fails each read after `read_fails_at` bytes were given, and each write after `takes` bytes
/// were taken. With `refuse` a connect fails in its place.
#[derive(Drop)]
pub struct Plan {
    pub refuse: bool,
    pub gives: Bytes,
    /// At least 1.
    pub piece: u32,
    pub read_fails_at: Option<u64>,
    /// At most 16,777,216.
    pub takes: u64,
}

/// A plan with all memory that its link needs.
#[derive(Drop)]
pub(crate) struct Seed {
    pub(crate) refuse: bool,
    pub(crate) gives: Vec<u8>,
    pub(crate) piece: u32,
    pub(crate) read_fails_at: Option<u64>,
    pub(crate) takes: u64,
    pub(crate) taken: Vec<u8>,
    pub(crate) place: TalkPlace,
}

impl Model for Seed {
    ghost use Rattle.std.specs.Prelude.{◌≡◌, ◌≤◌, ◌<◌, [], vec_capacity};
    ghost use Rattle.ice_ports.specs.declared.plan_of_link.Plan.{Plan};

    ghost Value = { Plan };

    ghost view = { λ s. record {
      refuse = s.refuse;
      gives = s.gives.items;
      piece = s.piece;
      read_fails_at = s.read_fails_at;
      takes = s.takes;
    } };

    ghost invariant = { λ s. (0 < s.piece) × (s.taken.items ≡ []) × (s.takes ≤ vec_capacity s.taken) };
}

impl Seed {
    pub(crate) fn new(alloc: Global, plan: &Plan) -> Result<Seed, AllocError>
        requires { IsPlan plan.now }
        ensures { IfOk result (λ seed. seed ≡ plan.now) }
    {
        Ok(Seed {
            refuse: plan.refuse,
            gives: Vec::from_slice(alloc, plan.gives.as_slice())?,
            piece: plan.piece,
            read_fails_at: plan.read_fails_at,
            takes: plan.takes,
            taken: Vec::with_capacity(alloc, plan.takes as usize)?,
            place: TalkPlace::new(alloc)?,
        })
    }

    /// Whether the plan refuses the connect.
    pub(crate) fn refuses(&self) -> bool
        ensures { result ≡ self.now.refuse }
    {
        self.refuse
    }
}
