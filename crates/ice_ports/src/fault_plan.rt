//! Which calls of an object in memory fail.
ghost use Rattle.std.specs.Prelude.{◌≡◌, is_err};
ghost use Rattle.ice_ports.specs.Plan.{new_plan, fails_now, after_call};

use super::ports::Failed;
use ice_types::List;

/// The numbers of the calls that fail, counted from 0, and how many calls and failures there were.
/// Both counts stand still at the end of u64.
#[derive(Drop)]
pub struct FaultPlan {
    pub fails: List<u64>,
    pub calls: u64,
    pub failures: u64,
}

impl FaultPlan {
    /// A plan of which no call was made yet.
    pub fn new(fails: List<u64>) -> FaultPlan
        ensures { result ≡ new_plan fails }
    {
        FaultPlan {
            fails,
            calls: 0,
            failures: 0,
        }
    }

    /// Whether the next call is one that fails.
    pub fn fails_now(&self) -> bool
        ensures { result ≡ fails_now self.now }
    {
        self.fails.as_slice().contains(&self.calls)
    }

    /// Counts a call, and a failure where it failed, and answers so.
    pub fn count(&mut self, failed: bool) -> Result<(), Failed>
        ensures fails { is_err result ≡ failed }
        ensures plan { self.new ≡ after_call self.old failed }
    {
        self.calls = self.calls.saturating_add(1);
        if !failed {
            return Ok(());
        }
        self.failures = self.failures.saturating_add(1);
        Err(Failed)
    }
}
