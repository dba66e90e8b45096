//! What stood when serving began.

ghost use Rattle.std.specs.Prelude.{ℕ, None, Option};
ghost use Rattle.ice_ports.specs.Nets.{ToldListener};
ghost use Rattle.dispatch_pool.specs.declared.lanes.LanePasses.{LanePasses};

use std::marker::Brand;

/// What stood when serving began, for contracts: the listener's links and counts, and the caller's passes. No value
/// of it is made.
pub trait Opening {
    // What the listener told.
    ghost first: { Option ToldListener };

    // Its counts of accepts that failed and of accepts that answered None.
    ghost failures: { ℕ };

    ghost nones: { ℕ };

    // The caller's passes.
    ghost passes: { Option LanePasses };
}

impl Opening for Brand {
    ghost first = { None };

    ghost failures = { 0 };

    ghost nones = { 0 };

    ghost passes = { None };
}
