//! Steps outwards over several scopes at once.

ghost use Rattle.std.specs.Prelude.{◌≤◌, ◌<◌, length, reverse};
ghost use Rattle.slice_meaning.specs.Scopes.{AreEntries, AreSkips, IsOuter};

use crate::entry::Entry;

/// A step outwards over several scopes at once.
///
/// Each scope has one. Their lengths are those of a skew binary counter, so that any way outwards is made in a number
/// of steps that is the logarithm of its length.
#[derive(Clone, Copy)]
pub struct Skip {
    /// The number of the scope that it leads to.
    pub to: usize,
    /// Over how many scopes it leads.
    pub length: usize,
}

/// The step from a scope. The outermost one stays where it is.
pub fn skip_from(entries: &[Entry], scope: usize) -> Skip
    requires within { scope ≤ length entries.now }
    requires entries { AreEntries (reverse entries.now) }
    requires skips { AreSkips (reverse entries.now) }
    ensures within { result.to ≤ scope }
    ensures outer { IsOuter (reverse entries.now) scope result.to }
{
    if scope == 0 {
        return Skip { to: 0, length: 0 };
    }
    entries[scope - 1].skip
}

/// The step from a new scope inside one: over the two steps behind it where these have one length, else to that scope.
pub fn next_skip(entries: &[Entry], scope: usize) -> Skip
    requires within { scope ≤ length entries.now }
    requires entries { AreEntries (reverse entries.now) }
    requires skips { AreSkips (reverse entries.now) }
    ensures { IsOuter (reverse entries.now) scope result.to }
{
    let near = skip_from(entries, scope);
    let far = skip_from(entries, near.to);
    if near.length == far.length {
        return Skip {
            to: far.to,
            length: near.length.saturating_mul(2).saturating_add(1),
        };
    }
    Skip {
        to: scope,
        length: 1,
    }
}
