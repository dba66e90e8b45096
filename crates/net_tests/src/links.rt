//! Links in memory, of which the test chooses how much each takes.

ghost use Rattle.std.specs.Prelude.{◌≤◌, All, IfOk};
ghost use Rattle.ice_ports.specs.MemLinks.{IsPlan};

use ice_ports::Plan;
use ice_types::List;
use std::alloc::{AllocError, Global};

/// How many bytes a link takes, whose reads fail behind so many bytes or never.
pub(crate) type Taking = (u64, Option<u64>);

/// A link that gives these bytes, and takes so many.
pub(crate) fn plan(
    alloc: Global,
    gives: &[u8],
    takes: u64,
    fails: Option<u64>,
) -> Result<Plan, AllocError>
    requires { takes ≤ 16777216 }
    ensures { IfOk result IsPlan }
{
    Ok(Plan {
        refuse: false,
        gives: List::from_vec(Vec::from_slice(alloc, gives)?),
        piece: 14,
        read_fails_at: fails,
        takes,
    })
}

/// Such a link for each of these, all of which give the same bytes.
pub(crate) fn plans(alloc: Global, gives: &[u8], links: &[Taking]) -> Result<List<Plan>, AllocError>
    ensures { IfOk result (λ plans. All IsPlan plans) }
{
    let mut plans = List::new(alloc);
    if let [(takes, fails), (then, and_fails)] = links {
        add(alloc, &mut plans, gives, *takes, *fails)?;
        add(alloc, &mut plans, gives, *then, *and_fails)?;
    }
    Ok(plans)
}

/// Puts a plan behind those that are there.
fn add(
    alloc: Global,
    plans: &mut List<Plan>,
    gives: &[u8],
    takes: u64,
    fails: Option<u64>,
) -> Result<(), AllocError>
    requires { All IsPlan plans.old }
    ensures { All IsPlan plans.new }
{
    plans.push(plan(alloc, gives, takes.min(16_777_216), fails)?)
}
