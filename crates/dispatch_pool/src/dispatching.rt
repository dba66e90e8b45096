//! A call of an object.

ghost use Rattle.std.specs.Prelude.{[], IfOk, OnErr};
ghost use Rattle.dispatch_pool.specs.Lanes.{AreOf};
ghost use Rattle.dispatch_pool.specs.Turns.{Dispatched, Grew};

use crate::gate::Gate;
use crate::lanes::{LanePasses, Lanes};
use ice_messages::{Answer, Call};
use object_adapter::{Found, missed};
use std::alloc::{AllocError, Global};
use std::sync::Wait;

/// Has the object that the call names answer it, in a turn of its own, with the gate round its answer. Status 2 or 3
/// comes exactly where there is no such object or facet, without a turn. Out of memory adds no call to any history;
/// the passes may have seen more.
pub fn dispatch<R: Wait, G: Gate>(
    rt: &R,
    alloc: Global,
    lanes: &Lanes,
    passes: &mut LanePasses,
    gate: &G,
    call: &Call,
) -> Result<Answer, AllocError>
    requires { AreOf lanes.now passes.old }
    ensures of { AreOf lanes.now passes.new }
    ensures ok { IfOk result (Dispatched lanes.now passes.old passes.new call.now) }
    ensures err { OnErr result (Grew passes.old passes.new []) }
{
    match lanes.keys.find(&call.identity, call.facet.as_str()) {
        Found::At(at) => lanes.turn_at(rt, passes, gate, at as usize, call),
        Found::NoObject => missed(alloc, 2, call),
        Found::NoFacet => missed(alloc, 3, call),
    }
}
