//! `call [--retries R] [--times T] [--compact] [--locator PROXY] FILE INTERFACE PROXY OPERATION`

ghost use Rattle.std.specs.Prelude.{◌≡◌, ◌≤◌, IfSome, ℕ};
ghost use Rattle.ice_proxy.specs.Grammar.{proxy_text};
ghost use Rattle.node_commands.specs.Outside.{counts, outside};
ghost use Rattle.call_command.specs.Words.{IsWithin, seen};
ghost use Rattle.call_command.specs.Operations.{IsDeclared, found_seen, seen as operation_seen};
ghost use Rattle.call_command.specs.Endings.{ended_of};
ghost use Rattle.call_command.specs.Planning.{seen as plan_seen};
ghost use Rattle.call_command.specs.Decided.{Decides, IsListed, IsListedCallee, callee_named};
ghost use Rattle.call_command.specs.Rounds.{net_seen, sink_seen};
ghost use Rattle.call_command.specs.Called.{Called, Comes, TakesInput, WantsInput};
ghost use Rattle.call_command.specs.Steps.{CanBeSent, CarriesOut, FoundDecides, FoundWants};
ghost use Rattle.call_command.specs.Steps.{KnownDecides, KnownWants, SchemaDecides, SchemaWants};

use crate::callee::{Callee, callee_of};
use crate::ending::{Ending, report};
use crate::known::{Known, known_of};
use crate::performing::perform;
use crate::preparing::{Plan, plan_of};
use crate::words::CallCommand;
use ice_ports::{Net, Shelf, Sink, Source};
use ice_types::Schema;
use locator_types::object_schema;
use node_commands::{Outcome, interface_of, load_schema};
use std::alloc::Global;

/// Calls the operation of the proxy's object with arguments in JSON out of the source, and writes the results in JSON
/// to the sink, a line for each invocation; or sends calls for which no reply comes. Answers the status that the
/// program ends with. (Ice manual, "Proxy and Endpoint Syntax", "Oneway Invocations", "Batched Invocations".)
pub fn call<H: Shelf, S: Source, K: Sink, E: Sink, N: Net>(
    alloc: Global,
    command: CallCommand<'_>,
    shelf: &mut H,
    source: &mut S,
    sink: &mut K,
    errors: &mut E,
    net: &mut N,
) -> u8
    requires { IsWithin (seen command) }
    ensures { Called (seen command.entry)
        (outside (H.files shelf.old) (S.left source.old) (K.taken sink.old) (E.taken errors.old)
        (counts (H.failures shelf.old) (S.failures source.old) (K.failures sink.old)) (E.failures errors.old))
        (outside (H.files shelf.new) (S.left source.new) (K.taken sink.new) (E.taken errors.new)
        (counts (H.failures shelf.new) (S.failures source.new) (K.failures sink.new)) (E.failures errors.new))
        (net_seen (N.told net.old) (N.failures net.old) (N.listen_failures net.old))
        (net_seen (N.told net.new) (N.failures net.new) (N.listen_failures net.new))
        result }
{
    match run(alloc, command, shelf, source, sink, net) {
        Ok(()) => 0,
        Err(ending) => report(ending, errors),
    }
}

/// Does all of it, up to the line on why there is no success.
fn run<'a, H: Shelf, S: Source, K: Sink, N: Net>(
    alloc: Global,
    command: CallCommand<'a>,
    shelf: &mut H,
    source: &mut S,
    sink: &mut K,
    net: &mut N,
) -> Result<(), Ending<'a>>
    requires { IsWithin (seen command) }
    ensures comes { Comes (Decides (seen command.entry) (H.files shelf.old) (S.left source.old))
        (WantsInput (seen command.entry) (H.files shelf.old))
        (counts (H.failures shelf.old) (S.failures source.old) (K.failures sink.old))
        (counts (H.failures shelf.new) (S.failures source.new) (K.failures sink.new))
        (K.taken sink.old) (K.taken sink.new)
        (net_seen (N.told net.old) (N.failures net.old) (N.listen_failures net.old))
        (net_seen (N.told net.new) (N.failures net.new) (N.listen_failures net.new)) (ended_of result) }
    ensures taken { TakesInput (WantsInput (seen command.entry) (H.files shelf.old))
        (S.left source.old) (S.left source.new) }
{
    let callee = callee_of(alloc, command.locator, command.proxy)?;
    let came = with_callee(alloc, command, &callee, shelf, source, sink, net);
    drop(callee);
    came
}

/// Goes on where the texts of proxies say this. It has the schema, which it lends to what may end in many ways.
fn with_callee<'a, H: Shelf, S: Source, K: Sink, N: Net>(
    alloc: Global,
    command: CallCommand<'a>,
    callee: &Result<Callee, u32>,
    shelf: &mut H,
    source: &mut S,
    sink: &mut K,
    net: &mut N,
) -> Result<(), Ending<'a>>
    requires within { IsWithin (seen command) }
    requires named { callee_named (seen command) ≡ callee.now }
    requires listed { IsListed (proxy_text command.proxy.now) }
    ensures comes { Comes (Decides (seen command.entry) (H.files shelf.old) (S.left source.old))
        (WantsInput (seen command.entry) (H.files shelf.old))
        (counts (H.failures shelf.old) (S.failures source.old) (K.failures sink.old))
        (counts (H.failures shelf.new) (S.failures source.new) (K.failures sink.new))
        (K.taken sink.old) (K.taken sink.new)
        (net_seen (N.told net.old) (N.failures net.old) (N.listen_failures net.old))
        (net_seen (N.told net.new) (N.failures net.new) (N.listen_failures net.new)) (ended_of result) }
    ensures taken { TakesInput (WantsInput (seen command.entry) (H.files shelf.old))
        (S.left source.old) (S.left source.new) }
{
    let schema = load_schema(alloc, command.file, shelf)?;
    let came = under(alloc, command, callee, &schema, source, sink, net);
    drop(schema);
    came
}

/// Goes on where FILE means this schema.
fn under<'a, S: Source, K: Sink, N: Net>(
    alloc: Global,
    command: CallCommand<'a>,
    callee: &Result<Callee, u32>,
    schema: &Schema,
    source: &mut S,
    sink: &mut K,
    net: &mut N,
) -> Result<(), Ending<'a>>
    requires within { IsWithin (seen command) }
    requires listed { IsListedCallee callee.now }
    ensures comes { (shelf : ℕ)
        → Comes (SchemaDecides (seen command.entry) (S.left source.old) callee.now schema.now)
        (SchemaWants (seen command.entry) callee.now schema.now)
        (counts shelf (S.failures source.old) (K.failures sink.old))
        (counts shelf (S.failures source.new) (K.failures sink.new))
        (K.taken sink.old) (K.taken sink.new)
        (net_seen (N.told net.old) (N.failures net.old) (N.listen_failures net.old))
        (net_seen (N.told net.new) (N.failures net.new) (N.listen_failures net.new)) (ended_of result) }
    ensures taken { TakesInput (SchemaWants (seen command.entry) callee.now schema.now)
        (S.left source.old) (S.left source.new) }
{
    let Some(interface) = interface_of(schema, command.interface) else {
        return Err(Ending::Refused(Outcome::NoSuchName(command.interface)));
    };
    let object = object_schema(alloc)?;
    let found = known_of(&object, schema, interface, command.operation);
    let came = with_found(alloc, command, found, callee, source, sink, net);
    drop(object);
    came
}

/// Goes on where the interface and the object have this operation, or none of the name.
fn with_found<'a, S: Source, K: Sink, N: Net>(
    alloc: Global,
    command: CallCommand<'a>,
    found: Option<Known<'_>>,
    callee: &Result<Callee, u32>,
    source: &mut S,
    sink: &mut K,
    net: &mut N,
) -> Result<(), Ending<'a>>
    requires within { IsWithin (seen command) }
    requires listed { IsListedCallee callee.now }
    requires declared { IfSome found (λ k. IsDeclared (operation_seen k)) }
    ensures comes { (shelf : ℕ)
        → Comes (FoundDecides (seen command.entry) (S.left source.old) (found_seen found.entry) callee.now)
        (FoundWants (seen command.entry) (found_seen found.entry) callee.now)
        (counts shelf (S.failures source.old) (K.failures sink.old))
        (counts shelf (S.failures source.new) (K.failures sink.new))
        (K.taken sink.old) (K.taken sink.new)
        (net_seen (N.told net.old) (N.failures net.old) (N.listen_failures net.old))
        (net_seen (N.told net.new) (N.failures net.new) (N.listen_failures net.new)) (ended_of result) }
    ensures taken { TakesInput (FoundWants (seen command.entry) (found_seen found.entry) callee.now)
        (S.left source.old) (S.left source.new) }
{
    let Some(known) = found else {
        return Err(Ending::Refused(Outcome::NoSuchName(command.operation)));
    };
    match callee {
        Ok(callee) => of_known(alloc, command, known, callee, source, sink, net),
        Err(place) => Err(Ending::Refused(Outcome::TextRefused(*place))),
    }
}

/// Goes on where this operation of the object is called.
fn of_known<'a, S: Source, K: Sink, N: Net>(
    alloc: Global,
    command: CallCommand<'a>,
    known: Known<'_>,
    callee: &Callee,
    source: &mut S,
    sink: &mut K,
    net: &mut N,
) -> Result<(), Ending<'a>>
    requires within { IsWithin (seen command) }
    requires listed { callee.now.proxy.mode ≤ 2 }
    requires declared { IsDeclared (operation_seen known) }
    ensures comes { (shelf : ℕ)
        → Comes (KnownDecides (seen command.entry) (S.left source.old) (operation_seen known.entry) callee.now)
        (KnownWants (seen command.entry) (operation_seen known.entry) callee.now)
        (counts shelf (S.failures source.old) (K.failures sink.old))
        (counts shelf (S.failures source.new) (K.failures sink.new))
        (K.taken sink.old) (K.taken sink.new)
        (net_seen (N.told net.old) (N.failures net.old) (N.listen_failures net.old))
        (net_seen (N.told net.new) (N.failures net.new) (N.listen_failures net.new)) (ended_of result) }
    ensures taken { TakesInput (KnownWants (seen command.entry) (operation_seen known.entry) callee.now)
        (S.left source.old) (S.left source.new) }
{
    let plan = plan_of(alloc, command, known, callee, source)?;
    let came = carry_out(alloc, &plan, sink, net);
    drop(plan);
    came
}

/// Does what was planned.
fn carry_out<'a, K: Sink, N: Net>(
    alloc: Global,
    plan: &Plan<'_>,
    sink: &mut K,
    net: &mut N,
) -> Result<(), Ending<'a>>
    requires { CanBeSent plan.now }
    ensures { CarriesOut (plan_seen plan.now) (sink_seen (K.taken sink.old) (K.failures sink.old))
        (sink_seen (K.taken sink.new) (K.failures sink.new))
        (net_seen (N.told net.old) (N.failures net.old) (N.listen_failures net.old))
        (net_seen (N.told net.new) (N.failures net.new) (N.listen_failures net.new)) (ended_of result) }
{
    match perform(alloc, plan, sink, net) {
        Ok(()) => Ok(()),
        Err(stop) => Err(Ending::Stopped(stop)),
    }
}
