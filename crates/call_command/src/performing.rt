//! The messages, one after the other.

ghost use Rattle.std.specs.Prelude.{◌≡◌, [], IfOk, List};
ghost use Rattle.std.specs.Option.{option_copied};
ghost use Rattle.ice_client.specs.ClientDid.{Rises};
ghost use Rattle.locator.specs.Rounds.{Round, WereMade};
ghost use Rattle.locator.specs.Through.{GoesThrough, IsFailure};
ghost use Rattle.call_command.specs.Planning.{seen, target_of};
ghost use Rattle.call_command.specs.Rounds.{Performs, net_seen, sink_seen};
ghost use Rattle.call_command.specs.Steps.{CanBeSent, DeliversOnce, PrintsLine, twoway_of};

use crate::preparing::Plan;
use crate::stop::Stop;
use crate::telling::line_of;
use ice_messages::{Call, Message, WriteFault};
use ice_ports::{Failed, Net, Sink, write_all};
use locator::{Cache, Through, call_through, send_through};
use std::alloc::Global;

/// Sends the message as often as the plan says, and prints a line for each that succeeds, up to the first that does
/// not. Places that a locator told are kept from message to message.
pub(crate) fn perform<K: Sink, N: Net>(
    alloc: Global,
    plan: &Plan<'_>,
    sink: &mut K,
    net: &mut N,
) -> Result<(), Stop>
    requires { CanBeSent plan.now }
    ensures { Performs (seen plan.now) (sink_seen (K.taken sink.old) (K.failures sink.old))
        (sink_seen (K.taken sink.new) (K.failures sink.new))
        (net_seen (N.told net.old) (N.failures net.old) (N.listen_failures net.old))
        (net_seen (N.told net.new) (N.failures net.new) (N.listen_failures net.new)) result }
{
    let mut cache = Cache::new(alloc);
    let came = perform_with(alloc, plan, &mut cache, sink, net);
    drop(cache);
    came
}

/// The same, with no places told so far.
fn perform_with<K: Sink, N: Net>(
    alloc: Global,
    plan: &Plan<'_>,
    cache: &mut Cache,
    sink: &mut K,
    net: &mut N,
) -> Result<(), Stop>
    requires sendable { CanBeSent plan.now }
    requires untold { cache.old ≡ [] }
    ensures { Performs (seen plan.now) (sink_seen (K.taken sink.old) (K.failures sink.old))
        (sink_seen (K.taken sink.new) (K.failures sink.new))
        (net_seen (N.told net.old) (N.failures net.old) (N.listen_failures net.old))
        (net_seen (N.told net.new) (N.failures net.new) (N.listen_failures net.new)) result }
{
    for _ in 0..plan.rounds {
        let through = deliver(alloc, plan, cache, net)?;
        let told = line_of(alloc, plan, &through);
        drop(through);
        let line = told?;
        let went = print(line.as_slice(), sink);
        drop(line);
        went?;
    }
    Ok(())
}

/// Writes the line. A sink that fails has taken a prefix of it.
fn print<K: Sink>(line: &[u8], sink: &mut K) -> Result<(), Stop>
    ensures { PrintsLine (sink_seen (K.taken sink.old) (K.failures sink.old))
        (sink_seen (K.taken sink.new) (K.failures sink.new)) line.now result }
{
    match write_all(sink, line) {
        Ok(()) => Ok(()),
        Err(Failed) => Err(Stop::WriteFailed),
    }
}

/// Sends the message once, and reads its reply where it wants one.
fn deliver<N: Net>(
    alloc: Global,
    plan: &Plan<'_>,
    cache: &mut Cache,
    net: &mut N,
) -> Result<Through, Stop>
    requires { CanBeSent plan.now }
    ensures { DeliversOnce (seen plan.now) cache.old
        (net_seen (N.told net.old) (N.failures net.old) (N.listen_failures net.old))
        (net_seen (N.told net.new) (N.failures net.new) (N.listen_failures net.new)) cache.new result }
{
    match go_through(alloc, plan, cache, net) {
        Ok(through) => Ok(through),
        Err(WriteFault::Memory) => Err(Stop::Memory),
        Err(WriteFault::TooLong(_)) => unreachable!(),
    }
}

/// Sends the message once, wherever the proxy leads: by `call_through` where it wants a reply, and else by
/// `send_through`.
fn go_through<N: Net>(
    alloc: Global,
    plan: &Plan<'_>,
    cache: &mut Cache,
    net: &mut N,
) -> Result<Through, WriteFault>
    requires { CanBeSent plan.now }
    ensures told { (rounds : List Round)
        × WereMade rounds (N.told net.old) (N.told net.new) (N.failures net.old) (N.failures net.new)
        × GoesThrough plan.now.message (target_of (seen plan.now)) cache.old rounds cache.new result }
    ensures fails { IfOk result (λ t. IsFailure t → Rises (N.failures net.old) (N.failures net.new)) }
    ensures kept { N.listen_failures net.new ≡ N.listen_failures net.old }
{
    let locator = plan.callee.locator.as_ref();
    let proxy = &plan.callee.proxy;
    match twoway_of(&plan.message) {
        Some(call) => call_through(alloc, net, cache, locator, proxy, call, plan.retries),
        None => send_through(
            alloc,
            net,
            cache,
            locator,
            proxy,
            &plan.message,
            plan.retries,
        ),
    }
}

/// The call of a request that wants a reply.
fn twoway_of(message: &Message) -> Option<&Call>
    ensures { option_copied result ≡ twoway_of message.now }
{
    match message {
        Message::Request { id, call } => { if *id == 1 { Some(call) } else { None } }
        _ => None,
    }
}
