//! Messages sent by attempts, one after the other.

ghost use Rattle.std.specs.Prelude.{◌≡◌, ◌<◌, pos, List, IfOk, length};
ghost use Rattle.ice_messages.specs.declared.message.Message.TheVariants.{Request};
ghost use Rattle.ice_messages.specs.Written.{IsWritable, IsWritableCall};
ghost use Rattle.ice_client.specs.Sending.{IsOneway};
ghost use Rattle.ice_client.specs.ClientDid.{Brings, Invokes, Made, Rises, Tried, goes_again};
ghost use Rattle.ice_client.specs.declared.outcome.Outcome.TheVariants as outcomes;

use crate::attempting::attempt_once;
use crate::outcome::{Invoked, Outcome};
use crate::outgoing::Outgoing;
use encaps_optionals::tcp_of;
use ice_messages::{Call, Message, WriteFault};
use ice_ports::Net;
use ice_types::{List, Proxy};
use retry_core::{Client, ClientAction};
use std::alloc::{AllocError, Global};

/// Calls the object of the proxy, and reads the reply. Each attempt makes a connection of its own, to the next
/// endpoint of the proxy; it is tried again, at most so many times, by the rules of retries. `TooLong` comes
/// before anything is connected. (Ice manual, "Automatic Retries".)
pub fn invoke<N: Net>(
    alloc: Global,
    net: &mut N,
    proxy: &Proxy,
    call: &Call,
    retries: u32,
) -> Result<Invoked, WriteFault>
    requires { IsWritableCall call.now }
    ensures told { (tried : List Tried)
        × Made proxy.now.endpoints tried (N.told net.old) (N.told net.new) (N.failures net.old) (N.failures net.new)
        × Invokes (Request (pos 1) call.now) proxy.now.endpoints retries tried result }
    ensures fails { IfOk result (λ r. r.outcome ≡ outcomes.NetFailed
        → Rises (N.failures net.old) (N.failures net.new)) }
    ensures kept { N.listen_failures net.new ≡ N.listen_failures net.old }
{
    let outgoing = Outgoing::twoway(alloc, call)?;
    Ok(deliver(alloc, net, proxy, &outgoing, retries)?)
}

/// Sends a request with id 0 or a batch, for which no reply comes, as `invoke` sends a call: `Outcome::Sent` where
/// the last connection took it whole. (Ice manual, "Oneway Invocations" and "Batched Invocations".)
pub fn send<N: Net>(
    alloc: Global,
    net: &mut N,
    proxy: &Proxy,
    message: &Message,
    retries: u32,
) -> Result<Invoked, WriteFault>
    requires writable { IsWritable message.now }
    requires oneway { IsOneway message.now }
    ensures told { (tried : List Tried)
        × Made proxy.now.endpoints tried (N.told net.old) (N.told net.new) (N.failures net.old) (N.failures net.new)
        × Invokes message.now proxy.now.endpoints retries tried result }
    ensures fails { IfOk result (λ r. r.outcome ≡ outcomes.NetFailed
        → Rises (N.failures net.old) (N.failures net.new)) }
    ensures kept { N.listen_failures net.new ≡ N.listen_failures net.old }
{
    let outgoing = Outgoing::oneway(alloc, message)?;
    Ok(deliver(alloc, net, proxy, &outgoing, retries)?)
}

/// Whether another attempt follows.
fn goes_again(action: ClientAction) -> bool
    ensures { result ≡ goes_again action }
{
    matches!(action, ClientAction::Connect)
}

/// Makes attempts at the message until none follows.
fn deliver<N: Net>(
    alloc: Global,
    net: &mut N,
    proxy: &Proxy,
    outgoing: &Outgoing,
    retries: u32,
) -> Result<Invoked, AllocError>
    requires { 0 < length outgoing.now.bytes }
    ensures told { (tried : List Tried)
        × Made proxy.now.endpoints tried (N.told net.old) (N.told net.new) (N.failures net.old) (N.failures net.new)
        × Brings outgoing.now proxy.now.endpoints retries tried result }
    ensures fails { IfOk result (λ r. r.outcome ≡ outcomes.NetFailed
        → Rises (N.failures net.old) (N.failures net.new)) }
    ensures kept { N.listen_failures net.new ≡ N.listen_failures net.old }
{
    if tcp_of(proxy, 0).is_none() {
        return Ok(Invoked {
            outcome: Outcome::NoEndpoint,
            attempts: List::new(alloc),
        });
    }
    let length = outgoing.bytes.len() as u64;
    let mut client = Client::new(
        alloc,
        outgoing.idempotent,
        outgoing.replies,
        length,
        retries,
    )?;
    let mut number = 0;
    loop {
        let once = attempt_once(alloc, net, proxy, number, outgoing, false, &mut client)?;
        if !goes_again(once.action) {
            return Ok(Invoked {
                outcome: once.outcome,
                attempts: List::from_vec(client.into_attempts()),
            });
        }
        number += 1;
    }
}
