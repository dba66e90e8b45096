//! Calls to wherever a proxy leads. (Ice manual, "Locators" and "Automatic Retries".)

ghost use Rattle.std.specs.Prelude.{◌≡◌, ◌<◌, pos, IfOk, List, length, option_copied};
ghost use Rattle.ice_messages.specs.declared.message.Message.TheVariants.{Request};
ghost use Rattle.ice_messages.specs.Written.{IsWritable, IsWritableCall};
ghost use Rattle.ice_client.specs.ClientDid.{Ended, Rises, goes_again};
ghost use Rattle.ice_client.specs.Sending.{IsOneway};
ghost use Rattle.locator.specs.Resolving.{got};
ghost use Rattle.locator.specs.Rounds.{Round, WereMade};
ghost use Rattle.locator.specs.Steps as steps;
ghost use Rattle.locator.specs.Through as spec;

use crate::cache::Cache;
use crate::key::key_of;
use crate::step::{Step, Target, take_step};
use ice_client::{Invoked, Outcome, Outgoing};
use ice_messages::{Call, Message, WriteFault};
use ice_ports::Net;
use ice_types::{List, Proxy};
use retry_core::{Client, ClientAction};
use std::alloc::{AllocError, Global};

/// What a message to a proxy came to.
#[derive(Drop)]
pub enum Through {
    /// Its attempts came to this.
    Invoked(Invoked),
    /// No endpoints were found for the next attempt.
    NotLocated,
    /// The locator's own invocation failed, by which endpoints for the next attempt were to be found.
    LocatorFailed(Invoked),
}

/// Calls the object of the proxy as `invoke` does, wherever the proxy leads: it is resolved anew before each
/// attempt, and a place of the cache at which nobody listens, or where the object is no more, is forgotten. After
/// want of memory the cache is as the resolutions and attempts so far leave it. (Ice manual, "Locators".)
pub fn call_through<N: Net>(
    alloc: Global,
    net: &mut N,
    cache: &mut Cache,
    locator: Option<&Proxy>,
    proxy: &Proxy,
    call: &Call,
    retries: u32,
) -> Result<Through, WriteFault>
    requires { IsWritableCall call.now }
    ensures told { (rounds : List Round)
        × WereMade rounds (N.told net.old) (N.told net.new) (N.failures net.old) (N.failures net.new)
        × spec.GoesThrough (Request (pos 1) call.now) (spec.target (option_copied locator.entry) proxy.now retries)
        cache.old rounds cache.new result }
    ensures fails { IfOk result (λ t. spec.IsFailure t → Rises (N.failures net.old) (N.failures net.new)) }
    ensures kept { N.listen_failures net.new ≡ N.listen_failures net.old }
{
    let outgoing = Outgoing::twoway(alloc, call)?;
    let target = Target {
        locator,
        proxy,
        retries,
    };
    Ok(deliver(alloc, net, cache, target, &outgoing)?)
}

/// Sends a request with id 0 or a batch as `send` does, wherever the proxy leads, as `call_through` does. (Ice
/// manual, "Oneway Invocations" and "Batched Invocations".)
pub fn send_through<N: Net>(
    alloc: Global,
    net: &mut N,
    cache: &mut Cache,
    locator: Option<&Proxy>,
    proxy: &Proxy,
    message: &Message,
    retries: u32,
) -> Result<Through, WriteFault>
    requires writable { IsWritable message.now }
    requires oneway { IsOneway message.now }
    ensures told { (rounds : List Round)
        × WereMade rounds (N.told net.old) (N.told net.new) (N.failures net.old) (N.failures net.new)
        × spec.GoesThrough message.now (spec.target (option_copied locator.entry) proxy.now retries)
        cache.old rounds cache.new result }
    ensures fails { IfOk result (λ t. spec.IsFailure t → Rises (N.failures net.old) (N.failures net.new)) }
    ensures kept { N.listen_failures net.new ≡ N.listen_failures net.old }
{
    let outgoing = Outgoing::oneway(alloc, message)?;
    let target = Target {
        locator,
        proxy,
        retries,
    };
    Ok(deliver(alloc, net, cache, target, &outgoing)?)
}

/// Whether another attempt follows.
fn goes_again(action: ClientAction) -> bool
    ensures { result ≡ goes_again action }
{
    matches!(action, ClientAction::Connect)
}

/// What the attempts came to.
fn invoked(outcome: Outcome, client: Client) -> Through
    ensures { result ≡ spec.invoked outcome client }
{
    Through::Invoked(Invoked {
        outcome,
        attempts: List::from_vec(client.into_attempts()),
    })
}

/// Makes attempts at the message until none follows.
fn deliver<N: Net>(
    alloc: Global,
    net: &mut N,
    cache: &mut Cache,
    target: Target<'_>,
    outgoing: &Outgoing,
) -> Result<Through, AllocError>
    requires { 0 < length outgoing.now.bytes }
    ensures told { (rounds : List Round)
        × WereMade rounds (N.told net.old) (N.told net.new) (N.failures net.old) (N.failures net.new)
        × spec.Delivers (Ended outgoing.now target.entry.retries) (steps.target_of target.entry)
        cache.old rounds cache.new (got result) }
    ensures fails { IfOk result (λ t. spec.IsFailure t → Rises (N.failures net.old) (N.failures net.new)) }
    ensures kept { N.listen_failures net.new ≡ N.listen_failures net.old }
{
    let key = key_of(alloc, target.proxy)?;
    let mut client = Client::new(
        alloc,
        outgoing.idempotent,
        outgoing.replies,
        outgoing.bytes.len() as u64,
        target.retries,
    )?;
    let mut number = 0;
    loop {
        let step = take_step(
            alloc,
            net,
            cache,
            target,
            &key,
            number,
            outgoing,
            &mut client,
        )?;
        match step {
            Step::Over(once) => {
                if !goes_again(once.action) {
                    return Ok(invoked(once.outcome, client));
                }
            }
            Step::NoEndpoint => return Ok(invoked(Outcome::NoEndpoint, client)),
            Step::NotLocated => return Ok(Through::NotLocated),
            Step::LocatorFailed(failed) => return Ok(Through::LocatorFailed(failed)),
        }
        number += 1;
    }
}
