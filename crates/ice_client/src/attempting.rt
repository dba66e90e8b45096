//! One attempt.

ghost use Rattle.std.specs.Prelude.{◌≡◌, ◌<◌, ℕ, length, Option, IsSome, Some, true};
ghost use Rattle.ice_ports.specs.Failures.{count_after};
ghost use Rattle.ice_ports.specs.Nets.{has_failed};
ghost use Rattle.ice_ports.specs.Talks.{adds};
ghost use Rattle.ice_ports.specs.declared.talk.Talk.{Talk};
ghost use Rattle.encaps_optionals.specs.Usable.{tcp_at};
ghost use Rattle.retry_core.specs.declared.client_table.ClientState.TheVariants as states;
ghost use Rattle.retry_core.specs.Client.{MayCome, next_of, row_of, action_of};
ghost use Rattle.ice_client.specs.Asking.{Asks, Converses, Attempts, IsFor, Ends};
ghost use Rattle.ice_client.specs.Attempted.{attempted, is_failure};
ghost use Rattle.talking.specs.Hearing.{IsGoing};

use crate::outcome::{End, Once, Outcome};
use crate::outgoing::Outgoing;
use crate::phases::{await_reply, greet};
use encaps_optionals::tcp_of;
use ice_messages::Frames;
use ice_ports::{Failed, Link, Net};
use ice_types::Proxy;
use retry_core::{Client, ClientEvent};
use std::alloc::{AllocError, Global};
use talking::write_bytes;

/// Tells the client how its attempt ends.
fn over(client: &mut Client, end: End) -> Once
    requires { MayCome client.old end.event }
    ensures { Ends client.old client.new end result }
{
    Once {
        action: client.step(end.event),
        outcome: end.outcome,
    }
}

/// Writes the message, and reads its reply where it asks for one.
fn ask<L: Link>(
    link: &mut L,
    frames: &mut Frames,
    outgoing: &Outgoing,
    cached: bool,
    client: &mut Client,
) -> Result<Once, AllocError>
    requires going { IsGoing frames.old }
    requires state { client.old.state ≡ states.Sending 0 }
    requires made { IsFor client.old outgoing.now }
    requires reads { L.Source.failures link.old ≡ 0 }
    requires writes { L.Sink.failures link.old ≡ 0 }
    ensures talk { (t : Talk) × (L.talk link.new ≡ adds (L.talk link.old) t)
        × (has_failed (L.Source.failures link.new) (L.Sink.failures link.new) ≡ t.failed)
        × Asks outgoing.now cached frames.old t client.old client.new result }
{
    let taken = write_bytes(link, outgoing.bytes.as_slice());
    let action = client.step(ClientEvent::Taken(taken as u64));
    if taken < outgoing.bytes.len() {
        return Ok(over(
            client,
            End {
                event: ClientEvent::Lost,
                outcome: Outcome::NetFailed,
            },
        ));
    }
    if !outgoing.replies {
        return Ok(Once {
            action,
            outcome: Outcome::Sent,
        });
    }
    let end = await_reply(link, frames, cached)?;
    Ok(over(client, end))
}

/// Talks over a new connection until the attempt is over.
fn converse<L: Link>(
    alloc: Global,
    link: &mut L,
    outgoing: &Outgoing,
    cached: bool,
    client: &mut Client,
) -> Result<Once, AllocError>
    requires state { client.old.state ≡ states.AwaitingValidate }
    requires made { IsFor client.old outgoing.now }
    requires reads { L.Source.failures link.old ≡ 0 }
    requires writes { L.Sink.failures link.old ≡ 0 }
    ensures talk { (t : Talk) × (L.talk link.new ≡ adds (L.talk link.old) t)
        × (has_failed (L.Source.failures link.new) (L.Sink.failures link.new) ≡ t.failed)
        × Converses outgoing.now cached t client.old client.new result }
{
    let mut frames = Frames::new(alloc);
    if let Some(end) = greet(link, &mut frames, cached)? {
        return Ok(over(client, end));
    }
    client.step(ClientEvent::Validated);
    ask(link, &mut frames, outgoing, cached, client)
}

/// Makes one attempt at this place.
fn attempt_at<N: Net>(
    alloc: Global,
    net: &mut N,
    host: &str,
    port: u16,
    outgoing: &Outgoing,
    cached: bool,
    client: &mut Client,
) -> Result<Once, AllocError>
    requires state { client.old.state ≡ states.Connecting }
    requires made { IsFor client.old outgoing.now }
    ensures told { (talk : Option Talk)
        × (N.told net.new ≡ attempted (Some (host.now, port)) talk (N.told net.old))
        × (N.failures net.new ≡ count_after (N.failures net.old) (is_failure talk))
        × Attempts outgoing.now cached talk client.old client.new result }
    ensures kept { N.listen_failures net.new ≡ N.listen_failures net.old }
{
    match net.connect(host, port) {
        Err(Failed) => Ok(over(
            client,
            End {
                event: ClientEvent::ConnectFailed,
                outcome: Outcome::NetFailed,
            },
        )),
        Ok(mut link) => {
            client.step(ClientEvent::Connected);
            let once = converse(alloc, &mut link, outgoing, cached, client);
            link.shut();
            net.hang_up(link);
            once
        }
    }
}

/// Makes the attempt with this number, counted from 0, at the message: a new connection to that endpoint of the
/// proxy, which is handed back. `cached` says that the endpoints came from a cache. The client is told what
/// comes, and answers what follows. Where memory is wanting the client is of no use. (Ice manual, "Automatic
/// Retries".)
pub fn attempt_once<N: Net>(
    alloc: Global,
    net: &mut N,
    proxy: &Proxy,
    number: u32,
    outgoing: &Outgoing,
    cached: bool,
    client: &mut Client,
) -> Result<Once, AllocError>
    requires place { IsSome (tcp_at number proxy.now.endpoints) }
    requires state { client.old.state ≡ states.Connecting }
    requires made { IsFor client.old outgoing.now }
    ensures told { (talk : Option Talk)
        × (N.told net.new ≡ attempted (tcp_at number proxy.now.endpoints) talk (N.told net.old))
        × (N.failures net.new ≡ count_after (N.failures net.old) (is_failure talk))
        × Attempts outgoing.now cached talk client.old client.new result }
    ensures kept { N.listen_failures net.new ≡ N.listen_failures net.old }
{
    match tcp_of(proxy, number) {
        Some((host, port)) => attempt_at(alloc, net, host, port, outgoing, cached, client),
        None => unreachable!(),
    }
}
