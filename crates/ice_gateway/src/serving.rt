//! Many connections, served one after the other.

ghost use Rattle.std.specs.Prelude.{◌≡◌, ◌⊎◌, ◌^◌, ℕ, ◌+◌, ◌<◌, ◌≤◌, Option, false, true};
ghost use Rattle.ice_types.specs.Object.{object_tables};
ghost use Rattle.ice_ports.specs.Failures.{count_after};
ghost use Rattle.ice_ports.specs.Nets.{ToldListener, gathers};
ghost use Rattle.talking.specs.Told.{NoneToCome};
ghost use Rattle.ice_gateway.specs.Gate.{seen};
ghost use Rattle.ice_gateway.specs.Runs.{NetSeen, net_seen};
ghost use Rattle.ice_gateway.specs.Sessions.{AllServed, HasServed};
ghost use Rattle.ice_gateway.specs.Sessions.{fails, runs_out, serves, starves};

use crate::gateway::Gateway;
use crate::session::gate_connection;
use ice_ports::{Failed, Listener, Net, Tray};

/// What serving came to.
pub struct Gated<D: Listener> {
    /// The listener, with the links of all sessions gathered.
    pub door: D,
    /// How many links were accepted.
    pub accepted: u64,
    /// An accept failed, which ended the accepting.
    pub failed: bool,
    /// Memory lacked.
    pub starved: bool,
}

/// What became of the next link.
#[derive(Clone, Copy, PartialEq, Eq)]
pub enum Turn {
    /// It was served, and taken back.
    Served,
    /// The same, but memory lacked.
    Starved,
    /// The listener has no more.
    Over,
    /// The accept failed.
    Failed,
}

/// Takes the next link, serves it, and puts it into the tray.
fn serve_next<N: Net, D: Listener>(
    gateway: &Gateway<'_>,
    net: &mut N,
    door: &mut D,
    tray: &mut D::Tray,
    messages: u64,
) -> Turn
    requires { gateway.now.object.now ≡ object_tables }
    ensures did { (first : Option ToldListener) (old : NetSeen) (n : ℕ) → n + 1 < 2 ^ 64
        → HasServed (seen gateway.now) messages first (D.told door.old) (D.Tray.told tray.old) old
        (net_seen (N.told net.old) (N.failures net.old) (N.listen_failures net.old)) n false
        → HasServed (seen gateway.now) messages first (D.told door.new) (D.Tray.told tray.new) old
        (net_seen (N.told net.new) (N.failures net.new) (N.listen_failures net.new))
        (n + serves result) (starves result) }
    ensures failures { D.failures door.new ≡ count_after (D.failures door.old) (fails result) }
    ensures nones { D.nones door.new ≡ count_after (D.nones door.old) (runs_out result) }
    ensures no_more { runs_out result ≡ true → NoneToCome (D.told door.new) }
{
    match door.accept() {
        Ok(Some(link)) => {
            let mut link = link;
            let end = gate_connection(gateway, net, &mut link, messages);
            tray.take_back(link);
            turn_of(end.is_err())
        }
        Ok(None) => Turn::Over,
        Err(Failed) => Turn::Failed,
    }
}

/// Serves connections one after the other, until so many links were accepted, the listener has no more, an accept
/// fails, or memory lacks. A connection ends after so many messages.
///
/// Each link that the listener gave was served and taken back. `failed` says that an accept failed, which the listener
/// counted; `starved`, that memory lacked. Without both, as many links were accepted as were asked for, or the listener
/// had no more. What fails upstream, or on one connection, ends no session but its own.
pub fn gate_all<N: Net, D: Listener>(
    gateway: &Gateway<'_>,
    net: &mut N,
    door: D,
    connections: u64,
    messages: u64,
) -> Gated<D>
    requires { gateway.now.object.now ≡ object_tables }
    ensures done { AllServed (seen gateway.now) messages (D.told door) (D.told result.door)
        (net_seen (N.told net.old) (N.failures net.old) (N.listen_failures net.old))
        (net_seen (N.told net.new) (N.failures net.new) (N.listen_failures net.new)) result.accepted result.starved }
    ensures few { result.accepted ≤ connections }
    ensures failures { D.failures result.door ≡ count_after (D.failures door) result.failed }
    ensures ended { result.failed ≡ false → result.starved ≡ false
        → ((result.accepted ≡ connections) × (D.nones result.door ≡ D.nones door))
        ⊎ ((D.nones result.door ≡ count_after (D.nones door) true)
        × NoneToCome (D.told result.door)) }
{
    let mut door = door;
    let mut tray = door.tray();
    for accepted in 0..connections {
        let turn = serve_next(gateway, net, &mut door, &mut tray, messages);
        if turn != Turn::Served {
            return gathered(door, tray, accepted + links_of(turn), turn);
        }
    }
    gathered(door, tray, connections, Turn::Served)
}

/// What serving came to, where so many links were accepted and this was the last turn: their links are gathered.
fn gathered<D: Listener>(door: D, tray: D::Tray, accepted: u64, turn: Turn) -> Gated<D>
    ensures told { D.told result.door ≡ gathers (D.Tray.told tray) (D.told door) }
    ensures failures { D.failures result.door ≡ D.failures door }
    ensures nones { D.nones result.door ≡ D.nones door }
    ensures accepted { result.accepted ≡ accepted }
    ensures failed { result.failed ≡ fails turn }
    ensures starved { result.starved ≡ starves turn }
{
    let mut door = door;
    door.gather(tray);
    Gated {
        door,
        accepted,
        failed: turn == Turn::Failed,
        starved: turn == Turn::Starved,
    }
}

/// The turn of a link that was served.
fn turn_of(starved: bool) -> Turn
    ensures serves { serves result ≡ 1 }
    ensures starves { starves result ≡ starved }
    ensures fails { fails result ≡ false }
    ensures runs_out { runs_out result ≡ false }
{
    if starved { Turn::Starved } else { Turn::Served }
}

/// How many links were served.
fn links_of(turn: Turn) -> u64
    ensures { result ≡ serves turn }
{
    match turn {
        Turn::Served => 1,
        Turn::Starved => 1,
        Turn::Over => 0,
        Turn::Failed => 0,
    }
}
