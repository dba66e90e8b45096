//! Connections of the system over the loopback.
use crate::carrying::{echo, gives, write_whole};
use ice_ports::{
    Failed, Link, Listener, MOST_OF_A_READ, Net, TcpLink, TcpListener, TcpNet, Tray, write_link,
};
use std::test::Fail;
use std::thread::{self, Threads};

const HERE: &str = "127.0.0.1";

/// Whether one of a million writes fails.
fn fails_at_last<L: Link>(link: &mut L) -> bool {
    for _ in 0..1_000_000 {
        if write_link(link, b"x").is_err() {
            return true;
        }
    }
    false
}

/// Whether a piece comes over the one end, another one back over the other, and then the end.
fn carries(asking: &mut TcpLink, answering: &mut TcpLink) -> Result<bool, Failed> {
    write_whole(asking, b"asked")?;
    let asked = gives(answering, b"asked")?;
    write_whole(answering, b"answered")?;
    let answered = gives(asking, b"answered")?;
    asking.shut();
    Ok(asked & answered & (echo(answering) == Ok(0)))
}

/// The other end of a link to the port where it listens.
fn accepted(listener: &mut TcpListener) -> Result<TcpLink, Failed> {
    listener.accept()?.ok_or(Failed)
}

/// Whether a link carries pieces, and writes to a peer that is gone are a failure.
fn meets(net: &mut TcpNet<HostRuntime>, listener: &mut TcpListener) -> Result<bool, Failed> {
    let mut asking = net.connect("localhost", listener.port())?;
    let mut answering = accepted(listener)?;
    let carried = carries(&mut asking, &mut answering);
    net.hang_up(asking);
    let well = net.failures() == 0;
    let failed = fails_at_last(&mut answering) & (answering.writes_failed() == 1);
    net.hang_up(answering);
    Ok((carried == Ok(true)) & well & failed & (net.failures() == 1))
}

#[test]
fn a_piece_comes_back_and_a_peer_that_is_gone_is_a_failure(rt: HostRuntime) -> Result<(), Fail> {
    let mut net = TcpNet::new(rt);
    let mut listener = net.listen(HERE, 0)?;
    let met = meets(&mut net, &mut listener);
    net.retire(listener);
    assert!(rt; met == Ok(true));
    Ok(())
}

/// Whether no other listens where this one does, which gives links.
fn is_taken(net: &mut TcpNet<HostRuntime>, listener: &mut TcpListener) -> Result<bool, Failed> {
    let port = listener.port();
    let refused = net.listen(HERE, port).is_err() & (net.listen_failures() == 1);
    let asking = net.connect(HERE, port)?;
    let answering = accepted(listener)?;
    let mut tray = listener.tray();
    tray.take_back(answering);
    listener.gather(tray);
    net.hang_up(asking);
    Ok(refused)
}

/// Whether one can listen there.
fn is_free(net: &mut TcpNet<HostRuntime>, port: u16) -> Result<bool, Failed> {
    let listener = net.listen(HERE, port)?;
    let there = listener.port() == port;
    net.retire(listener);
    Ok(there)
}

#[test]
fn a_place_is_taken_while_one_listens_there_and_free_at_once_behind(
    rt: HostRuntime,
) -> Result<(), Fail> {
    let mut net = TcpNet::new(rt);
    let mut listener = net.listen(HERE, 0)?;
    let port = listener.port();
    let taken = is_taken(&mut net, &mut listener);
    net.retire(listener);
    assert!(rt; port > 0 && taken == Ok(true));
    assert!(rt; net.connect(HERE, port).is_err() && net.failures() == 1);
    assert!(rt; is_free(&mut net, port) == Ok(true) && net.listen_failures() == 1);
    Ok(())
}

/// How many connections are open at once, and how many pieces of 4,096 bytes go over each: 100 MiB in
/// each direction in all.
const CONNECTIONS: usize = 64;

const PIECES: usize = 400;

/// Carries all pieces over one end of a connection, and answers whether all came back equal. The first
/// ends write pieces that differ from one another, and read each back; the others write back what they
/// read.
fn carry(link: &mut TcpLink, number: usize) -> Result<bool, Failed> {
    if number >= CONNECTIONS {
        echo(link)?;
        return Ok(true);
    }
    let mut piece = [number as u8; MOST_OF_A_READ];
    for turn in 0..PIECES {
        piece[turn] = (turn % 256) as u8;
        write_whole(link, &piece)?;
        if !gives(link, &piece)? {
            return Ok(false);
        }
    }
    Ok(true)
}

/// Puts in the first ends, and then the others, and says whether all are there.
fn connect(
    net: &mut TcpNet<HostRuntime>,
    listener: &mut TcpListener,
    ends: &mut Vec<(TcpLink, bool)>,
) -> bool {
    for _ in 0..CONNECTIONS {
        let Ok(link) = net.connect(HERE, listener.port()) else {
            return false;
        };
        if ends.push((link, false)).is_err() {
            return false;
        }
    }
    for _ in 0..CONNECTIONS {
        let Ok(link) = accepted(listener) else {
            return false;
        };
        if ends.push((link, false)).is_err() {
            return false;
        }
    }
    true
}

/// Whether all ends, each in a thread of its own, carry all pieces.
fn all_carry<R: Threads + Sync>(rt: &R, ends: &mut [(TcpLink, bool)]) -> bool {
    let run = |number: usize, end: &mut (TcpLink, bool)| {
        end.1 = carry(&mut end.0, number) == Ok(true);
        end.0.shut();
    };
    thread::for_each_mut(rt, ends, 2 * CONNECTIONS, &run);
    ends.iter().all(|end| end.1)
}

#[test]
fn sixty_four_connections_at_once_carry_all_bytes(rt: HostRuntime) -> Result<(), Fail> {
    let mut net = TcpNet::new(rt);
    let mut listener = net.listen(HERE, 0)?;
    let mut ends = Vec::new(rt.alloc());
    let connected = connect(&mut net, &mut listener, &mut ends);
    let carried = all_carry(&rt, ends.as_mut_slice());
    net.retire(listener);
    assert!(rt; connected && carried);
    Ok(())
}
