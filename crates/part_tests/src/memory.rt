//! Connections in memory, through the same functions.
ghost use Rattle.std.specs.Prelude.{◌≤◌, All, IfOk};
ghost use Rattle.ice_ports.specs.MemLinks.{IsPlan};

use crate::carrying::echo;
use ice_ports::{Asked, Failed, Listener, MemListener, MemNet, Net, Plan, Talk, Tray};
use ice_types::List;
use std::alloc::{AllocError, Global};
use std::test::Fail;

/// A plan of a link that gives this text by two bytes a read, and takes so many bytes.
fn plan(alloc: Global, refuse: bool, gives: &[u8], takes: u64) -> Result<Plan, AllocError>
    requires { takes ≤ 16777216 }
    ensures { IfOk result IsPlan }
{
    Ok(Plan {
        refuse,
        gives: List::from_vec(Vec::from_slice(alloc, gives)?),
        piece: 2,
        read_fails_at: None,
        takes,
    })
}

fn says(talk: Option<&Talk>, given: &[u8], taken: &[u8], ended: bool, failed: bool) -> bool {
    let Some(talk) = talk else {
        return false;
    };
    let bytes = (talk.given.as_slice() == given) & (talk.taken.as_slice() == taken);
    bytes & (talk.ended == ended) & (talk.failed == failed)
}

fn is_for(asked: Option<&Asked>, host: &[u8], port: u16) -> bool {
    let Some(asked) = asked else {
        return false;
    };
    asked.host.as_slice() == host && asked.port == port
}

/// Puts a plan behind those that are there.
fn add(plans: &mut List<Plan>, plan: Plan) -> Result<(), AllocError>
    requires plans { All IsPlan plans.old }
    requires plan { IsPlan plan }
    ensures { All IsPlan plans.new }
{
    plans.push(plan)
}

/// One outgoing link, a refused one, one incoming, and an accept that fails first.
fn planned(alloc: Global) -> Result<MemNet, AllocError> {
    let mut outgoing = List::new(alloc);
    add(&mut outgoing, plan(alloc, false, b"to", 0)?)?;
    add(&mut outgoing, plan(alloc, true, b"", 0)?)?;
    let mut incoming = List::new(alloc);
    add(&mut incoming, plan(alloc, false, b"abcde", 9)?)?;
    let mut fails = List::new(alloc);
    fails.push(0)?;
    MemNet::new(alloc, outgoing, incoming, fails, false)
}

/// Whether the first link fails while it echoes, and no other is given.
fn one_connects(net: &mut MemNet) -> Result<bool, Failed> {
    let mut asking = net.connect("first", 1)?;
    let echoed = echo(&mut asking);
    net.hang_up(asking);
    let others = net.connect("second", 2).is_err() & net.connect("third", 3).is_err();
    Ok((echoed == Err(Failed)) & others)
}

/// Whether the accept that follows the one that fails gives a link that echoes, and no other is given.
fn one_comes(listener: &mut MemListener) -> Result<bool, Failed> {
    let failed = listener.accept().is_err();
    let mut answering = listener.accept()?.ok_or(Failed)?;
    let echoed = echo(&mut answering);
    let ended = matches!(listener.accept(), Ok(None)) & (listener.nones() == 1);
    let mut tray = listener.tray();
    tray.take_back(answering);
    listener.gather(tray);
    Ok(failed & (echoed == Ok(3)) & ended)
}

/// Whether the one listener gives one link, and no other is given.
fn one_listens(net: &mut MemNet) -> Result<bool, Failed> {
    let mut listener = net.listen("here", 0)?;
    let port = listener.port();
    let came = one_comes(&mut listener);
    net.retire(listener);
    Ok((came == Ok(true)) & (port == 4100) & net.listen("there", 7).is_err())
}

/// Whether the net tells what went over its links.
fn tells(net: &MemNet) -> bool {
    let mut talks = net.talks().iter();
    let first = says(talks.next(), b"to", b"", false, true);
    let second = says(talks.next(), b"abcde", b"abcde", true, false);
    first & second & talks.next().is_none() & (net.failures() == 3) & (net.listen_failures() == 2)
}

/// Whether the net tells what was asked of it.
fn tells_what_was_asked(net: &MemNet) -> bool {
    let mut asked = net.asked().iter();
    let first = is_for(asked.next(), b"first", 1);
    let second = is_for(asked.next(), b"second", 2);
    first & second & asked.next().is_none() & is_for(net.listened(), b"here", 0)
}

#[test]
fn a_net_in_memory_tells_what_went_over_its_links(rt: HostRuntime) -> Result<(), Fail> {
    let mut net = planned(rt.alloc())?;
    let connected = one_connects(&mut net);
    let listened = one_listens(&mut net);
    assert!(rt; connected == Ok(true) && listened == Ok(true));
    assert!(rt; tells(&net) && tells_what_was_asked(&net));
    Ok(())
}
