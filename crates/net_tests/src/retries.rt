//! What is tried again where a connection took less than the whole message, or all of it, as no real one lets a peer
//! choose.

ghost use Rattle.std.specs.Prelude.{IfOk};
ghost use Rattle.ice_messages.specs.Written.{IsWritableCall};

use crate::links::{Taking, plans};
use ice_client::{Invoked, invoke, send};
use ice_messages::{Call, Message, WriteFault, read_message};
use ice_ports::MemNet;
use ice_proxy::parse_text;
use ice_types::{List, Proxy};
use retry_core::Attempt;
use retry_core::Attempt::{Lost, NotWhole, Replied, Sent};
use std::alloc::{AllocError, Global};
use std::test::Fail;

/// The request with id 0 of `put` with a text, which may not be tried again once it may have arrived: 36 bytes.
const PUT: &[u8] = b"IceP\x01\x00\x01\x00\x00\x00\x24\x00\x00\x00\x00\x00\x00\x00\
    \x01c\x00\x00\x03put\x00\x00\x08\x00\x00\x00\x01\x01\x01a";

/// The same with id 1.
const ASK: &[u8] = b"IceP\x01\x00\x01\x00\x00\x00\x24\x00\x00\x00\x01\x00\x00\x00\
    \x01c\x00\x00\x03put\x00\x00\x08\x00\x00\x00\x01\x01\x01a";

/// A validate message, and the reply with id 1 and no results.
const GIVEN: &[u8] = b"IceP\x01\x00\x01\x00\x03\x00\x0E\x00\x00\x00\
    IceP\x01\x00\x01\x00\x02\x00\x19\x00\x00\x00\x01\x00\x00\x00\x00\x06\x00\x00\x00\x01\x01";

/// The message; how many bytes each link takes, whose reads fail behind the validate message or never; and how the
/// attempts end.
type Row = (&'static [u8], &'static [Taking], &'static [Attempt]);

const ROWS: &[Row] = &[
    (PUT, &[(35, None), (36, Some(14))], &[NotWhole, Sent]),
    (PUT, &[(36, Some(14)), (36, None)], &[Sent]),
    (ASK, &[(35, None), (36, None)], &[NotWhole, Replied]),
    (ASK, &[(36, Some(14)), (36, None)], &[Lost]),
];

/// A net of two links.
fn net_of(alloc: Global, links: &[Taking]) -> Result<MemNet, AllocError> {
    let plans = plans(alloc, GIVEN, links)?;
    MemNet::new(alloc, plans, List::new(alloc), List::new(alloc), false)
}

/// The id and the call of a request.
fn call_of(alloc: Global, request: &[u8]) -> Result<(i32, Call), Fail>
    ensures { IfOk result (λ r. IsWritableCall r.1) }
{
    match read_message(alloc, request)? {
        Message::Request { id, call } => Ok((id, call)),
        _ => Err(Fail::new("no request")),
    }
}

/// Sends the call, or calls by it where the id asks for a reply.
fn tried(
    alloc: Global,
    net: &mut MemNet,
    proxy: &Proxy,
    id: i32,
    call: Call,
) -> Result<Invoked, WriteFault>
    requires { IsWritableCall call }
{
    if id == 0 {
        let message = Message::Request { id: 0, call };
        return send(alloc, net, proxy, &message, 1);
    }
    invoke(alloc, net, proxy, &call, 1)
}

/// The same, by the bytes of a request.
fn tried_of(
    alloc: Global,
    net: &mut MemNet,
    proxy: &Proxy,
    request: &[u8],
) -> Result<Invoked, Fail> {
    let (id, call) = call_of(alloc, request)?;
    Ok(tried(alloc, net, proxy, id, call)?)
}

/// Whether the attempts of the row end so.
fn comes(alloc: Global, proxy: &Proxy, row: &Row) -> Result<bool, Fail> {
    let (request, links, attempts) = row;
    let mut net = net_of(alloc, links)?;
    let invoked = tried_of(alloc, &mut net, proxy, request)?;
    Ok(invoked.attempts.as_slice() == *attempts)
}

#[test]
fn what_was_not_taken_whole_is_tried_again(rt: HostRuntime) -> Result<(), Fail> {
    let proxy = parse_text(rt.alloc(), "c:tcp -h localhost -p 4100")?;
    for (at, row) in ROWS.iter().enumerate() {
        assert!(rt; comes(rt.alloc(), &proxy, row)?, "in row {at}");
    }
    Ok(())
}
