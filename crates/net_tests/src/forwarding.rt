//! A request is answered by what the server said, and one that may have arrived is not sent again.

ghost use Rattle.std.specs.Prelude.{◌≡◌, IfOk};
ghost use Rattle.ice_types.specs.Object.{object_tables};

use crate::links::{Taking, plan, plans};
use ice_gateway::{Gated, Gateway, gate_all};
use ice_ports::{Failed, Listener, MemNet, Net};
use ice_proxy::parse_text;
use ice_types::{List, Proxy, Schema};
use locator_types::object_schema;
use slice_check::load;
use std::alloc::{AllocError, Global};
use std::test::Fail;
use test_outside::shelf;

const COUNTER: &str =
    "module T { interface Counter { int add(int n); idempotent int total(); }; };";

/// The request with id 9 of `add` of 2 on `c`: 38 bytes.
const ADD: &[u8] = b"IceP\x01\x00\x01\x00\x00\x00\x26\x00\x00\x00\x09\x00\x00\x00\
    \x01c\x00\x00\x03add\x00\x00\x0A\x00\x00\x00\x01\x01\x02\x00\x00\x00";

/// The same with id 1.
const SENT: &[u8] = b"IceP\x01\x00\x01\x00\x00\x00\x26\x00\x00\x00\x01\x00\x00\x00\
    \x01c\x00\x00\x03add\x00\x00\x0A\x00\x00\x00\x01\x01\x02\x00\x00\x00";

/// A validate message, and the reply with id 1 and the result 2.
const GIVEN: &[u8] = b"IceP\x01\x00\x01\x00\x03\x00\x0E\x00\x00\x00\
    IceP\x01\x00\x01\x00\x02\x00\x1D\x00\x00\x00\x01\x00\x00\x00\x00\x0A\x00\x00\x00\x01\x01\x02\x00\x00\x00";

/// A validate message, and the reply with id 9 and the result 2.
const ANSWERED: &[u8] = b"IceP\x01\x00\x01\x00\x03\x00\x0E\x00\x00\x00\
    IceP\x01\x00\x01\x00\x02\x00\x1D\x00\x00\x00\x09\x00\x00\x00\x00\x0A\x00\x00\x00\x01\x01\x02\x00\x00\x00";

/// A validate message, and the reply with id 9 that says that the server failed.
const FAILED: &[u8] = b"IceP\x01\x00\x01\x00\x03\x00\x0E\x00\x00\x00\
    IceP\x01\x00\x01\x00\x02\x00\x23\x00\x00\x00\x09\x00\x00\x00\x05\x0Fupstream failed";

/// How many bytes the links to the server take, whose reads fail behind the validate message or never; what the
/// last one took; and what the caller is given.
type Row = (&'static [Taking], &'static [u8], &'static [u8]);

const ROWS: &[Row] = &[
    (&[(38, None), (38, None)], SENT, ANSWERED),
    (&[(37, Some(14)), (38, Some(14))], SENT, FAILED),
];

/// A net with two links to the server, and one from a caller.
fn net_of(alloc: Global, links: &[Taking]) -> Result<MemNet, AllocError> {
    let plans = plans(alloc, GIVEN, links)?;
    let mut incoming = List::new(alloc);
    incoming.push(plan(alloc, ADD, 1000, None)?)?;
    MemNet::new(alloc, plans, incoming, List::new(alloc), false)
}

/// The schema of the text.
fn schema(alloc: Global) -> Result<Schema, Fail> {
    let mut files = shelf(alloc, &[("t.ice", COUNTER)], &[])?;
    Ok(load(alloc, &mut files, "t.ice").ok().ok_or(Failed)?)
}

fn objects(alloc: Global) -> Result<Schema, AllocError>
    ensures { IfOk result (λ schema. schema ≡ object_tables) }
{
    object_schema(alloc)
}

/// Serves the caller.
fn gate(gateway: &Gateway<'_>, net: &mut MemNet) -> Result<u64, Fail>
    requires { gateway.now.object.now ≡ object_tables }
{
    let door = net.listen("localhost", 4100)?;
    let Gated {
        door,
        accepted,
        failed: _,
        starved: _,
    } = gate_all(gateway, net, door, 1, 1_000_000);
    net.retire(door);
    Ok(accepted)
}

/// What the last link to the server took, and what the caller was given.
fn ends(net: &MemNet) -> (&[u8], &[u8]) {
    let mut sent: &[u8] = &[];
    let mut given: &[u8] = &[];
    for talk in net.talks() {
        sent = given;
        given = talk.taken.as_slice();
    }
    (sent, given)
}

/// Whether a row comes so.
fn comes(gateway: &Gateway<'_>, row: &Row) -> Result<bool, Fail>
    requires { gateway.now.object.now ≡ object_tables }
{
    let (links, sent, given) = row;
    let mut net = net_of(gateway.alloc, links)?;
    let accepted = gate(gateway, &mut net)?;
    let (last, answer) = ends(&net);
    Ok(accepted == 1 && last == *sent && answer == *given)
}

/// The first row that does not come so, by this schema.
fn other_row(alloc: Global, object: &Schema, schema: &Schema) -> Result<Option<usize>, Fail>
    requires { object.now ≡ object_tables }
{
    let upstream: Proxy = parse_text(alloc, "c:tcp -h localhost -p 4200")?;
    let gateway = Gateway {
        alloc,
        object,
        schema,
        interface: 0,
        upstream: &upstream,
        retries: 1,
    };
    for (at, row) in ROWS.iter().enumerate() {
        if !comes(&gateway, row)? {
            return Ok(Some(at));
        }
    }
    Ok(None)
}

/// The same, by the schema of the text.
fn other_row_of_text(alloc: Global, object: &Schema) -> Result<Option<usize>, Fail>
    requires { object.now ≡ object_tables }
{
    let schema = schema(alloc)?;
    other_row(alloc, object, &schema)
}

/// The same, with the operations that every object has.
fn first_other(alloc: Global) -> Result<Option<usize>, Fail> {
    let object = objects(alloc)?;
    other_row_of_text(alloc, &object)
}

#[test]
fn a_request_is_forwarded_once(rt: HostRuntime) -> Result<(), Fail> {
    assert_eq!(rt; first_other(rt.alloc())?, None);
    Ok(())
}
