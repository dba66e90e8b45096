//! What the objects are once a connection was served and the lanes are closed.

ghost use Rattle.std.specs.Prelude.{◌≡◌, All, IfOk};
ghost use Rattle.ice_ports.specs.MemLinks.{IsPlan};
ghost use Rattle.dispatch_pool.specs.Lanes.{AreOf};

use dispatch_pool::{End, LanePasses, Lanes, OpenGate, serve_connection};
use ice_messages::{Answer, Call};
use ice_ports::{Failed, MemNet, Net, Plan};
use ice_types::{Identity, List, Name, Schema};
use object_adapter::{Adapter, Servant};
use slice_check::load;
use std::alloc::{AllocError, Global};
use std::sync::{Arc, Wait};
use std::test::Fail;
use test_outside::shelf;

pub(crate) const COUNTER: &str =
    "module T { interface Counter { int add(int n); idempotent int total(); }; };";

/// An identity without a category.
pub(crate) fn identity(alloc: Global, name: &str) -> Result<Identity, AllocError> {
    Ok(Identity {
        name: Name::of(alloc, name)?,
        category: Name::of(alloc, "")?,
    })
}

/// The types of a text.
fn types_of(alloc: Global, text: &str) -> Result<Schema, Fail> {
    let mut files = shelf(alloc, &[("t.ice", text)], &[])?;
    Ok(load(alloc, &mut files, "t.ice").ok().ok_or(Failed)?)
}

/// Puts a store of the one interface under this name and the default facet.
fn add_store(
    alloc: Global,
    objects: &mut Adapter,
    types: &Arc<Schema>,
    name: &str,
) -> Result<(), Fail> {
    let identity = identity(alloc, name)?;
    let facet = Name::of(alloc, "")?;
    let store = Servant::store(alloc, types.clone()?, 0)?;
    match objects.add(identity, facet, store) {
        Ok(()) => Ok(()),
        Err(_) => Err(Fail::from("no room")),
    }
}

/// Puts one under each of these names.
fn add_stores(
    alloc: Global,
    objects: &mut Adapter,
    types: &Arc<Schema>,
    names: &[&str],
) -> Result<(), Fail> {
    for name in names {
        add_store(alloc, objects, types, name)?;
    }
    Ok(())
}

/// Stores of the one interface of a text, under these names and the default facet.
pub(crate) fn stores(alloc: Global, text: &str, names: &[&str]) -> Result<Adapter, Fail> {
    let types = Arc::new(alloc, types_of(alloc, text)?)?;
    let mut objects = Adapter::new(alloc);
    add_stores(alloc, &mut objects, &types, names)?;
    Ok(objects)
}

/// The bytes of a text in hexadecimal.
pub(crate) fn decoded(alloc: Global, text: &str) -> Result<Vec<u8>, Fail> {
    match hex::decode(alloc, text.as_bytes()) {
        Ok(bytes) => Ok(bytes),
        Err(_) => Err(Fail::from("no hexadecimal text")),
    }
}

/// A link that gives these bytes, three a read.
pub(crate) fn plan(alloc: Global, gives: &str) -> Result<Plan, Fail>
    ensures { IfOk result IsPlan }
{
    Ok(Plan {
        refuse: false,
        gives: List::from_vec(decoded(alloc, gives)?),
        piece: 3,
        read_fails_at: None,
        takes: 1000,
    })
}

/// A net with one link, which gives these bytes.
fn net_of(alloc: Global, gives: &str) -> Result<MemNet, Fail> {
    let mut plans = List::new(alloc);
    plans.push(plan(alloc, gives)?)?;
    Ok(MemNet::new(alloc, plans, List::new(alloc), List::new(alloc), false)?)
}

/// How the connection of this net ends.
fn serve<R: Wait>(
    rt: &R,
    alloc: Global,
    lanes: &Lanes,
    passes: &mut LanePasses,
    net: &mut MemNet,
) -> Result<End, Failed>
    requires { AreOf lanes.now passes.old }
    ensures { AreOf lanes.now passes.new }
{
    let mut link = net.connect("localhost", 4100)?;
    let end = serve_connection(rt, alloc, lanes, passes, &OpenGate, &mut link, 1_000_000);
    net.hang_up(link);
    match end {
        Ok(end) => Ok(end),
        Err(_) => Err(Failed),
    }
}

/// A call of an operation with arguments in this encapsulation.
fn call(
    alloc: Global,
    name: &str,
    operation: &str,
    mode: u8,
    arguments: &str,
) -> Result<Call, Fail> {
    Ok(Call {
        identity: identity(alloc, name)?,
        facet: Name::of(alloc, "")?,
        operation: Name::of(alloc, operation)?,
        mode,
        context: List::new(alloc),
        body: List::from_vec(decoded(alloc, arguments)?),
    })
}

/// Whether the answer is a success with these results.
fn has_results(answer: &Answer, due: &[u8]) -> bool {
    match answer {
        Answer::Done(results) => results.as_slice() == due,
        _ => false,
    }
}

/// Has the object answer.
fn asked(alloc: Global, objects: &mut Adapter, call: &Call) -> Result<Answer, AllocError> {
    objects.answer(alloc, call)
}

/// An operation of a counter, its mode, the encapsulations of its arguments and of its results.
type Row = (&'static str, u8, &'static str, &'static str);

const ROWS: &[Row] = &[
    ("add", 0, "0a000000010102000000", "0a000000010102000000"),
    ("add", 0, "0a000000010103000000", "0a000000010105000000"),
    ("total", 2, "060000000101", "0a000000010105000000"),
];

/// Whether the object `c` answers the row so.
fn answers(alloc: Global, objects: &mut Adapter, row: &Row) -> Result<bool, Fail> {
    let (operation, mode, arguments, results) = row;
    let results = decoded(alloc, results)?;
    let call = call(alloc, "c", operation, *mode, arguments)?;
    let answer = asked(alloc, objects, &call)?;
    Ok(has_results(&answer, results.as_slice()))
}

/// Whether it answers each row so.
fn answer_all(alloc: Global, objects: &mut Adapter, rows: &[Row]) -> Result<bool, Fail> {
    for row in rows {
        if !answers(alloc, objects, row)? {
            return Ok(false);
        }
    }
    Ok(true)
}

/// The same of a store that is new.
fn a_store_answers(alloc: Global, rows: &[Row]) -> Result<bool, Fail> {
    let mut objects = stores(alloc, COUNTER, &["c"])?;
    answer_all(alloc, &mut objects, rows)
}

#[test]
fn a_store_adds_up(rt: HostRuntime) -> Result<(), Fail> {
    assert!(rt; a_store_answers(rt.alloc(), ROWS)?);
    Ok(())
}

/// Lanes of the objects, and the first passes.
pub(crate) fn lanes_of(alloc: Global, objects: Adapter) -> Result<(Lanes, LanePasses), AllocError>
    ensures { IfOk result (λ made. AreOf made.0 made.1) }
{
    Lanes::new(alloc, objects)
}

/// A ping of `c`.
const PING: &str = "49636550010001000000270000000100000001630000086963655f70696e670100060000000101";

/// A total of nothing.
const ZERO: Row = ("total", 2, "060000000101", "0a000000010100000000");

/// The objects once the connection of the net has been served and the lanes are closed.
fn left<R: Wait>(
    rt: &R,
    alloc: Global,
    objects: Adapter,
    net: &mut MemNet,
) -> Result<Adapter, Fail> {
    let (lanes, mut passes) = lanes_of(alloc, objects)?;
    let served = serve(rt, alloc, &lanes, &mut passes, net).is_ok();
    let closed = lanes.close(alloc, passes).ok().ok_or(Failed)?;
    if served {
        Ok(closed)
    } else {
        Err(Fail::from("the link failed, or no memory"))
    }
}

/// Whether the connection is served, and a store answers each row so behind it.
fn a_served_store_answers<R: Wait>(
    rt: &R,
    alloc: Global,
    gives: &str,
    rows: &[Row],
) -> Result<bool, Fail> {
    let mut net = net_of(alloc, gives)?;
    let mut objects = left(rt, alloc, stores(alloc, COUNTER, &["c"])?, &mut net)?;
    answer_all(alloc, &mut objects, rows)
}

/// A ping leaves a store as it was.
#[test]
fn lanes_close_with_the_objects_as_calls_left_them(rt: HostRuntime) -> Result<(), Fail> {
    assert!(rt; a_served_store_answers(&rt, rt.alloc(), PING, &[ZERO])?);
    Ok(())
}
