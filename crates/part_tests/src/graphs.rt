ghost use Rattle.std.specs.Prelude.{◌≡◌, IfOk};
ghost use Rattle.ice_encoding.specs.Tree.{reference};
ghost use Rattle.ice_encoding.specs.Names.{listed_name};
ghost use Rattle.graph_arena.specs.Arena.{AreBelow, ContentFits};
ghost use Rattle.graph_arena.specs.Seen.{view_content};
ghost use Rattle.graph_arena.specs.View.{view};

use graph_arena::{Graph, Instance, Members, Slice, ThinList, Value, resolve_members};
use ice_types::List;
use std::alloc::AllocError;
use std::process::Abort;
use std::test::Fail;

/// Two references.
type Pair = (Option<u32>, Option<u32>);

/// The references of the roots and of each instance, and the order of first visits.
const VISITS: &[(Pair, &[Pair], &[u32])] = &[
    ((None, None), &[], &[]),
    ((None, None), &[(Some(0), None)], &[]),
    (
        (Some(1), None),
        &[(Some(1), None), (None, Some(0))],
        &[1, 0],
    ),
    (
        (Some(0), Some(3)),
        &[
            (Some(2), Some(1)),
            (Some(3), None),
            (Some(3), Some(2)),
            (None, Some(0)),
            (None, None),
        ],
        &[0, 2, 3, 1],
    ),
];

/// A reference, to one of so many instances.
fn within(rt: &impl Abort, name: Option<u32>, count: u32) -> Value
    ensures value { view result ≡ reference name }
    ensures below { AreBelow count (listed_name name) }
{
    if let Some(name) = name {
        assert!(rt; name < count);
    }
    Value::Reference(name)
}

fn pair_of(rt: &(impl AllocGlobal + Abort), pair: Pair, count: u32) -> Result<Members, AllocError>
    ensures { IfOk result (λ members. ContentFits count (view_content members)) }
{
    let alloc = rt.alloc();
    let both = [within(rt, pair.0, count), within(rt, pair.1, count)];
    Ok(Members {
        required: List::from_vec(Vec::from_array(alloc, both)?),
        optional: ThinList::new(),
    })
}

fn put(
    rt: &(impl AllocGlobal + Abort),
    graph: &mut Graph,
    at: u32,
    pair: Pair,
) -> Result<(), AllocError> {
    assert!(rt; at < graph.len());
    let members = pair_of(rt, pair, graph.len())?;
    let slices = [Slice::Known { class: 0, members }];
    let slices = List::from_vec(Vec::from_array(rt.alloc(), slices)?);
    graph.fill(at, Instance { slices });
    Ok(())
}

/// Reserves so many instances, which are without slices.
fn reserve(
    rt: &(impl AllocGlobal + Abort),
    graph: &mut Graph,
    count: u32,
) -> Result<(), AllocError> {
    for at in 0..count {
        assert!(rt; !graph.is_full());
        assert_eq!(rt; graph.reserve()?, at);
    }
    Ok(())
}

/// Whether the instances are visited in this order.
fn visits(graph: &Graph, order: &[u32]) -> Result<bool, AllocError> {
    Ok(graph.first_visit()?.as_slice() == order)
}

fn are_visited(
    rt: &(impl AllocGlobal + Abort),
    roots: Pair,
    instances: &[Pair],
    order: &[u32],
) -> Result<bool, AllocError> {
    let graph = graph_of(rt, roots, instances)?;
    visits(&graph, order)
}

#[test]
fn first_visits(rt: HostRuntime) -> Result<(), Fail> {
    for (at, (roots, instances, order)) in VISITS.iter().enumerate() {
        assert!(rt;
            are_visited(&rt, *roots, instances, order)?,
            "in graph {at}"
        );
    }
    Ok(())
}

/// Puts in the instances, and the roots.
fn fill(
    rt: &(impl AllocGlobal + Abort),
    graph: &mut Graph,
    roots: Pair,
    instances: &[Pair],
) -> Result<(), AllocError> {
    assert!(rt; instances.len() <= 10);
    reserve(rt, graph, instances.len() as u32)?;
    for (at, pair) in instances.iter().enumerate() {
        put(rt, graph, at as u32, *pair)?;
    }
    let roots = pair_of(rt, roots, graph.len())?;
    graph.set_roots(roots);
    Ok(())
}

fn graph_of(
    rt: &(impl AllocGlobal + Abort),
    roots: Pair,
    instances: &[Pair],
) -> Result<Graph, AllocError> {
    let mut graph = Graph::new(rt.alloc());
    fill(rt, &mut graph, roots, instances)?;
    Ok(graph)
}

/// Whether the members have these references.
fn has_pair(members: &Members, pair: Pair) -> bool {
    let both = [Value::Reference(pair.0), Value::Reference(pair.1)];
    members.required.as_slice() == both.as_slice() && members.optional.as_slice().is_empty()
}

/// Whether the instance has one slice, with these references.
fn is_pair(instance: &Instance, pair: Pair) -> bool {
    match instance.slices.as_slice() {
        [Slice::Known { class: 0, members }] => has_pair(members, pair),
        _ => false,
    }
}

/// Whether the graph has these roots and these instances.
fn is_graph(rt: &impl Abort, graph: &Graph, roots: Pair, instances: &[Pair]) -> bool {
    assert!(rt; instances.len() <= 10);
    for (at, pair) in instances.iter().enumerate() {
        if at as u32 >= graph.len() || !is_pair(graph.instance(at as u32), *pair) {
            return false;
        }
    }
    graph.len() as usize == instances.len() && has_pair(graph.roots(), roots)
}

/// Whether the graph has the others, once its instances are numbered by first visits.
fn is_anew(
    rt: &(impl AllocGlobal + Abort),
    graph: (Pair, &[Pair]),
    other: (Pair, &[Pair]),
) -> Result<bool, AllocError> {
    let graph = graph_of(rt, graph.0, graph.1)?.renumbered()?;
    Ok(is_graph(rt, &graph, other.0, other.1))
}

/// The roots do not lead to the instance 4.
#[test]
fn named_by_first_visits(rt: HostRuntime) -> Result<(), Fail> {
    let instances = [
        (Some(2), Some(1)),
        (Some(3), None),
        (Some(3), Some(2)),
        (None, Some(0)),
        (Some(4), Some(1)),
    ];
    let in_order = [
        (Some(1), Some(3)),
        (Some(2), Some(1)),
        (None, Some(0)),
        (Some(2), None),
    ];
    let graph = ((Some(0), Some(3)), instances.as_slice());
    let other = ((Some(0), Some(2)), in_order.as_slice());
    assert!(rt; is_anew(&rt, graph, other)?);
    Ok(())
}

const IN_THE_RING: u32 = 100_000;

/// Makes each instance name the next, and the last one the first; the roots name the one at 7.
fn close_ring(rt: &(impl AllocGlobal + Abort), graph: &mut Graph) -> Result<(), AllocError> {
    reserve(rt, graph, IN_THE_RING)?;
    for at in 0..IN_THE_RING {
        put(rt, graph, at, (Some((at + 1) % IN_THE_RING), None))?;
    }
    let roots = pair_of(rt, (Some(7), None), graph.len())?;
    graph.set_roots(roots);
    Ok(())
}

fn ring(rt: &(impl AllocGlobal + Abort)) -> Result<Graph, AllocError> {
    let mut graph = Graph::new(rt.alloc());
    close_ring(rt, &mut graph)?;
    Ok(graph)
}

/// How many instances are visited, the first of them and the last.
type Ends = (usize, Option<u32>, Option<u32>);

fn ends_of(graph: &Graph) -> Result<Ends, AllocError> {
    let places = graph.first_visit()?;
    let last = places.len().saturating_sub(1);
    Ok((
        places.len(),
        places.get(0).copied(),
        places.get(last).copied(),
    ))
}

/// The same of the ring.
fn ends_of_ring(rt: &(impl AllocGlobal + Abort)) -> Result<Ends, AllocError> {
    let graph = ring(rt)?;
    ends_of(&graph)
}

/// The same once its instances are numbered by first visits.
fn ends_anew(rt: &(impl AllocGlobal + Abort)) -> Result<Ends, AllocError> {
    let graph = ring(rt)?.renumbered()?;
    ends_of(&graph)
}

#[test]
fn a_long_ring(rt: HostRuntime) -> Result<(), Fail> {
    assert!(rt; ends_of_ring(&rt)? == (100_000, Some(7), Some(6)));
    assert!(rt; ends_anew(&rt)? == (100_000, Some(0), Some(99_999)));
    Ok(())
}

/// Whether a pair is the other one, once the names in it are those of a table.
fn is_by_table(
    rt: &(impl AllocGlobal + Abort),
    pair: Pair,
    table: &[u32],
    other: Pair,
) -> Result<bool, AllocError> {
    let mut members = pair_of(rt, pair, 2)?;
    resolve_members(&mut members, table);
    Ok(has_pair(&members, other))
}

#[test]
fn places_of_a_table(rt: HostRuntime) -> Result<(), Fail> {
    assert!(rt; is_by_table(&rt, (Some(1), None), &[7, 9], (Some(9), None))?);
    Ok(())
}
