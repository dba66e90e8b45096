//! The graph that is drawn from a number.

ghost use Rattle.std.specs.Prelude.{◌≡◌, ◌<◌, ◌≤◌, ◌+◌, ◌*◌, [], Some, pos, map, IfOk, OnOk};
ghost use Rattle.std.specs.List.{range_with_len};
ghost use Rattle.ice_encoding.specs.Tree.{int, none, reference, tree};
ghost use Rattle.ice_encoding.specs.OptionalMembers.{with_optional};
ghost use Rattle.graph_arena.specs.Seen.{view_content, view_instance};
ghost use Rattle.graph_arena.specs.View.{view};
ghost use Rattle.ice_relay.specs.declared.drilling.TheConstants.{MOST_NODES};
ghost use Rattle.ice_relay.specs.Drawn.{after, draw, drawn, node, target};

use crate::drilling::MOST_NODES;
use crate::generator::Generator;
use graph_arena::{Graph, Instance, Members, Slice, ThinList, Value};
use ice_types::List;
use std::alloc::{AllocError, Global};

/// The graph of so many nodes that is drawn from the number.
pub(crate) fn drawn(alloc: Global, start: u32, count: u32) -> Result<Graph, AllocError>
    requires some { 0 < count }
    requires few { count ≤ MOST_NODES }
    ensures { IfOk result (λ graph. graph ≡ drawn start count) }
{
    let roots = roots(alloc)?;
    let nodes = nodes(alloc, start, count)?;
    Ok(Graph::of(roots, nodes))
}

/// The reference to the first node, as the only root.
fn roots(alloc: Global) -> Result<Members, AllocError>
    ensures { IfOk result (λ roots. view_content roots ≡ with_optional (tree (reference (Some 0)) none) []) }
{
    let mut required = List::new(alloc);
    required.push(first())?;
    Ok(Members {
        required,
        optional: ThinList::new(),
    })
}

/// The reference to the first node.
fn first() -> Value
    ensures { view result ≡ reference (Some 0) }
{
    Value::Reference(Some(0))
}

/// So many nodes, one after the other.
fn nodes(alloc: Global, start: u32, count: u32) -> Result<Vec<Instance>, AllocError>
    requires few { count ≤ MOST_NODES }
    ensures { IfOk result (λ nodes. map view_instance nodes.items
        ≡ map (λ at. node count (after start (6 * at))) (range_with_len 0 count)) }
{
    let mut generator = Generator { number: start };
    let mut nodes = Vec::with_capacity(alloc, count as usize)?;
    for _ in 0..count {
        nodes.push(node(alloc, &mut generator, count)?)?;
    }
    Ok(nodes)
}

/// A node of so many, by six steps.
fn node(alloc: Global, generator: &mut Generator, count: u32) -> Result<Instance, AllocError>
    requires few { count ≤ MOST_NODES }
    ensures node { IfOk result (λ instance. view_instance instance ≡ node count generator.old.number) }
    ensures number { OnOk result (generator.new.number ≡ after generator.old.number 6) }
{
    let v = value(generator);
    let left = reference(generator, count);
    let right = reference(generator, count);
    let mut required = List::new(alloc);
    required.push(v)?;
    required.push(left)?;
    required.push(right)?;
    let members = Members {
        required,
        optional: ThinList::new(),
    };
    let mut slices = List::new(alloc);
    slices.push(Slice::Known { class: 0, members })?;
    Ok(Instance { slices })
}

/// A number below a thousand, by two steps.
fn value(generator: &mut Generator) -> Value
    ensures value { view result ≡ int (pos (draw generator.old.number 1000)) }
    ensures number { generator.new.number ≡ after generator.old.number 2 }
{
    Value::Int(generator.draw(1_000) as i32)
}

/// A reference to one of so many nodes, or to none, by two steps.
fn reference(generator: &mut Generator, count: u32) -> Value
    requires few { count ≤ MOST_NODES }
    ensures value { view result ≡ reference (target count (draw generator.old.number (count + 1))) }
    ensures number { generator.new.number ≡ after generator.old.number 2 }
{
    let name = generator.draw(count + 1);
    if name < count {
        Value::Reference(Some(name))
    } else {
        Value::Reference(None)
    }
}
