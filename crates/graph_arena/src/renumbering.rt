//! Graphs whose instances are named by their first visits.

ghost use Rattle.std.specs.Prelude.{◌≡◌, ◌≤◌, IfOk, length, map};
ghost use Rattle.ice_encoding.specs.Instances.{slices_of};
ghost use Rattle.ice_encoding.specs.Names.{renamed_slice};
ghost use Rattle.ice_encoding.specs.References.{entry_in};
ghost use Rattle.ice_encoding.specs.SameGraph.{HasEachOnce, form};
ghost use Rattle.ice_encoding.specs.Visiting.{order};
ghost use Rattle.graph_arena.specs.Arena.{AreBelow, IsSound};
ghost use Rattle.graph_arena.specs.Renumbering.{IsIndex};
ghost use Rattle.graph_arena.specs.Seen.{view_instance, view_slice, view_slices};

use crate::graph::Graph;
use crate::instance::{Instance, Slice};
use crate::resolving::{resolve_members, resolve_names};
use ice_types::List;
use std::alloc::{AllocError, Global};
use std::mem;

impl Graph {
    /// The instances that the roots lead to, in the order in which they are named first, each named by
    /// its place in that order; the others are left out. What they hold is moved, and not copied, and a graph
    /// without instances is not gone through. (Ice manual, "Data Encoding for Class and Exception Types".)
    pub fn renumbered(self) -> Result<Graph, AllocError>
        ensures { IfOk result (λ graph. graph ≡ form self) }
    {
        if self.len() == 0 {
            return Ok(self);
        }
        match self.visited() {
            Ok((visits, index)) => self.by_visits(visits.as_slice(), index.as_slice()),
            Err(error) => {
                drop(self);
                Err(error)
            }
        }
    }

    /// The first visits, and for each name its place among them.
    fn visited(&self) -> Result<(List<u32>, Vec<u32>), AllocError>
        ensures sound { IsSound self.now }
        ensures visits { IfOk result (λ found. found.0 ≡ order self.now) }
        ensures index { IfOk result (λ found. IsIndex (length self.now.instances) (order self.now) found.1.items) }
    {
        let count = self.len();
        let visits = self.first_visit()?;
        let index = index_of(self.alloc(), count, visits.as_slice())?;
        Ok((visits, index))
    }

    /// The instances of these first visits in their order, each named by its place in the table.
    fn by_visits(self, visits: &[u32], index: &[u32]) -> Result<Graph, AllocError>
        requires sound { IsSound self }
        requires visits { visits.now ≡ order self }
        requires index { IsIndex (length self.instances) (order self) index.now }
        ensures { IfOk result (λ graph. graph ≡ form self) }
    {
        let alloc = self.alloc();
        let (mut roots, instances) = self.into_parts();
        resolve_members(&mut roots, index);
        match in_order(alloc, instances, visits, index) {
            Ok(taken) => Ok(Graph::of(roots, taken)),
            Err(error) => {
                drop(roots);
                Err(error)
            }
        }
    }
}

/// For each of so many names its place in the list; for a name that is not in the list, the list's length.
/// Out of memory leaves nothing.
pub fn index_of(alloc: Global, count: u32, names: &[u32]) -> Result<Vec<u32>, AllocError>
    requires few { length names.now ≤ count }
    requires in_range { AreBelow count names.now }
    ensures { IfOk result (λ index. IsIndex count names.now index.items) }
{
    let mut index = vec![in alloc; names.len() as u32; count as usize]?;
    let mut at = names.len();
    while at > 0 {
        at -= 1;
        index[names[at] as usize] = at as u32;
    }
    Ok(index)
}

/// The instances of these names, with each name in them replaced by what the table has for it.
fn in_order(
    alloc: Global,
    mut instances: Vec<Instance>,
    names: &[u32],
    table: &[u32],
) -> Result<Vec<Instance>, AllocError>
    requires once { HasEachOnce names.now }
    requires in_range { AreBelow (length instances.items) names.now }
    ensures { IfOk result (λ taken. map view_instance taken.items
        ≡ map (λ n. map (renamed_slice (entry_in table.now))
        (slices_of (map view_instance instances.items) n)) names.now) }
{
    let mut taken = Vec::with_capacity(alloc, names.len())?;
    for name in names {
        let mut slices = mem::replace(&mut instances[*name as usize].slices, List::new(alloc));
        resolve_slices(slices.as_mut_slice(), table);
        taken.push(Instance { slices })?;
    }
    Ok(taken)
}

/// Puts for each name in the slices what the table has for it; a name past its end becomes 0.
pub fn resolve_slices(slices: &mut [Slice], table: &[u32])
    ensures { view_slices slices.new ≡ map (renamed_slice (entry_in table.now)) (view_slices slices.old) }
{
    for slice in slices.iter_mut() {
        resolve_slice(slice, table);
    }
}

fn resolve_slice(slice: &mut Slice, table: &[u32])
    ensures { view_slice slice.new ≡ renamed_slice (entry_in table.now) (view_slice slice.old) }
{
    match slice {
        Slice::Known { members, .. } => resolve_members(members, table),
        Slice::Unknown(kept) => resolve_names(kept.table.as_mut_slice(), table),
    }
}
