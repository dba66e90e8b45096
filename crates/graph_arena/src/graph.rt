//! Graphs of class instances, each named by its place.

ghost use Rattle.std.specs.Prelude.{◌≡◌, ◌≢◌, ◌<◌, ◌↔◌, IsTrue, IfOk, OnOk, OnErr, length, map};
ghost use Rattle.ice_encoding.specs.Names.{instance_names, names_of};
ghost use Rattle.ice_encoding.specs.Instances.{slices_of};
ghost use Rattle.ice_encoding.specs.Visiting.{most};
ghost use Rattle.graph_arena.specs.Seen.{view_content, view_instance};
ghost use Rattle.graph_arena.specs.Arena.{AreBelow, ContentFits, InstanceFits, IsSound, no_graph, with_filled};
ghost use Rattle.graph_arena.specs.Arena.{with_reserved, with_roots};

use crate::instance::{Instance, Members};
use crate::names::{push_members, push_slices};
use crate::thin_list::ThinList;
use ice_types::List;
use std::alloc::{AllocError, Global};
use std::marker::Model;

/// How many instances a graph has at most.
pub const MOST_PLACES: u32 = 100_000_000;

/// Members, which are the roots, and instances, each named by its place. Every name in it is the place
/// of an instance, and every dictionary stands in rising key order.
pub struct Graph {
    roots: Members,
    instances: Vec<Instance>,
}

impl Drop for Graph {
    fn drop(self) {
        let Graph { roots, instances } = self;
        drop(roots);
        drop(instances);
    }
}

impl Model for Graph {
    ghost use Rattle.std.specs.Prelude.{map};
    ghost use Rattle.ice_encoding.specs.Graph as graphs;
    ghost use Rattle.graph_arena.specs.Seen.{view_content, view_instance};
    ghost use Rattle.graph_arena.specs.Stored.{graph_code};
    ghost use Rattle.graph_arena.specs.Arena.{IsSound};

    ghost Value = { graphs.Graph };

    ghost coded = { graph_code };

    ghost view = { λ g. record { roots = view_content g.roots; instances = map view_instance g.instances.items } };

    ghost invariant = { λ g. IsSound
        (record { roots = view_content g.roots; instances = map view_instance g.instances.items }) };
}

impl Graph {
    /// A graph without instances and without members.
    pub fn new(alloc: Global) -> Graph
        ensures { result ≡ no_graph }
    {
        Graph {
            roots: Members {
                required: List::new(alloc),
                optional: ThinList::new(),
            },
            instances: Vec::new(alloc),
        }
    }

    /// The graph of these members and instances.
    pub fn of(roots: Members, instances: Vec<Instance>) -> Graph
        requires { IsSound (record { roots = view_content roots; instances = map view_instance instances.items }) }
        ensures { result ≡ record { roots = view_content roots; instances = map view_instance instances.items } }
    {
        Graph { roots, instances }
    }

    /// The members and the instances.
    pub(crate) fn into_parts(self) -> (Members, Vec<Instance>)
        ensures roots { view_content result.0 ≡ self.roots }
        ensures instances { map view_instance result.1.items ≡ self.instances }
    {
        let Graph { roots, instances } = self;
        (roots, instances)
    }

    /// How many instances there are.
    pub fn len(&self) -> u32
        ensures len { result ≡ length self.now.instances }
        ensures sound { IsSound self.now }
    {
        self.instances.len() as u32
    }

    /// Whether no further instance can be added.
    pub fn is_full(&self) -> bool
        ensures { IsTrue result ↔ (length self.now.instances ≡ most) }
    {
        self.len() == MOST_PLACES
    }

    /// Adds an instance without slices, and answers its place. Out of memory leaves the graph as it was.
    pub fn reserve(&mut self) -> Result<u32, AllocError>
        requires { length self.old.instances ≢ most }
        ensures place { IfOk result (λ at. at ≡ length self.old.instances) }
        ensures ok { OnOk result (self.new ≡ with_reserved self.old) }
        ensures err { OnErr result (self.new ≡ self.old) }
    {
        let at = self.instances.len() as u32;
        let slices = List::new(self.alloc());
        self.instances.push(Instance { slices })?;
        Ok(at)
    }

    /// Puts an instance at its place.
    pub fn fill(&mut self, at: u32, instance: Instance)
        requires place { at < length self.old.instances }
        requires fits { InstanceFits (length self.old.instances) (view_instance instance) }
        ensures { self.new ≡ with_filled at (view_instance instance) self.old }
    {
        self.instances[at as usize] = instance;
    }

    /// Puts other members in the place of the roots.
    pub fn set_roots(&mut self, roots: Members)
        requires { ContentFits (length self.old.instances) (view_content roots) }
        ensures { self.new ≡ with_roots (view_content roots) self.old }
    {
        self.roots = roots;
    }

    /// The roots.
    pub fn roots(&self) -> &Members
        ensures roots { view_content result.now ≡ self.now.roots }
        ensures fits { ContentFits (length self.now.instances) self.now.roots }
    {
        &self.roots
    }

    /// The instance at a place.
    pub fn instance(&self, at: u32) -> &Instance
        requires { at < length self.now.instances }
        ensures instance { view_instance result.now ≡ slices_of self.now.instances at }
        ensures fits { InstanceFits (length self.now.instances) (slices_of self.now.instances at) }
    {
        &self.instances[at as usize]
    }

    /// Where the graph lies in memory.
    pub(crate) fn alloc(&self) -> Global {
        *self.instances.allocator()
    }

    /// The instances that the roots name, in order of occurrence.
    pub(crate) fn root_refs(&self) -> Result<List<u32>, AllocError>
        ensures names { IfOk result (λ names. names ≡ names_of self.now.roots) }
        ensures in_range { IfOk result (AreBelow (length self.now.instances)) }
    {
        let mut names = List::new(self.alloc());
        push_members(&mut names, self.roots())?;
        Ok(names)
    }

    /// The instances that an instance names, slice by slice in order of occurrence.
    pub fn refs(&self, at: u32) -> Result<List<u32>, AllocError>
        requires { at < length self.now.instances }
        ensures names { IfOk result (λ names. names ≡ instance_names (slices_of self.now.instances at)) }
        ensures in_range { IfOk result (AreBelow (length self.now.instances)) }
    {
        let mut names = List::new(self.alloc());
        push_slices(&mut names, self.instance(at).slices.as_slice())?;
        Ok(names)
    }
}
