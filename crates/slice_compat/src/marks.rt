//! What has been met on the way to the classes that a type reaches.

ghost use Rattle.std.specs.Prelude.{◌≡◌, false, OnOk, IfOk, replicate};
ghost use Rattle.slice_compat.specs.Marks.{NothingMet, Sets, Spreads, is_done, is_set};
ghost use Rattle.slice_compat.specs.Nodes.{AmongMembers, IsNodeOf};

use crate::node::Node;
use ice_types::{Member, Schema, TypeRef};
use std::alloc::{AllocError, Global};

/// A flag for each row that can be met, and those that are still to be gone through.
#[derive(Drop)]
pub(crate) struct Marks {
    pub seqs: Vec<bool>,
    pub dicts: Vec<bool>,
    pub structs: Vec<bool>,
    pub places: Vec<bool>,
    pub anywhere: bool,
    pub classes: Vec<bool>,
    pub pending: Vec<Node>,
}

impl Marks {
    /// Nothing is met yet.
    pub fn new(alloc: Global, schema: &Schema) -> Result<Marks, AllocError>
        ensures { IfOk result (NothingMet schema.now) }
    {
        Ok(Marks {
            seqs: flags(alloc, schema.seqs().len())?,
            dicts: flags(alloc, schema.dicts().len())?,
            structs: flags(alloc, schema.structs().len())?,
            places: flags(alloc, schema.classes().len())?,
            anywhere: false,
            classes: flags(alloc, schema.classes().len())?,
            pending: Vec::new(alloc),
        })
    }

    /// Meets a node, which is then to be gone through, unless it was met before.
    pub fn meet(&mut self, node: Node) -> Result<(), AllocError>
        ensures { OnOk result (Spreads (λ n. n ≡ node) self.old self.new) }
    {
        if self.is_done(node) {
            return Ok(());
        }
        self.set(node);
        self.pending.push(node)?;
        Ok(())
    }

    /// Meets what a type leads to.
    pub fn meet_kind(&mut self, kind: TypeRef) -> Result<(), AllocError>
        ensures { OnOk result (Spreads (IsNodeOf kind) self.old self.new) }
    {
        match Node::of(kind) {
            Some(node) => self.meet(node),
            None => Ok(()),
        }
    }

    /// Meets what the types of the members lead to.
    pub fn meet_members(&mut self, members: &[Member]) -> Result<(), AllocError>
        ensures { OnOk result (Spreads (AmongMembers members.now) self.old self.new) }
    {
        for member in members {
            self.meet_kind(member.kind)?;
        }
        Ok(())
    }

    /// Whether the node was met. One of which there is no row counts as met.
    fn is_done(&self, node: Node) -> bool
        ensures { result ≡ is_done self.now node }
    {
        match node {
            Node::Seq(at) => is_set(self.seqs.as_slice(), at),
            Node::Dict(at) => is_set(self.dicts.as_slice(), at),
            Node::Struct(at) => is_set(self.structs.as_slice(), at),
            Node::Place(at) => is_set(self.places.as_slice(), at),
            Node::Anywhere => self.anywhere,
            Node::Class(at) => is_set(self.classes.as_slice(), at),
        }
    }

    /// Sets the flag of a node.
    fn set(&mut self, node: Node)
        requires { is_done self.old node ≡ false }
        ensures { Sets node self.old self.new }
    {
        match node {
            Node::Seq(at) => self.seqs[at as usize] = true,
            Node::Dict(at) => self.dicts[at as usize] = true,
            Node::Struct(at) => self.structs[at as usize] = true,
            Node::Place(at) => self.places[at as usize] = true,
            Node::Anywhere => self.anywhere = true,
            Node::Class(at) => self.classes[at as usize] = true,
        }
    }
}

/// The flag at a place, which is set behind the end.
fn is_set(flags: &[bool], at: u32) -> bool
    ensures { result ≡ is_set flags.now at }
{
    flags.get(at as usize).copied().unwrap_or(true)
}

/// So many flags, all clear.
fn flags(alloc: Global, count: usize) -> Result<Vec<bool>, AllocError>
    ensures { IfOk result (λ flags. flags.items ≡ replicate count false) }
{
    Ok(vec![in alloc; false; count]?)
}
