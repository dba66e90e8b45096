//! The classes that a type reaches, found without recursion: each row is gone through once.

ghost use Rattle.std.specs.Prelude.{◌≡◌, OnOk, IfOk, []};
ghost use Rattle.slice_compat.specs.Children.{AreChildren, link_at};
ghost use Rattle.slice_compat.specs.Marks.{AreReached, IsUnderWay, Spreads};
ghost use Rattle.slice_compat.specs.Nodes.{IsBase, IsChild, IsClass, Steps};

use crate::children::Children;
use crate::marks::Marks;
use crate::node::Node;
use ice_types::{Schema, TypeRef};
use std::alloc::{AllocError, Global};

/// A flag for each class, set on those whose instances a value of the type may name.
pub(crate) fn reached_classes(
    alloc: Global,
    schema: &Schema,
    kind: TypeRef,
) -> Result<Vec<bool>, AllocError>
    ensures { IfOk result (λ flags. AreReached schema.now kind flags.items) }
{
    schema.rules();
    let children = Children::of(alloc, schema)?;
    let mut marks = Marks::new(alloc, schema)?;
    marks.meet_kind(kind)?;
    go_through(schema, &children, kind, &mut marks)?;
    Ok(marks.classes)
}

/// Goes on until nothing is left to be gone through.
fn go_through(
    schema: &Schema,
    children: &Children,
    kind: TypeRef,
    marks: &mut Marks,
) -> Result<(), AllocError>
    requires children { AreChildren schema.now children.now }
    requires start { IsUnderWay schema.now kind marks.old }
    ensures way { OnOk result (IsUnderWay schema.now kind marks.new) }
    ensures all { OnOk result (marks.new.pending.items ≡ []) }
{
    schema.rules();
    while let Some(node) = marks.pending.pop() {
        spread(schema, children, node, marks)?;
    }
    Ok(())
}

/// Meets what a node leads to.
fn spread(
    schema: &Schema,
    children: &Children,
    node: Node,
    marks: &mut Marks,
) -> Result<(), AllocError>
    requires { AreChildren schema.now children.now }
    ensures { OnOk result (Spreads (Steps schema.now node) marks.old marks.new) }
{
    match node {
        Node::Seq(at) => spread_seq(schema, at, marks),
        Node::Dict(at) => spread_dict(schema, at, marks),
        Node::Struct(at) => spread_struct(schema, at, marks),
        Node::Place(at) => spread_place(schema, children, at, marks),
        Node::Anywhere => meet_classes(schema, marks),
        Node::Class(at) => spread_class(schema, at, marks),
    }
}

/// Meets what the element of a sequence leads to.
fn spread_seq(schema: &Schema, at: u32, marks: &mut Marks) -> Result<(), AllocError>
    ensures { OnOk result (Spreads (Steps schema.now (Node.Seq at)) marks.old marks.new) }
{
    let Some(decl) = schema.seqs().get(at as usize) else {
        return Ok(());
    };
    marks.meet_kind(decl.element)
}

/// Meets what the value of a dictionary leads to. No class place stands in its key.
fn spread_dict(schema: &Schema, at: u32, marks: &mut Marks) -> Result<(), AllocError>
    ensures { OnOk result (Spreads (Steps schema.now (Node.Dict at)) marks.old marks.new) }
{
    let Some(decl) = schema.dicts().get(at as usize) else {
        return Ok(());
    };
    marks.meet_kind(decl.value)
}

/// Meets what the members of a struct lead to.
fn spread_struct(schema: &Schema, at: u32, marks: &mut Marks) -> Result<(), AllocError>
    ensures { OnOk result (Spreads (Steps schema.now (Node.Struct at)) marks.old marks.new) }
{
    let Some(decl) = schema.structs().get(at as usize) else {
        return Ok(());
    };
    marks.meet_members(decl.members.as_slice())
}

/// Meets the class that is declared at a place, and the places of those that extend it.
fn spread_place(
    schema: &Schema,
    children: &Children,
    at: u32,
    marks: &mut Marks,
) -> Result<(), AllocError>
    requires { AreChildren schema.now children.now }
    ensures { OnOk result (Spreads (Steps schema.now (Node.Place at)) marks.old marks.new) }
{
    marks.meet(Node::Class(at))?;
    meet_children(schema, children, at, marks)
}

/// Meets the places of the classes that extend this one.
fn meet_children(
    schema: &Schema,
    children: &Children,
    base: u32,
    marks: &mut Marks,
) -> Result<(), AllocError>
    requires { AreChildren schema.now children.now }
    ensures { OnOk result (Spreads (IsChild schema.now base) marks.old marks.new) }
{
    let mut link = link_of(children.first.as_slice(), base);
    while let Some(class) = link {
        marks.meet(Node::Place(class))?;
        link = link_of(children.next.as_slice(), class);
    }
    Ok(())
}

/// The link at a place, None behind the end.
fn link_of(links: &[Option<u32>], at: u32) -> Option<u32>
    ensures { result ≡ link_at links.now at }
{
    links.get(at as usize).copied().unwrap_or(None)
}

/// Meets each class of the schema.
fn meet_classes(schema: &Schema, marks: &mut Marks) -> Result<(), AllocError>
    ensures { OnOk result (Spreads (IsClass schema.now) marks.old marks.new) }
{
    schema.rules();
    for at in 0..schema.classes().len() {
        marks.meet(Node::Class(at as u32))?;
    }
    Ok(())
}

/// Meets the base of a class, and what the types of its own members lead to.
fn spread_class(schema: &Schema, at: u32, marks: &mut Marks) -> Result<(), AllocError>
    ensures { OnOk result (Spreads (Steps schema.now (Node.Class at)) marks.old marks.new) }
{
    let Some(decl) = schema.classes().get(at as usize) else {
        return Ok(());
    };
    meet_base(decl.base, marks)?;
    marks.meet_members(decl.members.as_slice())
}

/// Meets the base of a class, where it has one.
fn meet_base(base: Option<u32>, marks: &mut Marks) -> Result<(), AllocError>
    ensures { OnOk result (Spreads (IsBase base) marks.old marks.new) }
{
    match base {
        Some(at) => marks.meet(Node::Class(at)),
        None => Ok(()),
    }
}
