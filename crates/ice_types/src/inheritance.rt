//! What classes and interfaces have of their bases. Bases are followed without memory and without recursion.

ghost use Rattle.std.specs.Prelude.{◌≡◌, ◌≤◌, ◌↔◌, IfSome, IsTrue, slice_get};
ghost use Rattle.std.specs.Option.{option_copied};
ghost use Rattle.ice_types.specs.Kept.{above_of, counted};
ghost use Rattle.ice_types.specs.Measures.{bases_in};
ghost use Rattle.ice_types.specs.Inherited.{CountsBases, CountsClassBases, HasFarBases, InterfaceIsA, IsA, base_in};
ghost use Rattle.ice_types.specs.Inherited.{bases_by_path};
ghost use Rattle.ice_types.specs.Inherited.{first_named, located, operations, ops_in};

use crate::bases::{above_of, counted};
use crate::declarations::{ClassDecl, InterfaceDecl, OpDecl};
use crate::list::List;
use crate::rows::ClassRows;
use crate::schema::Schema;

impl Schema {
    /// Whether the class at the first place is the one at the second, or is derived from it. A class
    /// that is only declared has no base. It takes about three steps, at most, for each binary digit of how
    /// many bases the class has. (Ice manual, "Class Inheritance".)
    pub fn is_a(&self, class: u32, base: u32) -> bool
        ensures { IsTrue result ↔ IsA self.now.classes class base }
    {
        derives_from(&self.rows.classes, class, base)
    }

    /// Whether the interface at the first place is the one at the second, or is derived from it. An
    /// interface that is only declared has no bases. (Ice manual, "Interface Inheritance".)
    pub fn interface_is_a(&self, interface: u32, base: u32) -> bool
        ensures { IsTrue result ↔ InterfaceIsA self.now.interfaces interface base }
    {
        let rows = &self.rows.interfaces;
        is_or_has_base(&rows.decls, &rows.beside, interface, base)
    }

    /// The operation of this name that the interface has: the first one among its own and those of its
    /// bases, in order, each base before its own bases. (Ice manual, "Interface Inheritance".)
    pub fn operation(&self, interface: u32, name: &str) -> Option<&OpDecl>
        ensures { option_copied result ≡ first_named name.now (operations self.now.interfaces interface) }
    {
        let rows = &self.rows.interfaces;
        operation_of(&rows.decls, &rows.beside, interface, name)
    }
}

/// Whether the class is the other, or derived from it. The way up goes to the far base wherever that has at
/// least as many bases as the other, and so is not above it, and else to the base.
fn derives_from(rows: &ClassRows, class: u32, base: u32) -> bool
    requires counts { CountsClassBases rows.now.decls rows.now.beside }
    requires far { HasFarBases rows.now.decls rows.now.beside }
    ensures { IsTrue result ↔ IsA rows.now.decls class base }
{
    let wanted = above_of(&rows.beside, base).bases;
    let mut at = class;
    let mut here = above_of(&rows.beside, at);
    while here.bases > wanted {
        let Some(next) = base_of(&rows.decls, at) else {
            return false;
        };
        let far = above_of(&rows.beside, here.far);
        (at, here) = if far.bases >= wanted {
            (here.far, far)
        } else {
            (next, above_of(&rows.beside, next))
        };
    }
    at == base
}

/// The base of the class at a place, None where it has none.
fn base_of(classes: &List<ClassDecl>, at: u32) -> Option<u32>
    ensures { result ≡ base_in classes.now at }
{
    classes.get(at as usize)?.base
}

/// Whether the interface is the other, or has it among all its bases.
fn is_or_has_base(
    interfaces: &List<InterfaceDecl>,
    counts: &List<Option<u32>>,
    interface: u32,
    base: u32,
) -> bool
    requires { CountsBases interfaces.now counts.now }
    ensures { IsTrue result ↔ InterfaceIsA interfaces.now interface base }
{
    if interface == base {
        return true;
    }
    for place in 0..counted(counts, interface) {
        if base_at(interfaces, counts, interface, place) == Some(base) {
            return true;
        }
    }
    false
}

/// The first operation of this name, in the interface itself and then in its bases.
fn operation_of<'a>(
    interfaces: &'a List<InterfaceDecl>,
    counts: &List<Option<u32>>,
    interface: u32,
    name: &str,
) -> Option<&'a OpDecl>
    requires { CountsBases interfaces.now counts.now }
    ensures { option_copied result ≡ first_named name.now (operations interfaces.now interface) }
{
    if let Some(found) = named(ops_of(interfaces, interface), name) {
        return Some(found);
    }
    for place in 0..counted(counts, interface) {
        let base = base_at(interfaces, counts, interface, place)?;
        if let Some(found) = named(ops_of(interfaces, base), name) {
            return Some(found);
        }
    }
    None
}

/// The first operation of this name.
fn named<'a>(ops: &'a [OpDecl], name: &str) -> Option<&'a OpDecl>
    ensures { option_copied result ≡ first_named name.now ops.now }
{
    ops.iter().find(|op| op.name.as_str() == name)
}

/// The operations of the interface at a place itself, none where no interface is.
fn ops_of(interfaces: &List<InterfaceDecl>, at: u32) -> &[OpDecl]
    ensures { result.now ≡ ops_in interfaces.now at }
{
    match interfaces.get(at as usize) {
        Some(interface) => interface.ops.as_slice(),
        None => &[],
    }
}

/// The bases of the interface at a place, none where no interface is.
fn bases_of(interfaces: &List<InterfaceDecl>, at: u32) -> &[u32]
    ensures { result.now ≡ bases_in interfaces.now at }
{
    match interfaces.get(at as usize) {
        Some(interface) => interface.bases.as_slice(),
        None => &[],
    }
}

/// The base at a place among all bases of an interface: each base, and then its own bases, before the
/// next. The counts say which of the bases it is behind, and how far; so it is found going down alone.
fn base_at(
    interfaces: &List<InterfaceDecl>,
    counts: &List<Option<u32>>,
    interface: u32,
    place: u32,
) -> Option<u32>
    requires { CountsBases interfaces.now counts.now }
    ensures { result ≡ slice_get (bases_by_path interfaces.now interface) place }
{
    let (mut base, mut within) = section(bases_of(interfaces, interface), counts, place)?;
    while within > 0 {
        (base, within) = section(bases_of(interfaces, base), counts, within - 1)?;
    }
    Some(base)
}

/// In whose section a place falls, and how far into it, where each base has a section of one place
/// more than is counted of it. None behind the last section.
fn section(bases: &[u32], counts: &List<Option<u32>>, place: u32) -> Option<(u32, u32)>
    ensures found { result ≡ located (counted counts.now) bases.now place }
    ensures within { IfSome result (λ found. found.1 ≤ place) }
{
    let mut left = place;
    for base in bases {
        let count = counted(counts, *base);
        if left <= count {
            return Some((*base, left));
        }
        left = left - count - 1;
    }
    None
}
