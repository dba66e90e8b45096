//! Whether the class of each instance fits the places that refer to it.

ghost use Rattle.std.specs.Prelude.{◌≡◌, map, Some};
ghost use Rattle.ice_encoding.specs.Classes as classes;
ghost use Rattle.ice_encoding.specs.Instances as graphs;
ghost use Rattle.graph_arena.specs.Seen.{view_instance};
ghost use Rattle.slice_heads.specs.Seen.{view_reference, view_references};

use crate::arena::Reference;
use graph_arena::{Instance, class_of};
use ice_types::Schema;
use value_parts::SlicedType;

/// The place of the first reference in the bytes whose class does not fit.
pub(crate) fn misfit(schema: &Schema, instances: &[Instance], met: &[Reference]) -> Option<u64>
    ensures { result ≡ graphs.misfit schema.now (map view_instance instances.now) (view_references met.now) }
{
    let mut first = None;
    let mut at = met.len();
    while at > 0 {
        at -= 1;
        let reference = met[at];
        if !fits(schema, instances, reference) {
            first = Some(earlier(reference.place, first));
        }
    }
    first
}

/// The lesser of two places.
fn earlier(place: u64, other: Option<u64>) -> u64
    ensures { graphs.earlier place other ≡ Some result }
{
    match other {
        Some(other) => place.min(other),
        None => place,
    }
}

/// Whether the class of what is named fits its place.
fn fits(schema: &Schema, instances: &[Instance], reference: Reference) -> bool
    ensures { result ≡ graphs.fits schema.now (map view_instance instances.now) (view_reference reference) }
{
    match reference.declared {
        None => true,
        Some(base) => match class_named(instances, reference.name) {
            None => false,
            Some(class) => is_a(schema, class, base),
        },
    }
}

/// The class of the instance of this name, None for `Object`.
fn class_named(instances: &[Instance], name: u32) -> Option<u32>
    ensures { result ≡ graphs.class_of (graphs.slices_of (map view_instance instances.now) name) }
{
    class_of(instances.get(name as usize)?.slices.as_slice())
}

/// Whether a class is the other one, or derived from it.
fn is_a(schema: &Schema, class: u32, base: u32) -> bool
    ensures { result ≡ classes.is_a schema.now class base }
{
    let mut class = class;
    let mut left = schema.classes().len();
    while class != base {
        if left == 0 {
            return false;
        }
        left -= 1;
        match SlicedType::Class.base_of(schema, class) {
            Some(next) => class = next,
            None => return false,
        }
    }
    true
}
