//! Whether slices are those of an instance, or of an exception. (Ice manual, "Class Inheritance", "User
//! Exceptions".)

ghost use Rattle.std.specs.Prelude.{◌≡◌, ◌<◌, ◌↔◌, IsTrue, None, length};
ghost use Rattle.ice_types.specs.CompactIds.{IsSliceId};
ghost use Rattle.ice_prims.specs.Rest.{IsBytes};
ghost use Rattle.ice_encoding.specs.Classes as classes;
ghost use Rattle.ice_encoding.specs.Exceptions.{of_exceptions};
ghost use Rattle.ice_encoding.specs.TypedGraph.{AreBases, AreReferred, IsInstance, IsKnown, RefersIn};
ghost use Rattle.ice_encoding.specs.UserExceptionTyped.{HasTypeId, HaveTypeIds};
ghost use Rattle.graph_arena.specs.Seen.{view_content, view_slice, view_slices};
ghost use Rattle.value_parts.specs.SlicedType.{rows_of};
ghost use Rattle.value_checks.specs.First.{AreSlices, IsFine, IsUnknownSlice, IsSlice};

use crate::members::are_members;
use crate::references::References;
use graph_arena::{Graph, Members, Slice};
use ice_types::{Name, Schema, is_numbered, number_in};
use value_parts::SlicedType;

/// Whether they are the slices of a user exception whose references stand for instances of the graph: kept
/// ones and then those of an exception of the schema and of all its bases, in order, or unknown ones alone, and
/// one at least. The values of its members are of their types; the instances may be of any.
/// (Ice manual, "User Exceptions".)
pub fn is_user_exception(schema: &Schema, graph: &Graph, slices: &[Slice]) -> bool
    ensures { IsTrue result ↔ (IsInstance (of_exceptions schema.now) (RefersIn schema.now graph.now.instances)
        (view_slices slices.now) × HaveTypeIds (view_slices slices.now)) }
{
    is_instance(schema, SlicedType::Exception, graph, slices) && have_type_ids(slices)
}

/// Whether none of them is kept under a compact id, since an exception has none.
fn have_type_ids(slices: &[Slice]) -> bool
    ensures { IsTrue result ↔ HaveTypeIds (view_slices slices.now) }
{
    for slice in slices {
        if !has_type_id(slice) {
            return false;
        }
    }
    true
}

/// Whether it is not kept under a compact id.
fn has_type_id(slice: &Slice) -> bool
    ensures { IsTrue result ↔ HasTypeId (view_slice slice.now) }
{
    match slice {
        Slice::Known { .. } => true,
        Slice::Unknown(kept) => !is_numbered(kept.id.as_str()),
    }
}

/// Whether the instance at a place is of its class.
pub(crate) fn is_fine(schema: &Schema, graph: &Graph, at: u32) -> bool
    requires { at < length graph.now.instances }
    ensures { IsTrue result ↔ IsFine schema.now graph.now at }
{
    is_instance(
        schema,
        SlicedType::Class,
        graph,
        graph.instance(at).slices.as_slice(),
    )
}

/// Whether they are unknown slices and then those of a known class and of all its bases, in order, or kept
/// slices alone, and one at least.
fn is_instance(schema: &Schema, sort: SlicedType, graph: &Graph, slices: &[Slice]) -> bool
    ensures { IsTrue result ↔ IsInstance (rows_of sort schema.now) (RefersIn schema.now graph.now.instances)
        (view_slices slices.now) }
{
    !slices.is_empty() && are_slices(schema, sort, graph, slices)
}

/// The same, where they may also be none.
fn are_slices(schema: &Schema, sort: SlicedType, graph: &Graph, slices: &[Slice]) -> bool
    ensures { IsTrue result ↔ AreSlices (rows_of sort schema.now) (RefersIn schema.now graph.now.instances)
        (view_slices slices.now) }
{
    for (at, slice) in slices.iter().enumerate() {
        if let Slice::Known { class, members } = slice {
            let bases = &slices[at + 1..];
            return is_whole(schema, sort, graph, *class, members, bases);
        }
        if !is_unknown(schema, sort, graph, slice) {
            return false;
        }
    }
    true
}

/// Whether it is kept of a class that the schema lacks, as bytes, with a table of names that may stand where
/// any class may.
fn is_unknown(schema: &Schema, sort: SlicedType, graph: &Graph, slice: &Slice) -> bool
    ensures { IsTrue result ↔ IsUnknownSlice (rows_of sort schema.now) (RefersIn schema.now graph.now.instances)
        (view_slice slice.now) }
{
    match slice {
        Slice::Known { .. } => false,
        Slice::Unknown(kept) => {
            is_unknown_id(schema, sort, &kept.id)
                && are_referred(schema, graph, kept.table.as_slice())
                && are_bytes(kept.bytes.as_slice())
        }
    }
}

/// Whether it is an id under which a slice is kept, and the schema lacks it. It is UTF-8 as each text is.
fn is_unknown_id(schema: &Schema, sort: SlicedType, id: &Name) -> bool
    ensures { IsTrue result
        ↔ ((classes.class_by_id (rows_of sort schema.now) id.now ≡ None) × IsSliceId id.now) }
{
    let id = id.as_str();
    match sort {
        SlicedType::Class => schema.kept_id(id),
        SlicedType::Exception => {
            if is_numbered(id) {
                number_in(id).is_some()
            } else {
                schema.exception(id).is_none()
            }
        }
    }
}

/// Each of them is a byte, as their type says.
fn are_bytes(bytes: &[u8]) -> bool
    ensures { IsTrue result ↔ IsBytes bytes.now }
{
    let _ = bytes;
    true
}

/// Whether each name may stand where any class may.
fn are_referred(schema: &Schema, graph: &Graph, names: &[u32]) -> bool
    ensures { IsTrue result ↔ AreReferred (RefersIn schema.now graph.now.instances) names.now }
{
    for name in names {
        if !References::Into(graph).hold(schema, None, Some(*name)) {
            return false;
        }
    }
    true
}

/// Whether the class is known, they are the values of its own members, and these the slices of its bases.
fn is_whole(
    schema: &Schema,
    sort: SlicedType,
    graph: &Graph,
    class: u32,
    members: &Members,
    bases: &[Slice],
) -> bool
    ensures { IsTrue result ↔
        (IsKnown (rows_of sort schema.now) (RefersIn schema.now graph.now.instances) class (view_content members.now)
        × AreBases (rows_of sort schema.now) (RefersIn schema.now graph.now.instances)
        (classes.base_of (rows_of sort schema.now) class) (view_slices bases.now)) }
{
    is_known(schema, sort, graph, class, members)
        && are_bases(schema, sort, graph, sort.base_of(schema, class), bases)
}

/// Whether they are the slices of this class, its base, the base of that and so on.
fn are_bases(
    schema: &Schema,
    sort: SlicedType,
    graph: &Graph,
    class: Option<u32>,
    slices: &[Slice],
) -> bool
    ensures { IsTrue result ↔ AreBases (rows_of sort schema.now) (RefersIn schema.now graph.now.instances) class
        (view_slices slices.now) }
{
    let mut next = class;
    for slice in slices {
        let Some(class) = next else {
            return false;
        };
        if !is_slice(schema, sort, graph, class, slice) {
            return false;
        }
        next = sort.base_of(schema, class);
    }
    next.is_none()
}

/// Whether it is the slice of this class, with the values of its own members.
fn is_slice(schema: &Schema, sort: SlicedType, graph: &Graph, class: u32, slice: &Slice) -> bool
    ensures { IsTrue result ↔ IsSlice (rows_of sort schema.now) (RefersIn schema.now graph.now.instances) class
        (view_slice slice.now) }
{
    match slice {
        Slice::Known {
            class: other,
            members,
        } => *other == class && is_known(schema, sort, graph, class, members),
        Slice::Unknown(_) => false,
    }
}

/// Whether the class is known, and they are the values of its own members.
fn is_known(schema: &Schema, sort: SlicedType, graph: &Graph, class: u32, members: &Members) -> bool
    ensures { IsTrue result ↔ IsKnown (rows_of sort schema.now) (RefersIn schema.now graph.now.instances) class
        (view_content members.now) }
{
    let fields = sort.own_fields(schema, class);
    sort.has_row(schema, class) && are_members(schema, graph, fields, members)
}
