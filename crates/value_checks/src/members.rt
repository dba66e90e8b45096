//! Whether values are those of the members of a shape. (Ice manual, "Data Encoding for Class and Exception
//! Types".)

ghost use Rattle.std.specs.Prelude.{◌≡◌, ◌<◌, ◌^◌, ◌↔◌, IsTrue, None, Some, map};
ghost use Rattle.ice_types.specs.declared.kind.TypeRef.{TypeRef};
ghost use Rattle.ice_types.specs.declared.schema.TheConstants.{MOST_DEPTH};
ghost use Rattle.ice_encoding.specs.Tags as tags;
ghost use Rattle.ice_encoding.specs.Typed.{EachOf, HasType};
ghost use Rattle.ice_encoding.specs.Optionals as optionals;
ghost use Rattle.ice_encoding.specs.TypedGraph.{AreMembers, AreOptions, RefersIn};
ghost use Rattle.graph_arena.specs.View.{view, view_all};
ghost use Rattle.graph_arena.specs.Seen.{view_content, view_present};
ghost use Rattle.value_parts.specs.Shapes.{shape_seen, with_tag, without_tag};

use crate::proxies::is_size;
use crate::references::References;
use crate::values::is_of;
use graph_arena::{Graph, Members, Value};
use ice_types::{MOST_DEPTH, Member, Schema, TypeRef};
use value_parts::{DeclaredMembers, kind_tagged};

/// Whether they are the values of these members, each reference to an instance of the graph that fits.
pub(crate) fn are_members(
    schema: &Schema,
    graph: &Graph,
    fields: DeclaredMembers<'_>,
    members: &Members,
) -> bool
    ensures { IsTrue result ↔ AreMembers schema.now (RefersIn schema.now graph.now.instances)
        (shape_seen fields.entry) (view_content members.now) }
{
    are_required(schema, graph, fields.required, members.required.as_slice())
        && are_options(schema, graph, fields.optional, members.optional.as_slice())
}

/// Whether each member without a tag has its value, in order.
fn are_required(schema: &Schema, graph: &Graph, members: &[Member], values: &[Value]) -> bool
    ensures { IsTrue result ↔ EachOf (HasType schema.now (RefersIn schema.now graph.now.instances) MOST_DEPTH)
        (map (λ m. m.kind) (without_tag members.now)) (view_all values.now) }
{
    let mut at = 0;
    for member in members {
        if member.tag.is_some() {
            continue;
        }
        let Some(value) = values.get(at) else {
            return false;
        };
        if !has_type(schema, graph, member.kind, value) {
            return false;
        }
        at += 1;
    }
    at == values.len()
}

fn has_type(schema: &Schema, graph: &Graph, kind: TypeRef, value: &Value) -> bool
    ensures { IsTrue result ↔ HasType schema.now (RefersIn schema.now graph.now.instances) MOST_DEPTH kind
        (view value.now) }
{
    is_of(schema, References::Into(graph), MOST_DEPTH, kind, value)
}

/// Whether the values stand by rising tag, each of the type of the member that has it.
fn are_options(schema: &Schema, graph: &Graph, members: &[Member], options: &[(u32, Value)]) -> bool
    ensures { IsTrue result ↔ AreOptions schema.now (RefersIn schema.now graph.now.instances)
        (with_tag members.now) None (view_present options.now) }
{
    let mut last = None;
    for option in options {
        if !rises(last, option.0) {
            return false;
        }
        if !is_option(schema, graph, members, option.0, &option.1) {
            return false;
        }
        last = Some(option.0);
    }
    true
}

/// Whether a tag is above the one before it.
fn rises(last: Option<u32>, tag: u32) -> bool
    ensures { result ≡ tags.rises last tag }
{
    match last {
        Some(last) => last < tag,
        None => true,
    }
}

/// Whether a member has the tag, and the value is of its type.
fn is_option(schema: &Schema, graph: &Graph, members: &[Member], tag: u32, value: &Value) -> bool
    ensures { IsTrue result ↔ ((tag < 2 ^ 31) × (kind : TypeRef)
        × (optionals.kind_tagged tag (with_tag members.now) ≡ Some kind)
        × HasType schema.now (RefersIn schema.now graph.now.instances) MOST_DEPTH kind (view value.now)) }
{
    match kind_tagged(members, tag) {
        Some(kind) => is_size(tag as usize) && has_type(schema, graph, kind, value),
        None => false,
    }
}
