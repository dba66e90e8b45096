//! Texts of graphs.

ghost use Rattle.std.specs.Prelude.{◌≡◌, ◌↔◌, ℕ, List, IsTrue, IfOk, IfSome, Ok, Err, map, option_map, string_bytes};
ghost use Rattle.std.specs.Option.{is_some};
ghost use Rattle.graph_json.specs.View.{view as json_view, items_view};
ghost use Rattle.ice_encoding.specs.Graph.{Graph};
ghost use Rattle.ice_encoding.specs.Names.{instance_names, names_of};
ghost use Rattle.graph_arena.specs.Arena.{AreBelow};
ghost use Rattle.graph_arena.specs.Seen.{view_content, view_instance, view_slice, view_slices};
ghost use Rattle.value_parts.specs.Shapes.{shape_seen};
ghost use Rattle.graph_json.specs.Contents.{HasOwnNames};
ghost use Rattle.graph_json.specs.Listed.{AreNamed, CanBeNamed, MembersOf, Names, view_listed};
ghost use Rattle.graph_json.specs.Canonical.{canonical_noted, graph_noted};
ghost use Rattle.graph_json.specs.Texts.{AreNotable, IsJson, ListsTooMany, NotesText, Parses, ReadsJson, graph_text};
ghost use Rattle.graph_json.specs.Texts.{IsText, listed_in};
ghost use Rattle.graph_json.specs.declared.fault.JsonFault.TheVariants as faults;
ghost use Rattle.graph_json.specs.declared.fault.JsonKind.TheVariants as kinds;

use crate::enum_names::EnumNames;
use crate::fault::{JsonFault, JsonKind};
use crate::found::{named, object_in};
use crate::listing::{Listed, listed_of};
use crate::parsing::json_of;
use crate::tree::Json;
use crate::writing::write_graph;
use graph_arena::{Graph, Instance, Members, Slice, push_slices};
use ice_types::{List, Schema};
use json::{Scratch, Writer};
use std::alloc::{AllocError, Global};
use value_checks::first_ill_typed;
use value_parts::DeclaredMembers;

/// The most bytes of a text that is read.
pub const MOST_TEXT: usize = 16_777_216;

/// In texts that are longer, enumerators are found by sorted names.
const LONG_TEXT: usize = 65_536;

/// How many instances a text lists at most.
const MOST_LISTED: usize = 100_000;

/// The text of a graph whose roots are of these members, in JSON without blanks: the instances that the roots lead
/// to, in the order of their first visits, and the names of each object in rising order. Want of memory is the only
/// refusal.
pub fn to_text(
    alloc: Global,
    schema: &Schema,
    fields: DeclaredMembers<'_>,
    graph: Graph,
) -> Result<String, AllocError>
    ensures text { IfOk result (λ text. string_bytes text ≡ graph_text schema.now (shape_seen fields.entry) graph) }
    // It is JSON: the canonical notation, where each of the members is of a type of the schema.
    ensures reads_back { IfOk result (λ text. AreNotable schema.now (shape_seen fields.entry)
        → IsJson (string_bytes text) (canonical_noted schema.now (shape_seen fields.entry) graph)) }
{
    schema.rules();
    let graph = graph.renumbered()?;
    let text = printed(alloc, schema, fields, &graph);
    drop(graph);
    text
}

/// The text of the graph, with its instances as they stand.
fn printed(
    alloc: Global,
    schema: &Schema,
    fields: DeclaredMembers<'_>,
    graph: &Graph,
) -> Result<String, AllocError>
    ensures { IfOk result (λ text. IsText (string_bytes text)
        (graph_noted schema.now (shape_seen fields.entry) graph.now)) }
{
    let mut out = Writer::new(Vec::new(alloc));
    write_graph(&mut out, alloc, schema, fields, graph)?;
    match String::from_utf8(out.into_inner()) {
        Ok(text) => Ok(text),
        Err(_) => unreachable!(),
    }
}

/// The graph that the text notes, with roots of these members; or why there is none.
pub fn from_text(
    alloc: Global,
    schema: &Schema,
    fields: DeclaredMembers<'_>,
    text: &[u8],
) -> Result<Graph, JsonFault>
    requires { HasOwnNames (shape_seen fields) }
    ensures parses { Parses schema.now (shape_seen fields.entry) text.now result }
    // What it answers is noted by the text, and where it answers that the text is a misfit, no graph is.
    ensures noted { IfOk result (λ g. NotesText schema.now (shape_seen fields.entry) text.now g) }
    ensures misfit { result ≡ Err (faults.Refused kinds.Misfit) → (g : Graph)
        → NotesText schema.now (shape_seen fields.entry) text.now g → ⊥ }
{
    schema.rules();
    parsed(alloc, schema, fields, text)
}

/// The graph that the text lists, or why there is none.
fn parsed(
    alloc: Global,
    schema: &Schema,
    fields: DeclaredMembers<'_>,
    text: &[u8],
) -> Result<Graph, JsonFault>
    requires { HasOwnNames (shape_seen fields) }
    ensures { Parses schema.now (shape_seen fields.entry) text.now result }
{
    let names = names_for(alloc, schema, text.len())?;
    let mut scratch = Scratch::new(alloc);
    let json = json_of(alloc, text, &mut scratch)?;
    let graph = graph_in(alloc, schema, &names, fields, &json);
    drop(json);
    graph
}

/// Hints for a text of so many bytes, where it is long enough to be worth them.
fn names_for(alloc: Global, schema: &Schema, length: usize) -> Result<EnumNames, AllocError> {
    if length > LONG_TEXT {
        EnumNames::of(alloc, schema)
    } else {
        Ok(EnumNames::none(alloc))
    }
}

/// The graph that the JSON of a text lists, or why there is none.
fn graph_in(
    alloc: Global,
    schema: &Schema,
    names: &EnumNames,
    fields: DeclaredMembers<'_>,
    json: &Json<'_>,
) -> Result<Graph, JsonFault>
    requires { HasOwnNames (shape_seen fields) }
    ensures { (text : List ℕ) → ReadsJson text (Ok json.now)
        → Parses schema.now (shape_seen fields.entry) text result }
{
    schema.rules();
    if lists_too_many(json) {
        return Err(JsonFault::Refused(JsonKind::TooMany));
    }
    let Some(listed) = listed_of(alloc, schema, names, fields, json)? else {
        return Err(JsonFault::Refused(JsonKind::Misfit));
    };
    let Some(graph) = graph_of(alloc, listed)? else {
        return Err(JsonFault::Refused(JsonKind::Misfit));
    };
    match first_ill_typed(alloc, schema, fields, &graph) {
        Ok(None) => Ok(graph),
        Ok(Some(_)) => {
            drop(graph);
            Err(JsonFault::Refused(JsonKind::Misfit))
        }
        Err(AllocError) => {
            drop(graph);
            Err(JsonFault::Memory)
        }
    }
}

/// Whether more instances are listed than a text may list, whatever else is wrong.
fn lists_too_many(json: &Json<'_>) -> bool
    ensures { IsTrue result ↔ ListsTooMany (json_view json.now) }
{
    match listed_items(json) {
        Some(items) => items.len() > MOST_LISTED,
        None => false,
    }
}

/// What an object has in its array of instances.
fn listed_items<'a, 'b>(json: &'a Json<'b>) -> Option<&'a Vec<Json<'b>>>
    ensures { option_map (λ items. items_view items.now.items) result ≡ listed_in (json_view json.now) }
{
    named(object_in(json)?, "instances")?.as_array()
}

/// The graph that is listed, or None where a name is that of no instance.
fn graph_of(alloc: Global, listed: Listed) -> Result<Option<Graph>, AllocError>
    requires { CanBeNamed (view_listed listed) }
    ensures { IfOk result (Names (view_listed listed)) }
{
    let Listed { roots, instances } = listed;
    let count = instances.len();
    if !all_named(alloc, count, instances.as_slice())? {
        return Ok(None);
    }
    match named_roots(alloc, count, roots)? {
        Some(roots) => Ok(Some(Graph::of(roots, instances))),
        None => Ok(None),
    }
}

/// Whether each name in the instances is that of one of so many.
fn all_named(alloc: Global, count: usize, instances: &[Instance]) -> Result<bool, AllocError>
    ensures { IfOk result (λ are. IsTrue are ↔ AreNamed count (map view_instance instances.now)) }
{
    for instance in instances {
        if !are_named(alloc, count, instance.slices.as_slice())? {
            return Ok(false);
        }
    }
    Ok(true)
}

/// The roots, where each name in them is that of one of so many instances.
fn named_roots(alloc: Global, count: usize, roots: Members) -> Result<Option<Members>, AllocError>
    ensures ok { IfOk result (λ o. IfSome o (λ m. view_content m ≡ view_content roots)) }
    ensures named { IfOk result (λ o. IsTrue (is_some o) ↔ AreBelow count (names_of (view_content roots))) }
{
    let slices = [Slice::Known {
        class: 0,
        members: roots,
    }];
    if !are_named(alloc, count, &slices)? {
        return Ok(None);
    }
    let [slice] = slices;
    Ok(members_of(slice))
}

/// The members of a known slice.
fn members_of(slice: Slice) -> Option<Members>
    ensures { MembersOf (view_slice slice) (option_map view_content result) }
{
    match slice {
        Slice::Known { members, .. } => Some(members),
        Slice::Unknown(_) => None,
    }
}

/// Whether each name in the slices is that of one of so many instances.
fn are_named(alloc: Global, count: usize, slices: &[Slice]) -> Result<bool, AllocError>
    ensures { IfOk result (λ are. IsTrue are ↔ AreBelow count (instance_names (view_slices slices.now))) }
{
    let mut names = List::new(alloc);
    push_slices(&mut names, slices)?;
    Ok(are_below(names.as_slice(), count))
}

fn are_below(names: &[u32], count: usize) -> bool
    ensures { IsTrue result ↔ AreBelow count names.now }
{
    for name in names {
        if *name as usize >= count {
            return false;
        }
    }
    true
}
