//! Which references may stand in a value.

ghost use Rattle.std.specs.Prelude.{◌≡◌, ◌<◌, ◌^◌, ◌↔◌, IsTrue, true};
ghost use Rattle.ice_encoding.specs.Classes as classes;
ghost use Rattle.ice_encoding.specs.Instances as graphs;
ghost use Rattle.ice_encoding.specs.TypedGraph.{IsHeldIn};
ghost use Rattle.value_checks.specs.References.{IsHeldBy, most_of};

use graph_arena::{Graph, class_of};
use ice_encoding::{GREATEST, LARGEST};
use ice_types::Schema;

/// Which references may stand in a value.
#[derive(Clone, Copy)]
pub(crate) enum References<'a> {
    /// None, not even null: in a key.
    No,
    /// Any.
    Any,
    /// Null, and one to an instance of the graph whose class fits.
    Into(&'a Graph),
}

impl<'a> References<'a> {
    /// Whether the reference may stand where this class is declared. (Ice manual, "Class Inheritance".)
    pub(crate) fn hold(self, schema: &Schema, declared: Option<u32>, name: Option<u32>) -> bool
        ensures { IsTrue result ↔ IsHeldBy schema.now self.entry declared name }
    {
        match self {
            References::No => false,
            References::Any => true,
            References::Into(graph) => may_refer(schema, graph, declared, name),
        }
    }

    /// The greatest size of an endpoint that may stand. In a key, where no proxy stands, it is that of one that can
    /// be read.
    pub(crate) fn most(self) -> usize
        ensures most { result ≡ most_of self.entry }
        ensures size { result < 2 ^ 31 }
    {
        match self {
            References::No => LARGEST,
            References::Any | References::Into(_) => GREATEST,
        }
    }
}

/// Null, or an instance of the graph whose class fits.
fn may_refer(schema: &Schema, graph: &Graph, declared: Option<u32>, name: Option<u32>) -> bool
    ensures { IsTrue result ↔ IsHeldIn schema.now graph.now.instances declared name }
{
    match name {
        Some(name) => {
            name < graph.len()
                && class_fits(
                    schema,
                    declared,
                    class_of(graph.instance(name).slices.as_slice()),
                )
        }
        None => true,
    }
}

/// Whether it is the declared class, or derived from it. Any is where none is declared.
fn class_fits(schema: &Schema, declared: Option<u32>, class: Option<u32>) -> bool
    ensures { IsTrue result ↔ (graphs.class_fits schema.now declared class ≡ true) }
{
    match declared {
        Some(base) => match class {
            Some(class) => is_a(schema, class, base),
            None => false,
        },
        None => true,
    }
}

fn is_a(schema: &Schema, class: u32, base: u32) -> bool
    ensures { IsTrue result ↔ (classes.is_a schema.now class base ≡ true) }
{
    schema.rules();
    schema.is_a(class, base)
}
