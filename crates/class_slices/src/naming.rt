//! The names in an exception: its own slices stand for the roots of its graph.

ghost use Rattle.std.specs.Prelude.{◌≡◌, [], IfOk, Some, length};
ghost use Rattle.ice_encoding.specs.Tree.{reference};
ghost use Rattle.ice_encoding.specs.Names.{instance_names};
ghost use Rattle.ice_encoding.specs.OptionalMembers.{with_optional};
ghost use Rattle.ice_encoding.specs.UserExceptionWritten.{form_of, references_to};
ghost use Rattle.ice_encoding.specs.Visiting.{order};
ghost use Rattle.graph_arena.specs.Arena.{AreBelow, IsSound};
ghost use Rattle.graph_arena.specs.Renumbering.{IsIndex};
ghost use Rattle.graph_arena.specs.Seen.{view_content, view_slices};
ghost use Rattle.graph_arena.specs.View.{view, view_all};
ghost use Rattle.class_slices.specs.Seen.{IsRooted, view_user_exception};

use crate::user_exception::UserException;
use graph_arena::{Graph, Members, Slice, ThinList, Value, index_of, push_slices, resolve_slices};
use ice_types::List;
use std::alloc::{AllocError, Global};

/// Puts in the place of the graph's roots a reference to each instance that the slices name, slice by slice in
/// order of occurrence.
pub(crate) fn rooted(
    alloc: Global,
    mut user_exception: UserException,
) -> Result<UserException, AllocError>
    requires { AreBelow (length user_exception.graph.instances) (instance_names (view_slices user_exception.slices)) }
    ensures same { IfOk result (λ rooted. view_user_exception rooted ≡ view_user_exception user_exception) }
    ensures rooted { IfOk result IsRooted }
{
    match roots_of(alloc, user_exception.slices.as_slice()) {
        Ok(roots) => {
            user_exception.graph.set_roots(roots);
            Ok(user_exception)
        }
        Err(error) => {
            drop(user_exception);
            Err(error)
        }
    }
}

/// A reference to each instance that the slices name, slice by slice in order of occurrence, as members.
fn roots_of(alloc: Global, slices: &[Slice]) -> Result<Members, AllocError>
    ensures { IfOk result (λ roots.
        view_content roots ≡ with_optional (references_to (instance_names (view_slices slices.now))) []) }
{
    let mut names = List::new(alloc);
    push_slices(&mut names, slices)?;
    Ok(Members {
        required: references(alloc, names.as_slice())?,
        optional: ThinList::new(),
    })
}

/// A reference to each of these instances.
fn references(alloc: Global, names: &[u32]) -> Result<List<Value>, AllocError>
    ensures { IfOk result (λ values. view_all values ≡ references_to names.now) }
{
    let mut values = List::new(alloc);
    for name in names {
        values.push(reference(*name))?;
    }
    Ok(values)
}

fn reference(name: u32) -> Value
    ensures { view result ≡ reference (Some name) }
{
    Value::Reference(Some(name))
}

/// The exception with the instances that its slices lead to, in the order of their first visits, each named by
/// its place in that order; the others are left out. What they hold is moved, and not copied.
/// (Ice manual, "Data Encoding for Class and Exception Types".)
pub(crate) fn numbered(
    alloc: Global,
    user_exception: UserException,
) -> Result<UserException, AllocError>
    requires { IsRooted user_exception }
    ensures { IfOk result (λ numbered. view_user_exception numbered ≡ form_of (view_user_exception user_exception)) }
{
    match index_by_visits(alloc, &user_exception.graph) {
        Ok(index) => {
            let mut slices = user_exception.slices;
            resolve_slices(slices.as_mut_slice(), index.as_slice());
            match user_exception.graph.renumbered() {
                Ok(graph) => Ok(UserException { slices, graph }),
                Err(error) => {
                    drop(slices);
                    Err(error)
                }
            }
        }
        Err(error) => {
            drop(user_exception);
            Err(error)
        }
    }
}

/// For each instance its place in the order of the first visits.
fn index_by_visits(alloc: Global, graph: &Graph) -> Result<Vec<u32>, AllocError>
    ensures index { IfOk result (λ index.
        IsIndex (length graph.now.instances) (order graph.now) index.items) }
    ensures sound { IsSound graph.now }
{
    let count = graph.len();
    let order = graph.first_visit()?;
    let index = index_of(alloc, count, order.as_slice())?;
    Ok(index)
}
