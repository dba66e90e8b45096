//! The walk over a file and all that it includes, depth first.

ghost use Rattle.std.specs.Prelude.{◌≡◌};
ghost use Rattle.ice_ports.specs.Failures.{count_after};
ghost use Rattle.slice_check.specs.Answers.{is_failed};
ghost use Rattle.slice_check.specs.Standing.{Walks};

use crate::fault::LoadFault;
use crate::files::Files;
use crate::including::{next_new, opened};
use crate::names::Names;
use crate::open::Open;
use ice_ports::Shelf;
use std::alloc::Global;

/// A walk on its way.
#[derive(Drop)]
pub(crate) struct Walk {
    /// The names of the files that are loaded.
    pub(crate) names: Names,
    /// The files whose includes are all gone through.
    pub(crate) files: Files,
    /// The other files that are loaded, each included by the one before it.
    pub(crate) open: Vec<Open>,
}

impl Walk {
    ghost use Rattle.std.specs.Prelude.{◌≡◌, ◌<◌, ◌+◌, ◌∷◌, OnOk};
    ghost use Rattle.ice_ports.specs.Failures.{count_after};
    ghost use Rattle.slice_meaning.specs.Names.{Name};
    ghost use Rattle.slice_check.specs.Answers.{is_failed};
    ghost use Rattle.slice_check.specs.Standing.{Stands, StepsWalk, stack, work};

    /// Goes on in the innermost file, which was taken off: to the next file that it brings, or out of it.
    fn step<H: Shelf>(&mut self, alloc: Global, shelf: &mut H, user: Open) -> Result<(), LoadFault>
        ensures answer { (file : Name) → Stands (H.files shelf.old) file self.old (user ∷ stack self.old)
            → StepsWalk (H.files shelf.old) file self.new result }
        ensures falls { (file : Name) → Stands (H.files shelf.old) file self.old (user ∷ stack self.old)
            → OnOk result (work self.new < work self.old + 1) }
        ensures kept { H.files shelf.new ≡ H.files shelf.old }
        ensures count { H.failures shelf.new ≡ count_after (H.failures shelf.old) (is_failed result) }
    {
        let included = user.tree.included.as_slice();
        let next = next_new(included, user.next, &self.names);
        let Some((name, place)) = included.get(next) else {
            self.files.push(user.name, user.tree)?;
            return Ok(());
        };
        let inner = opened(
            alloc,
            shelf,
            &mut self.names,
            user.name.as_str(),
            name.as_str(),
            *place,
        )?;
        self.open.push(Open {
            name: user.name,
            tree: user.tree,
            next: next + 1,
        })?;
        self.open.push(inner)?;
        Ok(())
    }
}

/// The file of this name and all that it includes, or the first fault on the way.
pub(crate) fn walk_from<H: Shelf>(
    alloc: Global,
    shelf: &mut H,
    name: &str,
) -> Result<Files, LoadFault>
    ensures answer { Walks (H.files shelf.old) name.now result }
    ensures kept { H.files shelf.new ≡ H.files shelf.old }
    ensures count { H.failures shelf.new ≡ count_after (H.failures shelf.old) (is_failed result) }
{
    let mut names = Names::new(alloc);
    let first = opened(alloc, shelf, &mut names, name, name, 0)?;
    let mut walk = Walk {
        names,
        files: Files::new(alloc),
        open: Vec::new(alloc),
    };
    walk.open.push(first)?;
    while let Some(user) = walk.open.pop() {
        walk.step(alloc, shelf, user)?;
    }
    Ok(walk.files)
}
