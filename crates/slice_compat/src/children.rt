//! The classes that extend each class.

ghost use Rattle.std.specs.Prelude.{ℕ, ◌≡◌, ◌<◌, ◌+◌, IfOk, None, Some, length, replicate, slice_set};
ghost use Rattle.ice_types.specs.Inherited.{base_in};
ghost use Rattle.slice_compat.specs.Children.{AreChildren, AreLinked, link_at};

use ice_types::{ClassDecl, Schema};
use std::alloc::{AllocError, Global};

/// For each class the last one that extends it, and for each the one before it that extends the same class.
#[derive(Drop)]
pub(crate) struct Children {
    pub first: Vec<Option<u32>>,
    pub next: Vec<Option<u32>>,
}

impl Children {
    /// The classes of the schema.
    pub fn of(alloc: Global, schema: &Schema) -> Result<Children, AllocError>
        ensures { IfOk result (AreChildren schema.now) }
    {
        schema.rules();
        let classes = schema.classes().as_slice();
        let mut children = Children {
            first: no_links(alloc, classes.len())?,
            next: no_links(alloc, classes.len())?,
        };
        for at in 0..classes.len() {
            children.add(classes, at as u32);
        }
        Ok(children)
    }

    /// Puts the next class on the list of its base, where it has one.
    fn add(&mut self, classes: &[ClassDecl], class: u32)
        requires linked { AreLinked classes.now class self.old.first.items self.old.next.items }
        requires class { class < length classes.now }
        requires base { (base : ℕ) → base_in classes.now class ≡ Some base → base < length classes.now }
        ensures { AreLinked classes.now (class + 1) self.new.first.items self.new.next.items }
    {
        match classes[class as usize].base {
            Some(base) => self.put(base, class),
            None => {}
        }
    }

    /// Puts a class before those that extend the same one.
    fn put(&mut self, base: u32, class: u32)
        requires base { base < length self.old.first.items }
        requires class { class < length self.old.next.items }
        ensures first { self.new.first.items ≡ slice_set self.old.first.items base (Some class) }
        ensures next { self.new.next.items ≡ slice_set self.old.next.items class (link_at self.old.first.items base) }
    {
        self.next[class as usize] = self.first[base as usize];
        self.first[base as usize] = Some(class);
    }
}

/// No links, at so many places.
fn no_links(alloc: Global, count: usize) -> Result<Vec<Option<u32>>, AllocError>
    ensures { IfOk result (λ links. links.items ≡ replicate count None) }
{
    Ok(vec![in alloc; None; count]?)
}
