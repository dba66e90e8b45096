//! The order in which instances are visited first.

ghost use Rattle.std.specs.Prelude.{◌≡◌, ◌++◌, [], IfOk, OnOk, length};
ghost use Rattle.ice_encoding.specs.Visiting.{order};
ghost use Rattle.graph_arena.specs.Arena.{IsSound};
ghost use Rattle.graph_arena.specs.Listing.{from_top};

use crate::graph::Graph;
use crate::listing::Listing;
use ice_types::List;
use std::alloc::{AllocError, Global};

impl Graph {
    /// The places of the instances that the roots lead to, each once, in the order in which they are
    /// named first. (Ice manual, "Data Encoding for Class and Exception Types".)
    pub fn first_visit(&self) -> Result<List<u32>, AllocError>
        ensures { IfOk result (λ places. places ≡ order self.now) }
    {
        let alloc = self.alloc();
        let mut listing = Listing::new(alloc, self.len())?;
        let mut pending = List::new(alloc);
        let listed = self.list_visits(&mut listing, &mut pending);
        drop(pending);
        match listed {
            Ok(()) => Ok(listing.into_places()),
            Err(error) => {
                drop(listing);
                Err(error)
            }
        }
    }

    /// Lists the places of the instances that the roots lead to, with a stack of the names that are
    /// not visited yet.
    fn list_visits(&self, listing: &mut Listing, pending: &mut List<u32>) -> Result<(), AllocError>
        requires sound { IsSound self.now }
        requires none { listing.old ≡ record { count = length self.now.instances; places = [] } }
        requires empty { pending.old ≡ [] }
        ensures { OnOk result (listing.new.places ≡ order self.now) }
    {
        put_on_top(pending, self.root_refs()?)?;
        while let Some(place) = pending.pop() {
            if listing.list(place)? {
                put_on_top(pending, self.refs(place)?)?;
            }
        }
        Ok(())
    }
}

/// Puts names on a stack, the first of them on top.
fn put_on_top(stack: &mut List<u32>, mut names: List<u32>) -> Result<(), AllocError>
    ensures { OnOk result (from_top stack.new ≡ names ++ from_top stack.old) }
{
    while let Some(name) = names.pop() {
        stack.push(name)?;
    }
    Ok(())
}
