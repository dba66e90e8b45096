//! Lists of places, each once.

ghost use Rattle.std.specs.Prelude.{◌≡◌, ◌<◌, [], IfOk};
ghost use Rattle.graph_arena.specs.Listing.{Lists};

use ice_types::List;
use std::alloc::{AllocError, Global};
use std::marker::Model;

/// Some of the places below a count, each once, in the order in which they were listed.
#[derive(Drop)]
pub(crate) struct Listing {
    /// By place.
    marks: Vec<bool>,
    places: List<u32>,
}

impl Model for Listing {
    ghost use Rattle.std.specs.Prelude.{length};
    ghost use Rattle.graph_arena.specs.Listing.{Listed, Marks, listed_code};

    ghost Value = { Listed };

    ghost coded = { listed_code };

    ghost view = { λ l. record { count = length l.marks.items; places = l.places } };

    ghost invariant = { λ l. Marks l.marks.items l.places };
}

impl Listing {
    /// None of so many places.
    pub(crate) fn new(alloc: Global, count: u32) -> Result<Listing, AllocError>
        ensures { IfOk result (λ listing. listing ≡ record { count = count; places = [] }) }
    {
        Ok(Listing {
            marks: vec![in alloc; false; count as usize]?,
            places: List::new(alloc),
        })
    }

    /// Lists a place, and answers whether it is new. Out of memory leaves the list as it was.
    pub(crate) fn list(&mut self, place: u32) -> Result<bool, AllocError>
        requires { place < self.old.count }
        ensures lists { Lists place self.old.places self.new.places result }
        ensures count { self.new.count ≡ self.old.count }
    {
        if self.marks[place as usize] {
            return Ok(false);
        }
        self.places.push(place)?;
        self.marks[place as usize] = true;
        Ok(true)
    }

    /// The places that are listed.
    pub(crate) fn into_places(self) -> List<u32>
        ensures { result ≡ self.places }
    {
        self.places
    }
}
