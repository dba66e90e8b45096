//! What writing remembers: how many instances have begun, and the type ids that stand as texts.

ghost use Rattle.std.specs.Prelude.{◌≡◌, ◌+◌, ◌++◌, ◌<◌, ◌^◌, ◌≤◌, ◌↔◌, suc, IsTrue, None, OnErr, OnOk};
ghost use Rattle.std.specs.Option.{IfSome};
ghost use Rattle.ice_prims.specs.Bytes.{size_bytes};
ghost use Rattle.ice_encoding.specs.CanonicalGraph.{blank};
ghost use Rattle.ice_encoding.specs.Classes.{place_of};
ghost use Rattle.ice_encoding.specs.Visiting.{most};
ghost use Rattle.instance_writing.specs.Pens.{put_counted, room, with_text};

use crate::id_places::IdPlaces;
use graph_arena::MOST_PLACES;
use ice_prims::put_size;
use ice_types::MOST_NUMBER;
use std::alloc::{AllocError, Global};
use std::marker::Model;
use value_writing::PutPort;

/// How many instances have begun, and the type ids that were written as texts. As a port it puts
/// references in place: at one to an instance that has not begun, the instance begins. More of them
/// than a graph may have are answered as want of memory.
#[derive(Drop)]
pub(crate) struct Pen<'a> {
    begun: u32,
    ids: Vec<&'a str>,
    places: IdPlaces,
}

impl<'a> Model for Pen<'a> {
    ghost use Rattle.std.specs.Prelude.{map};
    ghost use Rattle.ice_encoding.specs.CanonicalGraph.{Pen};
    ghost use Rattle.instance_writing.specs.Pens.{ArePlaced, pen_code, place_in};

    ghost Value = { Pen };

    ghost coded = { pen_code };

    ghost view = { λ p. record { begun = p.begun; ids = map (λ id. id.now) p.ids.items } };

    ghost invariant = { λ p. ArePlaced (place_in p.places) (map (λ id. id.now) p.ids.items) };
}

impl<'a> Pen<'a> {
    /// Nothing has begun.
    pub(crate) fn new(alloc: Global) -> Pen<'a>
        ensures { result ≡ blank }
    {
        Pen {
            begun: 0,
            ids: Vec::new(alloc),
            places: IdPlaces::new(alloc),
        }
    }

    /// Whether as many instances have begun as a graph may have.
    fn is_full(&self) -> bool
        ensures { IsTrue result ↔ (most ≤ self.now.begun) }
    {
        self.begun >= MOST_PLACES
    }

    /// Where the type id stands among those that were written.
    pub(crate) fn find(&self, id: &str) -> Option<u32>
        ensures place { result ≡ place_of self.now.ids id.now }
        ensures few { IfSome result (λ at. at + 1 < 2 ^ 31) }
    {
        self.places.get(id)
    }

    /// The type id is written as a text. More of them than a size can tell are answered as want of memory.
    pub(crate) fn add(&mut self, id: &'a str) -> Result<(), AllocError>
        requires { place_of self.old.ids id.now ≡ None }
        ensures { OnOk result (self.new ≡ with_text id.now self.old) }
    {
        let at = self.ids.as_slice().len();
        if at >= MOST_NUMBER as usize {
            return Err(AllocError);
        }
        let copy = self.places.copied(id)?;
        self.ids.push(id)?;
        match self.places.insert(copy, at as u32) {
            Ok(()) => Ok(()),
            Err(error) => {
                self.ids.truncate(at);
                Err(error)
            }
        }
    }
}

impl<'a> PutPort for Pen<'a> {
    ghost put = { put_counted };

    ghost room = { room };

    fn put_ref(&mut self, out: &mut Vec<u8>, name: Option<u32>) -> Result<Option<u32>, AllocError> {
        let Some(name) = name else {
            put_size(out, 0)?;
            return Ok(None);
        };
        if name < self.begun {
            put_number(out, name)?;
            return Ok(None);
        }
        if self.is_full() {
            return Err(AllocError);
        }
        put_size(out, 1)?;
        self.begun += 1;
        Ok(Some(name))
    }
}

/// The number of an instance that has begun, counted from 2. One above the greatest int is answered as
/// want of memory.
fn put_number(out: &mut Vec<u8>, name: u32) -> Result<(), AllocError>
    requires { name < 2 ^ 31 }
    ensures ok { OnOk result (out.new.items ≡ out.old.items ++ size_bytes (suc (suc name))) }
    ensures err { OnErr result (out.new.items ≡ out.old.items) }
{
    if name + 2 > MOST_NUMBER {
        return Err(AllocError);
    }
    put_size(out, name + 2)
}
