//! The table of a slice.

ghost use Rattle.std.specs.Prelude.{◌≡◌, ◌<◌, ◌≤◌, ◌+◌, ◌^◌, [], IfOk, OnOk, length, nat_lt, slice_index_or};
ghost use Rattle.ice_encoding.specs.Visiting.{place, most};
ghost use Rattle.instance_writing.specs.Tabling.{also, no_names, place_at, place_put};

use ice_prims::put_size;
use ice_types::List;
use std::alloc::{AllocError, Global};
use std::marker::Model;
use std::mem::replace;
use value_writing::PutPort;

/// The instances that the members of a slice name, each once, in order of first occurrence. As a port
/// for these members it puts each reference as a place in the table.
#[derive(Drop)]
pub(crate) struct Table {
    /// By name: where it stands in the table, if it does.
    places: Vec<u32>,
    names: List<u32>,
}

impl Model for Table {
    ghost use Rattle.std.specs.Prelude.{length};
    ghost use Rattle.instance_writing.specs.Tabling.{Listed, listed_code, IsIndexed};

    ghost Value = { Listed };

    ghost coded = { listed_code };

    ghost view = { λ t. record { count = length t.places.items; names = t.names } };

    ghost invariant = { λ t. IsIndexed t.places.items t.names };
}

impl Table {
    /// An empty table of names below the count.
    pub(crate) fn new(alloc: Global, count: u32) -> Result<Table, AllocError>
        requires { count ≤ most }
        ensures { IfOk result (λ table. table ≡ no_names count) }
    {
        Ok(Table {
            places: vec![in alloc; 0; count as usize]?,
            names: List::new(alloc),
        })
    }

    /// Whether the name is that of an instance.
    fn has(&self, name: u32) -> bool
        ensures { result ≡ nat_lt name self.now.count }
    {
        (name as usize) < self.places.len()
    }

    /// Where the name stands; past the end where it does not.
    fn place(&self, name: u32) -> usize
        ensures place { result ≡ place self.now.names name }
        ensures within { result ≤ length self.now.names }
        ensures few { result + 1 < 2 ^ 31 }
    {
        let at = at_or_first(self.places.as_slice(), name as usize);
        place_at(self.names.as_slice(), name, at as usize)
    }

    /// Lists a name last, where it is new.
    fn list(&mut self, name: u32) -> Result<(), AllocError>
        requires { name < self.old.count }
        ensures { OnOk result (self.new ≡ also name self.old) }
    {
        let at = self.names.len();
        if self.place(name) < at {
            return Ok(());
        }
        self.names.push(name)?;
        self.places[name as usize] = at as u32;
        Ok(())
    }

    /// Takes the names out, so that the table is empty.
    pub(crate) fn take(&mut self) -> List<u32>
        ensures names { result ≡ self.old.names }
        ensures few { length result < 2 ^ 31 }
        ensures empty { self.new ≡ no_names self.old.count }
    {
        let alloc = *self.places.allocator();
        replace(&mut self.names, List::new(alloc))
    }
}

/// The number at a place, and 0 past the end.
fn at_or_first(places: &[u32], at: usize) -> u32
    ensures { result ≡ slice_index_or places.now at 0 }
{
    places.get(at).copied().unwrap_or(0)
}

/// The place, if the name stands there; else the place past the end.
fn place_at(names: &[u32], name: u32, at: usize) -> usize
    ensures { result ≡ place_at names.now name at }
{
    match names.get(at) {
        Some(other) if *other == name => at,
        _ => names.len(),
    }
}

impl PutPort for Table {
    ghost put = { place_put };

    ghost room = { λ l. 0 };

    fn put_ref(&mut self, out: &mut Vec<u8>, name: Option<u32>) -> Result<Option<u32>, AllocError> {
        match name {
            Some(name) if self.has(name) => {
                self.list(name)?;
                put_size(out, self.place(name) as u32 + 1)?;
            }
            _ => put_size(out, 0)?,
        }
        Ok(None)
    }
}
