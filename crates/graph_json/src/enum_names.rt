//! Enumerators by their names.

ghost use Rattle.std.specs.Prelude.{◌≡◌};
ghost use Rattle.ice_types.specs.Fits.{EnumFits};
ghost use Rattle.graph_json.specs.ReadingValues as spec;

use ice_types::{Entry, Schema};
use std::alloc::{AllocError, Global};

/// An enum of so few enumerators is gone through.
const FEW: usize = 16;

/// For each enum of a schema that has many enumerators, their places by rising name. These are hints: what stands at a
/// place is looked at before it is answered.
#[derive(Drop)]
pub(crate) struct EnumNames {
    places: Vec<Vec<usize>>,
}

impl EnumNames {
    /// Those of no enum: each is gone through.
    pub(crate) fn none(alloc: Global) -> EnumNames {
        EnumNames {
            places: Vec::new(alloc),
        }
    }

    /// Those of each enum of the schema.
    pub(crate) fn of(alloc: Global, schema: &Schema) -> Result<EnumNames, AllocError> {
        let mut places = Vec::new(alloc);
        for decl in schema.enums().as_slice() {
            places.push(places_by_name(alloc, decl.entries.as_slice())?)?;
        }
        Ok(EnumNames { places })
    }

    /// Where the enumerator of this name stands in the enum at a place of the schema's table, if it has one.
    fn likely_place(&self, at: u32, entries: &[Entry], name: &str) -> usize {
        match self.places.get(at as usize) {
            Some(places) => place_named(places.as_slice(), entries, name),
            None => 0,
        }
    }
}

/// The places of the entries by rising name, none of few entries.
fn places_by_name(alloc: Global, entries: &[Entry]) -> Result<Vec<usize>, AllocError> {
    let mut places = Vec::new(alloc);
    if entries.len() > FEW {
        for place in 0..entries.len() {
            places.push(place)?;
        }
        places.sort_by_cached_key(|place| name_at(entries, *place))?;
    }
    Ok(places)
}

/// The one of the places at which the name stands, if these are by rising name.
fn place_named(places: &[usize], entries: &[Entry], name: &str) -> usize {
    let before = places.partition_point(|place| name_at(entries, *place) < name);
    match places.get(before) {
        Some(place) => *place,
        None => 0,
    }
}

/// The name of the entry at a place, an empty one where none is.
fn name_at(entries: &[Entry], place: usize) -> &str {
    match entries.get(place) {
        Some(entry) => entry.name.as_str(),
        None => "",
    }
}

/// The number of the enumerator with this name in the enum at a place of the schema's table, None where there is none.
pub(crate) fn number_named(names: &EnumNames, at: u32, entries: &[Entry], name: &str) -> Option<u32>
    requires { EnumFits entries.now }
    ensures { result ≡ spec.number_named name.now entries.now }
{
    if let Some(entry) = entries.get(names.likely_place(at, entries, name))
        && entry.name.as_str() == name
    {
        return Some(entry.number);
    }
    first_named(entries, name)
}

fn first_named(entries: &[Entry], name: &str) -> Option<u32>
    ensures { result ≡ spec.number_named name.now entries.now }
{
    for entry in entries {
        if entry.name.as_str() == name {
            return Some(entry.number);
        }
    }
    None
}
