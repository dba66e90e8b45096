//! What reading remembers: the instances that have begun, the type ids that stood as texts, and the
//! references that were met.

ghost use Rattle.std.specs.Prelude.{◌≡◌, ◌∷◌, ◌++◌, [], length, map, slice_get, OnOk};
ghost use Rattle.std.specs.Option.{option_map};
ghost use Rattle.ice_encoding.specs.References.{opening, entry_in, met_at, replaced, resolved, with_begun, with_ended};
ghost use Rattle.ice_encoding.specs.References.{with_met};
ghost use Rattle.ice_encoding.specs.TypeIds.{with_id};
ghost use Rattle.graph_arena.specs.Seen.{view_instance, view_slice};
ghost use Rattle.slice_heads.specs.Seen.{view_reference, view_references};
ghost use Rattle.slice_heads.specs.Fitting.{Fits};

use crate::fitting::misfit;
use graph_arena::{Instance, Slice};
use ice_prims::{Cursor, Fault, Kind, ReadFault};
use ice_types::{List, Schema};
use std::alloc::{AllocError, Global};
use std::marker::Model;
use value_parts::{Met, RefPort};

/// How many instances begin at most in one encapsulation.
pub const MOST_INSTANCES: u32 = 100_000;

/// A reference that is not null.
#[derive(Clone, Copy)]
pub struct Reference {
    /// The place of its first byte.
    pub place: u64,
    /// The place of the class that is declared where it stands, None where any class may stand.
    pub declared: Option<u32>,
    /// The instance's name, or in a sized slice its place in the slice's table.
    pub name: u32,
}

/// The instances that have begun, each named by its place, without slices until it ends.
#[derive(Drop)]
pub struct Arena<'a> {
    instances: Vec<Instance>,
    ids: Vec<&'a str>,
    met: Vec<Reference>,
}

impl<'a> Model for Arena<'a> {
    ghost use Rattle.std.specs.Prelude.{ℕ, map};
    ghost use Rattle.ice_encoding.specs.References.{State};
    ghost use Rattle.graph_arena.specs.Seen.{view_instance};
    ghost use Rattle.slice_heads.specs.Seen.{state_code, view_references};

    ghost Value = { State ℕ };

    ghost coded = { state_code };

    ghost view = { λ a. record {
      instances = map view_instance a.instances.items;
      ids = map (λ id. id.now) a.ids.items;
      met = view_references a.met.items;
    } };
}

impl<'a> Arena<'a> {
    /// Nothing was read.
    pub fn new(alloc: Global) -> Arena<'a>
        ensures { result ≡ opening }
    {
        Arena {
            instances: Vec::new(alloc),
            ids: Vec::new(alloc),
            met: Vec::new(alloc),
        }
    }

    /// How many instances have begun.
    pub(crate) fn len(&self) -> usize
        ensures { result ≡ length self.now.instances }
    {
        self.instances.len()
    }

    /// A reference to an instance that has begun was met.
    fn meet(&mut self, reference: Reference) -> Result<(), AllocError>
        ensures { OnOk result (self.new ≡ with_met (view_reference reference ∷ []) self.old) }
    {
        self.met.push(reference)?;
        Ok(())
    }

    /// The references of a slice are known, with the names that its table has at their places.
    pub fn meet_all(&mut self, uses: &[Reference], table: &[u32]) -> Result<(), AllocError>
        ensures { OnOk result (self.new ≡ with_met (resolved table.now (view_references uses.now)) self.old) }
    {
        push_resolved(&mut self.met, uses, table)
    }

    /// One more instance begins, without slices.
    fn reserve(&mut self) -> Result<(), AllocError>
        ensures { OnOk result (self.new ≡ with_begun self.old) }
    {
        let slices = List::new(*self.instances.allocator());
        self.instances.push(Instance { slices })?;
        Ok(())
    }

    /// An instance has ended, and these are its slices.
    pub fn end(&mut self, name: u32, slices: List<Slice>)
        ensures { self.new ≡ with_ended name (map view_slice slices) self.old }
    {
        put_at(&mut self.instances, name, Instance { slices });
    }

    /// Whether the class of each instance fits where it is named; the first reference in the bytes whose
    /// class does not has the fault.
    pub fn all_fit(&self, schema: &Schema) -> Result<(), Fault>
        ensures { Fits schema.now self.now result }
    {
        match misfit(schema, self.instances.as_slice(), self.met.as_slice()) {
            None => Ok(()),
            Some(place) => Err(Fault {
                place,
                kind: Kind::WrongClass,
            }),
        }
    }

    /// The instances.
    pub fn into_instances(self) -> Vec<Instance>
        ensures { map view_instance result.items ≡ self.entry.instances }
    {
        self.instances
    }

    /// A type id stood as a text, which takes the next index.
    pub fn add_id(&mut self, id: &'a str) -> Result<(), AllocError>
        ensures { OnOk result (self.new ≡ with_id id.now self.old) }
    {
        self.ids.push(id)?;
        Ok(())
    }

    /// The type id of an index, counted from 0.
    pub fn id(&self, index: u32) -> Option<&'a str>
        ensures { option_map (λ id. id.now) result ≡ slice_get self.now.ids index }
    {
        self.ids.get(index as usize).copied()
    }
}

/// Appends references by places, with the names that the table has there.
fn push_resolved(
    met: &mut Vec<Reference>,
    uses: &[Reference],
    table: &[u32],
) -> Result<(), AllocError>
    ensures { OnOk result (view_references met.new.items
        ≡ view_references met.old.items ++ resolved table.now (view_references uses.now)) }
{
    for used in uses {
        met.push(resolved(*used, table))?;
    }
    Ok(())
}

/// A reference with the name that the table has at its place.
fn resolved(used: Reference, table: &[u32]) -> Reference
    ensures { view_reference result ≡ met_at used.place used.declared (entry_in table.now used.name) }
{
    Reference {
        name: table.get(used.name as usize).copied().unwrap_or(0),
        ..used
    }
}

/// Puts an instance at its place, where there is such a place.
fn put_at(instances: &mut Vec<Instance>, at: u32, instance: Instance)
    ensures { instances.new.items ≡ replaced at instance instances.old.items }
{
    let at = at as usize;
    if at < instances.len() {
        instances[at] = instance;
    }
}

impl<'a> RefPort for Arena<'a> {
    ghost use Rattle.ice_encoding.specs.Instances.{most_instances};
    ghost use Rattle.ice_encoding.specs.References.{inline_at};
    ghost use Rattle.std.specs.Prelude.{◌-◌, length};

    ghost take = { inline_at most_instances };

    ghost room = { λ s. most_instances - length s.instances };

    fn take_ref(
        &mut self,
        declared: Option<u32>,
        cursor: &mut Cursor<'_>,
    ) -> Result<Met, ReadFault> {
        let place = cursor.place();
        let too_many = cursor.fault(Kind::TooMany);
        let no_such = cursor.fault(Kind::BadReference);
        let size = cursor.take_size()?;
        if size == 0 {
            return Ok(Met::Known(None));
        }
        let count = self.len();
        if size == 1 {
            if count >= MOST_INSTANCES as usize {
                return Err(ReadFault::Broken(too_many));
            }
            let name = count as u32;
            self.meet(Reference {
                place,
                declared,
                name,
            })?;
            self.reserve()?;
            return Ok(Met::Begins(name));
        }
        let name = size - 2;
        if name as usize >= count {
            return Err(ReadFault::Broken(no_such));
        }
        self.meet(Reference {
            place,
            declared,
            name,
        })?;
        Ok(Met::Known(Some(name)))
    }
}
