//! The places that locators know.

ghost use Rattle.std.specs.Prelude.{◌≡◌, ◌<◌, ℕ, Some, IfErr, IfOk, IsOk, OnOk, length};
ghost use Rattle.object_adapter.specs.declared.add_fault.AddFault.TheVariants as add_faults;
ghost use Rattle.object_adapter.specs.declared.places.TheConstants.{MOST_PLACES};
ghost use Rattle.object_adapter.specs.Places.{no_places};
ghost use Rattle.serve_command.specs.declared.apart.Named.{Named};
ghost use Rattle.serve_command.specs.ObjectWords.{AreShort, named_by, object_of};
ghost use Rattle.serve_command.specs.Words.{objects_of};
ghost use Rattle.serve_command.specs.Adapters.{ArePlacesOf, Breaks, Puts};
ghost use Rattle.serve_command.specs.Steps.{AreSound, IsPlaceOf, IsStarved};

use crate::object_words::ObjectWord;
use crate::texts::{identity_of, proxy_of};
use ice_types::Name;
use node_commands::Outcome;
use object_adapter::{AddFault, Places};
use std::alloc::Global;

/// The places of the words.
pub(crate) fn places_of(
    alloc: Global,
    objects: &[ObjectWord<'_>],
) -> Result<Places, Outcome<'static>>
    requires words { AreSound (objects_of objects.now) }
    ensures ok { IfOk result (ArePlacesOf (objects_of objects.now)) }
    ensures err { IsStarved result }
{
    let mut places = Places::new(alloc);
    match put_all(alloc, objects, &mut places) {
        Ok(()) => Ok(places),
        Err(outcome) => {
            drop(places);
            Err(outcome)
        }
    }
}

/// Adds the places of the words.
fn put_all(
    alloc: Global,
    objects: &[ObjectWord<'_>],
    places: &mut Places,
) -> Result<(), Outcome<'static>>
    requires words { AreSound (objects_of objects.now) }
    requires none { places.old ≡ no_places }
    ensures ok { OnOk result (ArePlacesOf (objects_of objects.now) places.new) }
    ensures err { IsStarved result }
{
    for object in objects {
        put_place(alloc, object, places)?;
    }
    Ok(())
}

/// Adds the place of the word, where it has one.
fn put_place(
    alloc: Global,
    object: &ObjectWord<'_>,
    places: &mut Places,
) -> Result<(), Outcome<'static>>
    requires short { AreShort (object_of object.now) }
    requires reads { (at : ℕ) → Breaks (object_of object.now) at → ⊥ }
    requires new { (name : Named) → named_by (object_of object.now) ≡ Some name → IsPlaceOf places.old name → ⊥ }
    requires room { (length places.old.objects < MOST_PLACES) × (length places.old.adapters < MOST_PLACES) }
    ensures ok { OnOk result (Puts (object_of object.now) places.old places.new) }
    ensures err { IsStarved result }
{
    match object {
        ObjectWord::Place { identity, proxy } => {
            let identity = identity_of(alloc, identity)?;
            let proxy = proxy_of(alloc, proxy)?;
            added(places.add_object(identity, proxy))
        }
        ObjectWord::Adapter { id, proxy } => {
            let id = Name::of(alloc, id)?;
            let proxy = proxy_of(alloc, proxy)?;
            added(places.add_adapter(id, proxy))
        }
        ObjectWord::Store { .. } | ObjectWord::Echo { .. } | ObjectWord::Locator { .. } => Ok(()),
    }
}

/// What comes of adding one that is apart from the others, of which there are few.
pub(crate) fn added(adding: Result<(), AddFault>) -> Result<(), Outcome<'static>>
    requires { IfErr adding (λ fault. fault ≡ add_faults.Memory) }
    ensures ok { OnOk result (IsOk adding) }
    ensures err { IsStarved result }
{
    match adding {
        Ok(()) => Ok(()),
        Err(AddFault::Memory) => Err(Outcome::Memory),
        Err(AddFault::Twice | AddFault::Full) => unreachable!(),
    }
}
