//! The objects of the words.

ghost use Rattle.std.specs.Prelude.{◌≡◌, ◌<◌, ℕ, List, [], Some, Ok, Err, IfOk, OnOk, length};
ghost use Rattle.std.specs.List.{AllByRecursion};
ghost use Rattle.std.specs.Arc.{arc_value};
ghost use Rattle.ice_types.specs.declared.identity.Identity.{Identity};
ghost use Rattle.ice_proxy.specs.IdentityText.{identity_text};
ghost use Rattle.object_adapter.specs.Adapters.{HasKey};
ghost use Rattle.object_adapter.specs.Objects.{no_objects};
ghost use Rattle.object_adapter.specs.declared.keys.TheConstants.{MOST_OBJECTS};
ghost use Rattle.node_commands.specs.Words.{IsWord, Word};
ghost use Rattle.serve_command.specs.declared.apart.Named.{Named};
ghost use Rattle.serve_command.specs.ObjectWords.{AreShort, named_by, object_of};
ghost use Rattle.serve_command.specs.Words.{ServeForm, command_of, objects_of};
ghost use Rattle.serve_command.specs.Adapters.{AddsOne, Breaks, IsAdapter, LacksInterface, Makes, Never};
ghost use Rattle.serve_command.specs.Adapters.{IsEchoOf, IsLocatorOf, IsStoreOf};
ghost use Rattle.serve_command.specs.Steps.{AreSound, ChecksAll, IsInterfaced, IsObjectOf, IsStarved, MakesLanes};
ghost use Rattle.serve_command.specs.Steps.{NamesInterface};

use crate::names::{interface_of, name_all};
use crate::object_words::ObjectWord;
use crate::places::{added, places_of};
use crate::texts::{identity_of, read_all};
use crate::words::ServeCommand;
use dispatch_pool::{LanePasses, Lanes};
use ice_ports::Shelf;
use ice_types::{Identity, Name, Schema};
use node_commands::{Outcome, load_schema};
use object_adapter::{Adapter, Servant};
use std::alloc::Global;
use std::sync::Arc;

/// The objects of the words, each in a lane of its own, and the first passes of them; or why there are none.
pub(crate) fn lanes_of<'a, H: Shelf>(
    alloc: Global,
    command: &ServeCommand<'a>,
    shelf: &mut H,
) -> Result<(Lanes, LanePasses), Outcome<'a>>
    requires { (words : List Word) × ServeForm words (command_of command.now) }
    ensures { MakesLanes (command_of command.now) (H.files shelf.old)
        (H.failures shelf.old) (H.failures shelf.new) result }
{
    let objects = command.objects.as_slice();
    let schema = load_schema(alloc, command.file, shelf)?;
    match check_all(alloc, &schema, objects) {
        Ok(()) => {
            let adapter = adapter_of(alloc, schema, objects)?;
            Ok(Lanes::new(alloc, adapter)?)
        }
        Err(outcome) => {
            drop(schema);
            Err(outcome)
        }
    }
}

/// Refuses the first word whose INTERFACE names no interface of the schema, and then the first text that stands for
/// nothing.
fn check_all<'a>(
    alloc: Global,
    schema: &Schema,
    objects: &[ObjectWord<'a>],
) -> Result<(), Outcome<'a>>
    requires { AllByRecursion AreShort (objects_of objects.now) }
    ensures { ChecksAll schema.now (objects_of objects.now) result }
{
    name_all(schema, objects)?;
    read_all(alloc, objects)
}

/// The adapter with the objects of the words.
fn adapter_of<'a>(
    alloc: Global,
    schema: Schema,
    objects: &[ObjectWord<'a>],
) -> Result<Adapter, Outcome<'a>>
    requires words { AreSound (objects_of objects.now) }
    requires names { Never (LacksInterface schema) (objects_of objects.now) }
    ensures ok { IfOk result (IsAdapter schema (objects_of objects.now)) }
    ensures err { IsStarved result }
{
    let schema = match Arc::new(alloc, schema) {
        Ok(schema) => schema,
        Err(failed) => {
            drop(failed);
            return Err(Outcome::Memory);
        }
    };
    let mut adapter = Adapter::new(alloc);
    let put = put_all(alloc, &schema, objects, &mut adapter);
    drop(schema);
    match put {
        Ok(()) => Ok(adapter),
        Err(outcome) => {
            drop(adapter);
            Err(outcome)
        }
    }
}

/// Adds the objects of the words.
fn put_all<'a>(
    alloc: Global,
    schema: &Arc<Schema>,
    objects: &[ObjectWord<'a>],
    adapter: &mut Adapter,
) -> Result<(), Outcome<'a>>
    requires words { AreSound (objects_of objects.now) }
    requires names { Never (LacksInterface (arc_value schema.now)) (objects_of objects.now) }
    requires none { adapter.old ≡ no_objects }
    ensures ok { OnOk result (IsAdapter (arc_value schema.now) (objects_of objects.now) adapter.new) }
    ensures err { IsStarved result }
{
    for object in objects {
        put_object(alloc, schema, objects, object, adapter)?;
    }
    Ok(())
}

/// Adds the object of the word, where it asks for one.
fn put_object<'a>(
    alloc: Global,
    schema: &Arc<Schema>,
    objects: &[ObjectWord<'a>],
    object: &ObjectWord<'a>,
    adapter: &mut Adapter,
) -> Result<(), Outcome<'a>>
    requires words { AreSound (objects_of objects.now) }
    requires short { AreShort (object_of object.now) }
    requires names { IsInterfaced (arc_value schema.now) (object_of object.now) }
    requires reads { (at : ℕ) → Breaks (object_of object.now) at → ⊥ }
    requires new { (name : Named) → named_by (object_of object.now) ≡ Some name → IsObjectOf adapter.old name → ⊥ }
    requires room { length adapter.old.keys < MOST_OBJECTS }
    ensures ok { OnOk result (Makes (arc_value schema.now) (objects_of objects.now) (object_of object.now)
        adapter.old adapter.new) }
    ensures err { IsStarved result }
{
    match object {
        ObjectWord::Store {
            identity,
            interface,
        } => {
            let servant = store_of(alloc, schema, interface)?;
            add_one(alloc, identity, servant, adapter)
        }
        ObjectWord::Echo {
            identity,
            interface,
        } => {
            let servant = echo_of(schema, interface)?;
            add_one(alloc, identity, servant, adapter)
        }
        ObjectWord::Locator { identity } => {
            let servant = locator_of(alloc, objects)?;
            add_one(alloc, identity, servant, adapter)
        }
        ObjectWord::Place { .. } | ObjectWord::Adapter { .. } => Ok(()),
    }
}

/// A store of the interface that the word names.
fn store_of<'a>(
    alloc: Global,
    schema: &Arc<Schema>,
    interface: &'a str,
) -> Result<Servant, Outcome<'a>>
    requires { NamesInterface (arc_value schema.now) interface.now }
    ensures ok { IfOk result (IsStoreOf (arc_value schema.now) interface.now) }
    ensures err { IsStarved result }
{
    let at = interface_of(schema, interface)?;
    Ok(Servant::store(alloc, Arc::clone(schema)?, at)?)
}

/// An echo of the interface that the word names.
fn echo_of<'a>(schema: &Arc<Schema>, interface: &'a str) -> Result<Servant, Outcome<'a>>
    requires { NamesInterface (arc_value schema.now) interface.now }
    ensures ok { IfOk result (IsEchoOf (arc_value schema.now) interface.now) }
    ensures err { IsStarved result }
{
    let at = interface_of(schema, interface)?;
    Ok(Servant::echo(Arc::clone(schema)?, at))
}

/// A locator that knows the places of the words.
fn locator_of(alloc: Global, objects: &[ObjectWord<'_>]) -> Result<Servant, Outcome<'static>>
    requires { AreSound (objects_of objects.now) }
    ensures ok { IfOk result (IsLocatorOf (objects_of objects.now)) }
    ensures err { IsStarved result }
{
    let places = places_of(alloc, objects)?;
    Ok(Servant::locator(alloc, places)?)
}

/// Adds the object under the identity that the text stands for, and no facet.
fn add_one(
    alloc: Global,
    text: &str,
    servant: Servant,
    adapter: &mut Adapter,
) -> Result<(), Outcome<'static>>
    requires short { IsWord text.now }
    requires reads { (at : ℕ) → identity_text text.now ≡ Err at → ⊥ }
    requires new { (identity : Identity) → identity_text text.now ≡ Ok identity
        → HasKey adapter.old.keys (identity, []) → ⊥ }
    requires room { length adapter.old.keys < MOST_OBJECTS }
    ensures ok { OnOk result (AddsOne text.now (λ s. s ≡ servant) adapter.old adapter.new) }
    ensures err { IsStarved result }
{
    match key_of(alloc, text) {
        Ok((identity, facet)) => added(adapter.add(identity, facet, servant)),
        Err(outcome) => {
            drop(servant);
            Err(outcome)
        }
    }
}

/// The identity that the text stands for, and no facet.
fn key_of(alloc: Global, text: &str) -> Result<(Identity, Name), Outcome<'static>>
    requires short { IsWord text.now }
    requires reads { (at : ℕ) → identity_text text.now ≡ Err at → ⊥ }
    ensures ok { IfOk result (λ key. (identity_text text.now ≡ Ok key.0) × (key.1 ≡ [])) }
    ensures err { IsStarved result }
{
    let identity = identity_of(alloc, text)?;
    match Name::of(alloc, "") {
        Ok(facet) => Ok((identity, facet)),
        Err(_) => {
            drop(identity);
            Err(Outcome::Memory)
        }
    }
}
