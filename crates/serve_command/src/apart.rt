//! Whether the words name each object, and each place, once.

ghost use Rattle.std.specs.Prelude.{◌≡◌, ◌↔◌, IsTrue, IfOk, Some, []};
ghost use Rattle.ice_proxy.specs.IdentityText.{identity_text};
ghost use Rattle.std.specs.List.{AllByRecursion};
ghost use Rattle.node_commands.specs.Words.{IsWord};
ghost use Rattle.serve_command.specs.declared.apart.Named.TheVariants as names;
ghost use Rattle.serve_command.specs.ObjectWords.{AreApart, AreShort, named, named_by, object_of};
ghost use Rattle.serve_command.specs.Words.{objects_of};
ghost use Rattle.serve_command.specs.Reading.{Holds, read};

use crate::object_words::ObjectWord;
use ice_proxy::{TextFault, parse_identity};
use ice_types::{Identity, Name};
use std::alloc::{AllocError, Global};

/// What a word names: an object, the place of an object, or the place of an adapter.
#[derive(Drop)]
pub(crate) enum Named {
    Object(Identity),
    Place(Identity),
    Adapter(Name),
}

/// Whether no two words name the same.
pub(crate) fn are_apart(alloc: Global, objects: &[ObjectWord<'_>]) -> Result<bool, AllocError>
    requires { AllByRecursion AreShort (objects_of objects.now) }
    ensures { IfOk result (λ apart. IsTrue apart ↔ AreApart (objects_of objects.now)) }
{
    let mut names = Vec::new(alloc);
    let apart = name_all(alloc, objects, &mut names);
    drop(names);
    apart
}

/// Gathers what the words name. Whether no two of them name the same.
fn name_all(
    alloc: Global,
    objects: &[ObjectWord<'_>],
    names: &mut Vec<Option<Named>>,
) -> Result<bool, AllocError>
    requires short { AllByRecursion AreShort (objects_of objects.now) }
    requires none { names.old.items ≡ [] }
    ensures { IfOk result (λ apart. IsTrue apart ↔ AreApart (objects_of objects.now)) }
{
    for object in objects {
        let named = named_by(alloc, object)?;
        if holds(names.as_slice(), &named) {
            drop(named);
            return Ok(false);
        }
        names.push(named)?;
    }
    Ok(true)
}

/// What the word names, None where its text of an identity stands for none.
fn named_by(alloc: Global, object: &ObjectWord<'_>) -> Result<Option<Named>, AllocError>
    requires { AreShort (object_of object.now) }
    ensures { IfOk result (λ named. named ≡ named_by (object_of object.now)) }
{
    match object {
        ObjectWord::Store { identity, .. }
        | ObjectWord::Echo { identity, .. }
        | ObjectWord::Locator { identity } => object_named(alloc, identity),
        ObjectWord::Place { identity, .. } => place_named(alloc, identity),
        ObjectWord::Adapter { id, .. } => Ok(Some(Named::Adapter(Name::of(alloc, id)?))),
    }
}

/// The object of the identity that the text stands for, None where it stands for none.
fn object_named(alloc: Global, text: &str) -> Result<Option<Named>, AllocError>
    requires { IsWord text.now }
    ensures { IfOk result (λ name. name ≡ named names.Object (identity_text text.now)) }
{
    Ok(identity_of(alloc, text)?.map(Named::Object))
}

/// The place of the identity that the text stands for, None where it stands for none.
fn place_named(alloc: Global, text: &str) -> Result<Option<Named>, AllocError>
    requires { IsWord text.now }
    ensures { IfOk result (λ name. name ≡ named names.Place (identity_text text.now)) }
{
    Ok(identity_of(alloc, text)?.map(Named::Place))
}

/// The identity that the text stands for, None where it stands for none.
fn identity_of(alloc: Global, text: &str) -> Result<Option<Identity>, AllocError>
    requires { IsWord text.now }
    ensures { IfOk result (λ identity. identity ≡ read (identity_text text.now)) }
{
    match parse_identity(alloc, text) {
        Ok(identity) => Ok(Some(identity)),
        Err(TextFault::Broken { .. }) => Ok(None),
        Err(TextFault::Memory) => Err(AllocError),
    }
}

/// Whether the name is one, and one of these.
fn holds(names: &[Option<Named>], name: &Option<Named>) -> bool
    ensures { IsTrue result ↔ Holds names.now name.now }
{
    match name {
        Some(name) => names.iter().any(|other| is_named(other, name)),
        None => false,
    }
}

/// Whether it is this name.
fn is_named(other: &Option<Named>, name: &Named) -> bool
    ensures { IsTrue result ↔ (other.now ≡ Some name.now) }
{
    match other {
        Some(other) => are_one(other, name),
        None => false,
    }
}

/// Whether both are the same.
fn are_one(one: &Named, other: &Named) -> bool
    ensures { IsTrue result ↔ (one.now ≡ other.now) }
{
    match (one, other) {
        (Named::Object(one), Named::Object(other)) => is_same(one, other),
        (Named::Place(one), Named::Place(other)) => is_same(one, other),
        (Named::Adapter(one), Named::Adapter(other)) => one.as_str() == other.as_str(),
        _ => false,
    }
}

/// Whether it is the same identity.
fn is_same(one: &Identity, other: &Identity) -> bool
    ensures { IsTrue result ↔ (one.now ≡ other.now) }
{
    one.name.as_str() == other.name.as_str() && one.category.as_str() == other.category.as_str()
}
