//! The texts of identities and proxies in OBJECT words.

ghost use Rattle.std.specs.Prelude.{IfOk, Some};
ghost use Rattle.std.specs.List.{AllByRecursion};
ghost use Rattle.ice_encoding.specs.Proxy.{HasProxySizes};
ghost use Rattle.ice_proxy.specs.Grammar.{proxy_text};
ghost use Rattle.ice_proxy.specs.IdentityText.{identity_text};
ghost use Rattle.node_commands.specs.Words.{IsWord};
ghost use Rattle.serve_command.specs.ObjectWords.{AreShort, object_of};
ghost use Rattle.serve_command.specs.Words.{objects_of};
ghost use Rattle.serve_command.specs.Steps.{ReadsAll, ReadsOne, ReadsText};

use crate::object_words::ObjectWord;
use ice_proxy::{parse_identity, parse_text};
use ice_types::{Identity, Proxy};
use node_commands::Outcome;
use std::alloc::Global;

/// Refuses the first text that stands for no identity or no proxy; in one word the identity comes first.
pub(crate) fn read_all(alloc: Global, objects: &[ObjectWord<'_>]) -> Result<(), Outcome<'static>>
    requires { AllByRecursion AreShort (objects_of objects.now) }
    ensures { ReadsAll (objects_of objects.now) result }
{
    for object in objects {
        read(alloc, object)?;
    }
    Ok(())
}

/// Refuses the word where a text of it stands for nothing.
fn read(alloc: Global, object: &ObjectWord<'_>) -> Result<(), Outcome<'static>>
    requires { AreShort (object_of object.now) }
    ensures { ReadsOne (object_of object.now) result }
{
    match object {
        ObjectWord::Store { identity, .. }
        | ObjectWord::Echo { identity, .. }
        | ObjectWord::Locator { identity } => {
            drop(identity_of(alloc, identity)?);
        }
        ObjectWord::Place { identity, proxy } => {
            drop(identity_of(alloc, identity)?);
            drop(proxy_of(alloc, proxy)?);
        }
        ObjectWord::Adapter { id: _, proxy } => {
            drop(proxy_of(alloc, proxy)?);
        }
    }
    Ok(())
}

/// The identity that the text stands for.
pub(crate) fn identity_of(alloc: Global, text: &str) -> Result<Identity, Outcome<'static>>
    requires { IsWord text.now }
    ensures { ReadsText (identity_text text.now) result }
{
    Ok(parse_identity(alloc, text)?)
}

/// The proxy that the text stands for.
pub(crate) fn proxy_of(alloc: Global, text: &str) -> Result<Proxy, Outcome<'static>>
    requires { IsWord text.now }
    ensures text { ReadsText (proxy_text text.now) result }
    ensures sizes { IfOk result (λ proxy. HasProxySizes (Some proxy)) }
{
    Ok(parse_text(alloc, text)?)
}
