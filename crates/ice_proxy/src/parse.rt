//! The text of a proxy is read. (Ice manual, "Proxy and Endpoint Syntax".)

ghost use Rattle.std.specs.Prelude.{◌≡◌, ◌<◌, ◌^◌, IfOk, length};
ghost use Rattle.ice_proxy.specs.Grammar.{location_at, proxy_of, proxy_text};
ghost use Rattle.ice_proxy.specs.Telling.{Tells};

use crate::endpoints::{or_empty, take_endpoints};
use crate::fault::TextFault;
use crate::options::{Options, take_options};
use crate::taking::{at_ahead, take_end, take_identity, take_text};
use crate::words::Words;
use ice_types::{Endpoint, Identity, List, Name, Proxy};
use std::alloc::{AllocError, Global};

/// Endpoints, or an adapter.
type Location = (List<Endpoint>, Name);

/// The proxy that the text is. `Broken` has the place of the first word, `:` or `@` that cannot
/// stand, or the length of a text that lacks something at its end. (Ice manual, "Proxy and Endpoint
/// Syntax".)
pub fn parse_text(alloc: Global, text: &str) -> Result<Proxy, TextFault>
    requires { length text.now < 2 ^ 32 }
    ensures { Tells result (proxy_text text.now) }
{
    let mut words = Words::new(text);
    let identity = take_identity(alloc, &mut words)?;
    let options = take_options(alloc, &mut words)?;
    let location = take_location(alloc, &mut words)?;
    Ok(proxy_of(alloc, identity, options, location)?)
}

/// An adapter behind `@`, or endpoints, or nothing, up to the end of the text.
fn take_location(alloc: Global, words: &mut Words<'_>) -> Result<Location, TextFault>
    ensures { Tells result (location_at words.old) }
{
    match at_ahead(words) {
        Some(mut behind) => {
            let adapter = take_text(alloc, &mut behind)?;
            take_end(&mut behind)?;
            Ok((List::new(alloc), adapter))
        }
        None => {
            let endpoints = take_endpoints(alloc, words)?;
            Ok((endpoints, Name::of(alloc, "")?))
        }
    }
}

/// A proxy, with what stands for the options that are left out.
fn proxy_of(
    alloc: Global,
    identity: Identity,
    options: Options,
    location: Location,
) -> Result<Proxy, AllocError>
    ensures { IfOk result (λ proxy. proxy ≡ proxy_of identity options location) }
{
    Ok(Proxy {
        identity,
        facet: or_empty(alloc, options.facet)?,
        mode: options.mode.unwrap_or(0),
        secure: options.secure,
        protocol: options.protocol.unwrap_or((1, 0)),
        encoding: options.encoding.unwrap_or((1, 1)),
        endpoints: location.0,
        adapter: location.1,
    })
}
