//! The object that is called, and the locator that finds it, by their texts.

ghost use Rattle.std.specs.Prelude.{◌≡◌, IfSome, option_copied, option_map};
ghost use Rattle.ice_proxy.specs.Grammar.{proxy_text};
ghost use Rattle.node_commands.specs.Words.{IsWord};
ghost use Rattle.call_command.specs.Planning as spec;
ghost use Rattle.call_command.specs.Steps.{Parses, ParsesListed};

use crate::ending::Ending;
use ice_proxy::{TextFault, parse_text};
use ice_types::Proxy;
use node_commands::Outcome;
use std::alloc::Global;

/// The object that is called, and who is asked for endpoints where its proxy has none.
#[derive(Drop)]
pub struct Callee {
    pub locator: Option<Proxy>,
    pub proxy: Proxy,
}

/// What both texts say, or the place of the first word that cannot stand in the first text that has one. A proxy for
/// datagrams is in no form of `call`; the mode of a locator's proxy says nothing.
pub(crate) fn callee_of(
    alloc: Global,
    locator: Option<&str>,
    proxy: &str,
) -> Result<Result<Callee, u32>, Ending<'static>>
    requires proxy { IsWord proxy.now }
    requires locator { IfSome (option_copied locator) IsWord }
    ensures { ParsesListed (proxy_text proxy.now)
        (spec.callee_of (option_map proxy_text (option_copied locator.entry)) (proxy_text proxy.now)) result }
{
    let proxy = listed(parsed(alloc, proxy)?)?;
    match located(alloc, locator) {
        Ok(locator) => Ok(both(locator, proxy)),
        Err(ending) => {
            drop(proxy);
            Err(ending)
        }
    }
}

/// The proxy of the text, or the place of the first word that cannot stand.
fn parsed(alloc: Global, text: &str) -> Result<Result<Proxy, u32>, Ending<'static>>
    requires { IsWord text.now }
    ensures { Parses (proxy_text text.now) result }
{
    match parse_text(alloc, text) {
        Ok(proxy) => Ok(Ok(proxy)),
        Err(TextFault::Broken { place }) => Ok(Err(place)),
        Err(TextFault::Memory) => Err(Ending::Refused(Outcome::Memory)),
    }
}

/// The same of a locator, where one is given.
fn located(alloc: Global, text: Option<&str>) -> Result<Option<Result<Proxy, u32>>, Ending<'static>>
    requires { IfSome (option_copied text) IsWord }
    ensures { Parses (option_map proxy_text (option_copied text.entry)) result }
{
    match text {
        Some(text) => Ok(Some(parsed(alloc, text)?)),
        None => Ok(None),
    }
}

/// The proxy, where it is none for datagrams.
fn listed(parsed: Result<Proxy, u32>) -> Result<Result<Proxy, u32>, Ending<'static>>
    ensures { ParsesListed parsed parsed result }
{
    match parsed {
        Ok(proxy) => {
            if proxy.mode > 2 {
                return Err(Ending::Refused(Outcome::Usage));
            }
            Ok(Ok(proxy))
        }
        Err(place) => Ok(Err(place)),
    }
}

/// Both proxies, or the place in the first text that has one.
fn both(locator: Option<Result<Proxy, u32>>, proxy: Result<Proxy, u32>) -> Result<Callee, u32>
    ensures { result ≡ spec.callee_of locator proxy }
{
    match locator {
        Some(Ok(locator)) => with_proxy(Some(locator), proxy),
        Some(Err(place)) => Err(place),
        None => with_proxy(None, proxy),
    }
}

/// The callee, where its proxy was read.
fn with_proxy(locator: Option<Proxy>, proxy: Result<Proxy, u32>) -> Result<Callee, u32>
    ensures { result ≡ spec.with_proxy locator proxy }
{
    match proxy {
        Ok(proxy) => Ok(Callee { locator, proxy }),
        Err(place) => Err(place),
    }
}
