//! Endpoints. (Ice manual, "Endpoint Syntax".)

ghost use Rattle.std.specs.Prelude.{◌≡◌, [], IfOk};
ghost use Rattle.ice_proxy.specs.Options.{listed};
ghost use Rattle.ice_proxy.specs.Grammar.{not_tcp, or, tcp_of, transports};
ghost use Rattle.ice_proxy.specs.Grammar.{endpoint_at, endpoint_by, endpoints_at, opaque_at};
ghost use Rattle.ice_proxy.specs.Telling.{ReadsWords, Tells};

use crate::fault::TextFault;
use crate::taking::{
    place_of, take_bytes, take_colon, take_exactly, take_short, take_transport, take_version,
};
use crate::tcp::{TcpOptions, take_tcp_options};
use crate::words::Words;
use ice_types::{Endpoint, List, Name};
use std::alloc::{AllocError, Global};

/// How an endpoint is reached.
#[derive(Clone, Copy)]
pub enum Transport {
    Tcp,
    Opaque,
}

/// Which transport the word names, None where it names none.
pub fn transport_of(word: &[u8]) -> Option<Transport>
    ensures { result ≡ listed transports word.now }
{
    if word == b"tcp".as_slice() || word == b"default".as_slice() {
        Some(Transport::Tcp)
    } else if word == b"opaque".as_slice() {
        Some(Transport::Opaque)
    } else {
        None
    }
}

/// The text, or the empty one where none stands.
pub fn or_empty(alloc: Global, text: Option<Name>) -> Result<Name, AllocError>
    ensures { IfOk result (λ name. name ≡ or text []) }
{
    match text {
        Some(text) => Ok(text),
        None => Name::of(alloc, ""),
    }
}

/// An endpoint of TCP with these options, and with what stands for those that are left out.
fn tcp_of(alloc: Global, options: TcpOptions) -> Result<Endpoint, AllocError>
    ensures { IfOk result (λ endpoint. endpoint ≡ tcp_of options) }
{
    Ok(Endpoint::Tcp {
        host: or_empty(alloc, options.host)?,
        port: options.port.unwrap_or(0),
        timeout: options.timeout.unwrap_or(60_000),
        compress: options.compress,
    })
}

/// That the type and the version are not those of TCP, which is not spelled so.
fn not_tcp(place: u32, kind: i16, version: (u8, u8)) -> Result<(), TextFault>
    ensures { Tells result (not_tcp place kind version) }
{
    if kind == 1 && version == (1, 1) {
        Err(TextFault::Broken { place })
    } else {
        Ok(())
    }
}

/// Type, version and content of another transport, in this order.
fn take_opaque(alloc: Global, words: &mut Words<'_>) -> Result<Endpoint, TextFault>
    ensures { ReadsWords result words.new (opaque_at words.old) }
{
    take_exactly(b"-t", words)?;
    let place = place_of(words);
    let kind = take_short(words)?;
    take_exactly(b"-e", words)?;
    let (major, minor) = take_version(words)?;
    not_tcp(place, kind, (major, minor))?;
    take_exactly(b"-x", words)?;
    let bytes = take_bytes(alloc, words)?;
    Ok(Endpoint::Opaque {
        kind,
        major,
        minor,
        bytes,
    })
}

/// What stands behind the name of a transport.
fn take_by(
    alloc: Global,
    transport: Transport,
    words: &mut Words<'_>,
) -> Result<Endpoint, TextFault>
    ensures { ReadsWords result words.new (endpoint_by transport words.old) }
{
    match transport {
        Transport::Tcp => {
            let options = take_tcp_options(alloc, words)?;
            Ok(tcp_of(alloc, options)?)
        }
        Transport::Opaque => take_opaque(alloc, words),
    }
}

fn take_endpoint(alloc: Global, words: &mut Words<'_>) -> Result<Endpoint, TextFault>
    ensures { ReadsWords result words.new (endpoint_at words.old) }
{
    let transport = take_transport(words)?;
    take_by(alloc, transport, words)
}

/// Endpoints, each behind `:`, up to the end of the text.
pub fn take_endpoints(alloc: Global, words: &mut Words<'_>) -> Result<List<Endpoint>, TextFault>
    ensures { Tells result (endpoints_at words.old) }
{
    let mut endpoints = List::new(alloc);
    while take_colon(words)? {
        let endpoint = take_endpoint(alloc, words)?;
        endpoints.push(endpoint)?;
    }
    Ok(endpoints)
}
