//! An endpoint from bytes. (Ice manual, "Data Encoding for Proxies".)

ghost use Rattle.ice_prims.specs.Taking.{GivesUnlessMemory};
ghost use Rattle.ice_encoding.specs.Bounds.{filled};
ghost use Rattle.ice_encoding.specs.Endpoint as form;
ghost use Rattle.encaps_optionals.specs.ProxyAnswers.{ReadsPart};

use crate::ending::end;
use crate::size::claimed_size;
use crate::take::take_version;
use ice_encoding::{SIZE_BYTES, SMALLEST};
use ice_prims::{Cursor, ReadFault};
use ice_types::{Bytes, Endpoint, Name};
use std::alloc::Global;

/// An endpoint: its type, and what it says in a bound of its own.
pub fn take_endpoint(alloc: Global, cursor: &mut Cursor<'_>) -> Result<Endpoint, ReadFault>
    ensures { ReadsPart result cursor.new (form.endpoint.read cursor.old) }
{
    let kind = cursor.take_short()?;
    let place = cursor.place();
    let left = cursor.left();
    let claim = cursor.take_int()?;
    let size = claimed_size(place, left, SMALLEST, claim)?;
    let mut bound = cursor.split(size - SIZE_BYTES)?;
    take_said(alloc, kind, &mut bound)
}

/// What an endpoint of this type says in its bound: a version, and what goes by it.
fn take_said(alloc: Global, kind: i16, cursor: &mut Cursor<'_>) -> Result<Endpoint, ReadFault>
    ensures { GivesUnlessMemory (λ e. e) result ((form.said kind).read cursor.old) }
{
    let (major, minor) = take_version(cursor)?;
    if kind == 1 && major == 1 && minor == 1 {
        return take_whole_tcp(alloc, cursor);
    }
    let bytes = cursor.take_bytes(cursor.left())?;
    Ok(Endpoint::Opaque {
        kind,
        major,
        minor,
        bytes: Bytes::from_vec(Vec::from_slice(alloc, bytes)?),
    })
}

/// TCP, which fills its bound.
fn take_whole_tcp(alloc: Global, cursor: &mut Cursor<'_>) -> Result<Endpoint, ReadFault>
    ensures { GivesUnlessMemory (λ e. e) result (filled form.tcp.read cursor.old) }
{
    let tcp = take_tcp(alloc, cursor)?;
    end(cursor)?;
    Ok(tcp)
}

/// TCP: host, port, timeout, and whether it compresses.
fn take_tcp(alloc: Global, cursor: &mut Cursor<'_>) -> Result<Endpoint, ReadFault>
    ensures { ReadsPart result cursor.new (form.tcp.read cursor.old) }
{
    let host = cursor.take_str()?;
    let port = cursor.take_int()?;
    let timeout = cursor.take_int()?;
    let compress = cursor.take_bool()?;
    Ok(Endpoint::Tcp {
        host: Name::of(alloc, host)?,
        port,
        timeout,
        compress,
    })
}
