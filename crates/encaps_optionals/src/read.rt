//! A proxy from bytes. (Ice manual, "Data Encoding for Proxies".)

ghost use Rattle.std.specs.Prelude.{◌≡◌, Err, IfOk};
ghost use Rattle.ice_prims.specs.Number.{text_at};
ghost use Rattle.ice_prims.specs.Taking.{TakesUnlessMemory};
ghost use Rattle.ice_encoding.specs.Parts.{made, read_times};
ghost use Rattle.ice_encoding.specs.Endpoint.{endpoint};
ghost use Rattle.ice_encoding.specs.Proxy as form;
ghost use Rattle.encaps_optionals.specs.ProxyAnswers.{ReadsPart, Sees, IsThere};

use crate::facet::facet_text;
use crate::read_endpoint::take_endpoint;
use crate::take::{take_text, take_version};
use ice_prims::{Cursor, Fault, Kind, ReadFault};
use ice_types::{Endpoint, Identity, List, Name, Proxy};
use std::alloc::{AllocError, Global};

/// The proxy at the front, None for null, with the first fault from the left. A refusal leaves the
/// cursor as it was. Memory is taken for what is read, never for what a size merely claims: it can run
/// out only once the name is there.
/// (Ice manual, "Data Encoding for Proxies".)
pub fn read_proxy(alloc: Global, cursor: &mut Cursor<'_>) -> Result<Option<Proxy>, ReadFault>
    ensures proxy { TakesUnlessMemory (λ x. x) result cursor.old cursor.new (form.proxy.read cursor.old) }
    ensures memory { result ≡ Err ReadFault.Memory → IsThere (text_at cursor.old) }
{
    let mut ahead = cursor.fork();
    match take_proxy(alloc, &mut ahead) {
        Ok(proxy) => {
            *cursor = ahead;
            Ok(proxy)
        }
        Err(fault) => Err(fault),
    }
}

/// Reads as `read_proxy` does, but a refusal leaves the cursor somewhere on the way.
fn take_proxy(alloc: Global, cursor: &mut Cursor<'_>) -> Result<Option<Proxy>, ReadFault>
    ensures proxy { ReadsPart result cursor.new (form.proxy.read cursor.old) }
    ensures memory { result ≡ Err ReadFault.Memory → IsThere (text_at cursor.old) }
{
    let wrong = cursor.fault(Kind::BadIdentity);
    let name = cursor.take_str()?;
    let category = cursor.take_str()?;
    if name.is_empty() {
        return if category.is_empty() {
            Ok(None)
        } else {
            Err(ReadFault::Broken(wrong))
        };
    }
    take_details(alloc, name, category, cursor)
}

/// A proxy of this name and category, from what follows them. What takes memory comes last, so that little is
/// let go where a later part is refused.
fn take_details(
    alloc: Global,
    name: &str,
    category: &str,
    cursor: &mut Cursor<'_>,
) -> Result<Option<Proxy>, ReadFault>
    ensures { ReadsPart result cursor.new
        ((made (form.proxy_of (record { name = name.now; category = category.now })) form.details_of form.details).read
        cursor.old) }
{
    let facet = facet_text(cursor)?;
    let mode = take_mode(cursor)?;
    let secure = cursor.take_bool()?;
    let protocol = take_version(cursor)?;
    let encoding = take_version(cursor)?;
    let identity = identity_of(alloc, name, category)?;
    let facet = Name::of(alloc, facet)?;
    let (endpoints, adapter) = take_location(alloc, cursor)?;
    Ok(Some(Proxy {
        identity,
        facet,
        mode,
        secure,
        protocol,
        encoding,
        endpoints,
        adapter,
    }))
}

/// The identity of this name and category.
fn identity_of(alloc: Global, name: &str, category: &str) -> Result<Identity, AllocError>
    ensures { IfOk result (λ i. i ≡ record { name = name.now; category = category.now }) }
{
    Ok(Identity {
        name: Name::of(alloc, name)?,
        category: Name::of(alloc, category)?,
    })
}

/// 0 twoway, 1 oneway, 2 batch oneway, 3 datagram, 4 batch datagram.
fn take_mode(cursor: &mut Cursor<'_>) -> Result<u8, Fault>
    ensures { Sees result cursor.new (form.mode.read cursor.old) }
{
    let wrong = cursor.fault(Kind::BadMode);
    let mode = cursor.take_byte()?;
    if mode <= 4 { Ok(mode) } else { Err(wrong) }
}

/// The number of endpoints, and those, or the id of an adapter where there are none.
fn take_location(
    alloc: Global,
    cursor: &mut Cursor<'_>,
) -> Result<(List<Endpoint>, Name), ReadFault>
    ensures { ReadsPart result cursor.new (form.location.read cursor.old) }
{
    let count = cursor.take_size()?;
    if count == 0 {
        let adapter = take_text(alloc, cursor)?;
        return Ok((List::new(alloc), adapter));
    }
    let endpoints = take_endpoints(alloc, count, cursor)?;
    Ok((endpoints, Name::of(alloc, "")?))
}

/// So many endpoints, one after the other.
fn take_endpoints(
    alloc: Global,
    count: u32,
    cursor: &mut Cursor<'_>,
) -> Result<List<Endpoint>, ReadFault>
    ensures { ReadsPart result cursor.new (read_times endpoint.read count cursor.old) }
{
    let mut endpoints = List::new(alloc);
    for _ in 0..count {
        let endpoint = take_endpoint(alloc, cursor)?;
        endpoints.push(endpoint)?;
    }
    Ok(endpoints)
}
