//! Copies of proxies and their parts.

ghost use Rattle.std.specs.Prelude.{◌≡◌, IfOk};

use ice_types::{Bytes, Endpoint, Identity, List, Name, Proxy};
use std::alloc::{AllocError, Global};

pub(crate) fn copy_name(alloc: Global, name: &Name) -> Result<Name, AllocError>
    ensures { IfOk result (λ copy. copy ≡ name.now) }
{
    Name::of(alloc, name.as_str())
}

pub(crate) fn copy_identity(alloc: Global, identity: &Identity) -> Result<Identity, AllocError>
    ensures { IfOk result (λ copy. copy ≡ identity.now) }
{
    Ok(Identity {
        name: copy_name(alloc, &identity.name)?,
        category: copy_name(alloc, &identity.category)?,
    })
}

pub(crate) fn copy_endpoints(
    alloc: Global,
    endpoints: &[Endpoint],
) -> Result<List<Endpoint>, AllocError>
    ensures { IfOk result (λ copies. copies ≡ endpoints.now) }
{
    let mut copies = List::new(alloc);
    for endpoint in endpoints {
        copies.push(copy_endpoint(alloc, endpoint)?)?;
    }
    Ok(copies)
}

fn copy_endpoint(alloc: Global, endpoint: &Endpoint) -> Result<Endpoint, AllocError>
    ensures { IfOk result (λ copy. copy ≡ endpoint.now) }
{
    match endpoint {
        Endpoint::Tcp {
            host,
            port,
            timeout,
            compress,
        } => Ok(Endpoint::Tcp {
            host: copy_name(alloc, host)?,
            port: *port,
            timeout: *timeout,
            compress: *compress,
        }),
        Endpoint::Opaque {
            kind,
            major,
            minor,
            bytes,
        } => Ok(Endpoint::Opaque {
            kind: *kind,
            major: *major,
            minor: *minor,
            bytes: Bytes::from_vec(Vec::from_slice(alloc, bytes.as_slice())?),
        }),
    }
}

/// The same proxy at these endpoints, with this adapter.
pub(crate) fn copy_to(
    alloc: Global,
    proxy: &Proxy,
    endpoints: List<Endpoint>,
    adapter: Name,
) -> Result<Proxy, AllocError>
    ensures { IfOk result (λ copy. copy ≡ record proxy.now { endpoints = endpoints; adapter = adapter }) }
{
    Ok(Proxy {
        identity: copy_identity(alloc, &proxy.identity)?,
        facet: copy_name(alloc, &proxy.facet)?,
        mode: proxy.mode,
        secure: proxy.secure,
        protocol: proxy.protocol,
        encoding: proxy.encoding,
        endpoints,
        adapter,
    })
}
