//! Copies of proxies.

ghost use Rattle.std.specs.Prelude.{◌≡◌, IfOk};
ghost use Rattle.graph_arena.specs.View.{unboxed};

use ice_types::{Bytes, Endpoint, Identity, List, Name, Proxy};
use std::alloc::{AllocError, Global};

/// The same proxy, None for null.
pub(crate) fn copy_some(
    alloc: Global,
    proxy: &Option<Box<Proxy>>,
) -> Result<Option<Box<Proxy>>, AllocError>
    ensures { IfOk result (λ copy. unboxed copy ≡ unboxed proxy.now) }
{
    match proxy {
        Some(proxy) => Ok(Some(Box::new(alloc, copy_proxy(alloc, proxy)?)?)),
        None => Ok(None),
    }
}

fn copy_proxy(alloc: Global, proxy: &Proxy) -> Result<Proxy, AllocError>
    ensures { IfOk result (λ copy. copy ≡ proxy.now) }
{
    Ok(Proxy {
        identity: Identity {
            name: Name::of(alloc, proxy.identity.name.as_str())?,
            category: Name::of(alloc, proxy.identity.category.as_str())?,
        },
        facet: Name::of(alloc, proxy.facet.as_str())?,
        mode: proxy.mode,
        secure: proxy.secure,
        protocol: proxy.protocol,
        encoding: proxy.encoding,
        endpoints: copy_endpoints(alloc, proxy.endpoints.as_slice())?,
        adapter: Name::of(alloc, proxy.adapter.as_str())?,
    })
}

fn copy_endpoints(alloc: Global, endpoints: &[Endpoint]) -> Result<List<Endpoint>, AllocError>
    ensures { IfOk result (λ copies. copies ≡ endpoints.now) }
{
    let mut copies = List::new(alloc);
    for endpoint in endpoints {
        copies.push(copy_endpoint(alloc, endpoint)?)?;
    }
    Ok(copies)
}

fn copy_endpoint(alloc: Global, endpoint: &Endpoint) -> Result<Endpoint, AllocError>
    ensures { IfOk result (λ copy. copy ≡ endpoint.now) }
{
    match endpoint {
        Endpoint::Tcp {
            host,
            port,
            timeout,
            compress,
        } => Ok(Endpoint::Tcp {
            host: Name::of(alloc, host.as_str())?,
            port: *port,
            timeout: *timeout,
            compress: *compress,
        }),
        Endpoint::Opaque {
            kind,
            major,
            minor,
            bytes,
        } => Ok(Endpoint::Opaque {
            kind: *kind,
            major: *major,
            minor: *minor,
            bytes: Bytes::from_vec(Vec::from_slice(alloc, bytes.as_slice())?),
        }),
    }
}
