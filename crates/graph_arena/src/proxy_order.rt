//! The order of proxies: null before the others, and these by their parts, one after the other.

ghost use Rattle.std.specs.Prelude.{◌≡◌};
ghost use Rattle.std.specs.Cmp.Lexicographic.{slice_cmp};
ghost use Rattle.ice_encoding.specs.Proxies.{calling_cmp, endpoint_cmp, identity_cmp, proxy_cmp, serving_cmp};
ghost use Rattle.ice_encoding.specs.Proxies.{some_proxy_cmp, version_cmp};
ghost use Rattle.graph_arena.specs.View.{unboxed};

use ice_types::{Endpoint, Identity, Proxy};
use std::cmp::Ordering;

/// Proxies, None for null.
pub(crate) fn compare_some(a: &Option<Box<Proxy>>, b: &Option<Box<Proxy>>) -> Ordering
    ensures { result ≡ some_proxy_cmp (unboxed a.now) (unboxed b.now) }
{
    match (a, b) {
        (None, None) => Ordering::Equal,
        (None, Some(_)) => Ordering::Less,
        (Some(_), None) => Ordering::Greater,
        (Some(a), Some(b)) => compare_proxies(a, b),
    }
}

fn compare_proxies(a: &Proxy, b: &Proxy) -> Ordering
    ensures { result ≡ proxy_cmp a.now b.now }
{
    let facets = a.facet.as_str().cmp(b.facet.as_str());
    compare_identities(&a.identity, &b.identity).then(facets.then(compare_calling(a, b).then(
        compare_serving(a, b),
    )))
}

/// By the name, and then by the category.
fn compare_identities(a: &Identity, b: &Identity) -> Ordering
    ensures { result ≡ identity_cmp a.now b.now }
{
    let categories = a.category.as_str().cmp(b.category.as_str());
    a.name.as_str().cmp(b.name.as_str()).then(categories)
}

/// By how the object is called.
fn compare_calling(a: &Proxy, b: &Proxy) -> Ordering
    ensures { result ≡ calling_cmp a.now b.now }
{
    let versions = compare_versions(a.protocol, b.protocol).then(compare_versions(
        a.encoding, b.encoding,
    ));
    a.mode
        .cmp(&b.mode)
        .then(a.secure.cmp(&b.secure).then(versions))
}

/// By the major version, and then by the minor one.
fn compare_versions(a: (u8, u8), b: (u8, u8)) -> Ordering
    ensures { result ≡ version_cmp a b }
{
    a.0.cmp(&b.0).then(a.1.cmp(&b.1))
}

/// By where the object is served.
fn compare_serving(a: &Proxy, b: &Proxy) -> Ordering
    ensures { result ≡ serving_cmp a.now b.now }
{
    let adapters = a.adapter.as_str().cmp(b.adapter.as_str());
    compare_endpoints(a.endpoints.as_slice(), b.endpoints.as_slice()).then(adapters)
}

fn compare_endpoints(a: &[Endpoint], b: &[Endpoint]) -> Ordering
    ensures { result ≡ slice_cmp endpoint_cmp a.now b.now }
{
    for (at, first) in a.iter().enumerate() {
        let Some(other) = b.get(at) else {
            return Ordering::Greater;
        };
        match compare_endpoint(first, other) {
            Ordering::Equal => {}
            order => return order,
        }
    }
    a.len().cmp(&b.len())
}

/// TCP before other transports, and those of one sort by their parts.
fn compare_endpoint(a: &Endpoint, b: &Endpoint) -> Ordering
    ensures { result ≡ endpoint_cmp a.now b.now }
{
    match (a, b) {
        (
            Endpoint::Tcp {
                host,
                port,
                timeout,
                compress,
            },
            Endpoint::Tcp {
                host: host_b,
                port: port_b,
                timeout: timeout_b,
                compress: compress_b,
            },
        ) => host.as_str().cmp(host_b.as_str()).then(
            port.cmp(port_b)
                .then(timeout.cmp(timeout_b).then(compress.cmp(compress_b))),
        ),
        (Endpoint::Tcp { .. }, Endpoint::Opaque { .. }) => Ordering::Less,
        (Endpoint::Opaque { .. }, Endpoint::Tcp { .. }) => Ordering::Greater,
        (
            Endpoint::Opaque {
                kind,
                major,
                minor,
                bytes,
            },
            Endpoint::Opaque {
                kind: kind_b,
                major: major_b,
                minor: minor_b,
                bytes: bytes_b,
            },
        ) => {
            let last = bytes.as_slice().cmp(bytes_b.as_slice());
            kind.cmp(kind_b)
                .then(major.cmp(major_b).then(minor.cmp(minor_b).then(last)))
        }
    }
}
