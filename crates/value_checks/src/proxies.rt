//! Whether a proxy is one that can be written, with endpoints up to a size. (Ice manual, "Data Encoding for Proxies".)

ghost use Rattle.std.specs.Prelude.{◌≡◌, ◌<◌, ◌^◌, ◌↔◌, IsTrue, Some, length};
ghost use Rattle.ice_prims.specs.Laws.{IsTextSize};
ghost use Rattle.ice_types.specs.declared.proxy.Endpoint.TheVariants.{Opaque, Tcp};
ghost use Rattle.ice_encoding.specs.Parts.{Each};
ghost use Rattle.ice_encoding.specs.Parts as parts;
ghost use Rattle.ice_encoding.specs.Identity as names;
ghost use Rattle.ice_encoding.specs.Endpoint as served;
ghost use Rattle.ice_encoding.specs.Proxy as form;

use encaps_optionals::size_length;
use ice_encoding::SIZE_BYTES;
use ice_types::{Endpoint, Identity, Name, Proxy};

/// Whether a size can count so many.
pub(crate) fn is_size(count: usize) -> bool
    ensures { IsTrue result ↔ (count < 2 ^ 31) }
{
    count < 1 << 31
}

/// Whether a size can count the bytes of the text.
pub(crate) fn is_text(text: &Name) -> bool
    ensures { IsTrue result ↔ IsTextSize text.now }
{
    is_size(text.as_str().len())
}

/// Whether it is a proxy that can be written, with endpoints up to this size: it has a name, one of the five modes,
/// and an adapter only where it has no endpoints, and no size in it is too great.
pub(crate) fn is_proxy(proxy: &Proxy, most: usize) -> bool
    requires { most < 2 ^ 31 }
    ensures { IsTrue result ↔ (form.proxy_to most).Is (Some proxy.now) }
{
    !proxy.identity.name.as_str().is_empty()
        && is_identity(&proxy.identity)
        && has_details(proxy, most)
}

fn is_identity(identity: &Identity) -> bool
    ensures { IsTrue result ↔ names.identity.Is identity.now }
{
    is_text(&identity.name) && is_text(&identity.category)
}

/// Whether what follows the identity is so.
fn has_details(proxy: &Proxy, most: usize) -> bool
    requires { most < 2 ^ 31 }
    ensures { IsTrue result ↔ (form.details_to most).Is (form.details_of (Some proxy.now)) }
{
    is_facet(&proxy.facet)
        && is_mode(proxy.mode)
        && is_version(proxy.protocol)
        && is_version(proxy.encoding)
        && is_location(proxy.endpoints.as_slice(), &proxy.adapter, most)
}

/// Whether it is one of the five modes.
fn is_mode(mode: u8) -> bool
    ensures { IsTrue result ↔ form.mode.Is mode }
{
    mode <= 4
}

/// Each pair of bytes is a version.
fn is_version(version: (u8, u8)) -> bool
    ensures { IsTrue result ↔ parts.version.Is version }
{
    let _ = version;
    true
}

fn is_facet(facet: &Name) -> bool
    ensures { IsTrue result ↔ names.facet.Is facet.now }
{
    is_text(facet)
}

/// Endpoints, or an adapter where there is none.
fn is_location(endpoints: &[Endpoint], adapter: &Name, most: usize) -> bool
    requires { most < 2 ^ 31 }
    ensures { IsTrue result ↔ (form.location_to most).Is (endpoints.now, adapter.now) }
{
    if endpoints.is_empty() {
        is_text(adapter)
    } else {
        is_size(endpoints.len()) && are_endpoints(endpoints, most) && adapter.as_str().is_empty()
    }
}

fn are_endpoints(endpoints: &[Endpoint], most: usize) -> bool
    requires { most < 2 ^ 31 }
    ensures { IsTrue result ↔ Each (served.endpoint_to most).Is endpoints.now }
{
    for endpoint in endpoints {
        if !is_endpoint(endpoint, most) {
            return false;
        }
    }
    true
}

/// Whether its encapsulation is up to this size, and it is not TCP as the bytes of another transport.
fn is_endpoint(endpoint: &Endpoint, most: usize) -> bool
    requires { most < 2 ^ 31 }
    ensures { IsTrue result ↔ (served.endpoint_to most).Is endpoint.now }
{
    match endpoint {
        Endpoint::Tcp {
            host,
            port,
            timeout,
            compress,
        } => is_tcp(host, *port, *timeout, *compress, most),
        Endpoint::Opaque {
            kind,
            major,
            minor,
            bytes,
        } => is_opaque(*kind, *major, *minor, bytes.as_slice(), most),
    }
}

/// The size of its encapsulation, its version, and the parts of TCP.
fn is_tcp(host: &Name, port: i32, timeout: i32, compress: bool, most: usize) -> bool
    requires { most < 2 ^ 31 }
    ensures { IsTrue result ↔ (served.endpoint_to most).Is (Tcp host.now port timeout compress) }
{
    let _ = (port, timeout, compress);
    let length = host.as_str().len();
    length <= most && SIZE_BYTES + 2 + size_length(length) + length + 9 <= most
}

/// Another transport, whose bytes are kept as they are.
fn is_opaque(kind: i16, major: u8, minor: u8, bytes: &[u8], most: usize) -> bool
    requires { most < 2 ^ 31 }
    ensures { IsTrue result ↔ (served.endpoint_to most).Is (Opaque kind major minor bytes.now) }
{
    !means_tcp(kind, major, minor) && bytes.len() <= most && SIZE_BYTES + 2 + bytes.len() <= most
}

/// TCP is of type 1 in version 1.1.
fn means_tcp(kind: i16, major: u8, minor: u8) -> bool
    ensures { result ≡ served.is_tcp kind (major, minor) }
{
    kind == 1 && major == 1 && minor == 1
}
