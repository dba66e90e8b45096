//! The bytes of an endpoint. (Ice manual, "Data Encoding for Proxies".)

ghost use Rattle.std.specs.Prelude.{◌≡◌, ◌++◌, ◌<◌, ◌^◌, OnOk, OnErr, length};
ghost use Rattle.ice_types.specs.declared.proxy.Endpoint.TheVariants.{Tcp};
ghost use Rattle.ice_prims.specs.Bytes.{Grows};
ghost use Rattle.ice_encoding.specs.Bounds.{size_with};
ghost use Rattle.ice_encoding.specs.Endpoint as form;

use crate::size::size_length;
use ice_encoding::SIZE_BYTES;
use ice_prims::{put_bool, put_byte, put_int, put_short, put_str};
use ice_types::{Endpoint, Name};
use std::alloc::AllocError;

/// Puts the endpoint's bytes at the end of the output. Out of memory may leave a part of them there.
pub fn append_endpoint(out: &mut Vec<u8>, endpoint: &Endpoint) -> Result<(), AllocError>
    requires { form.EndpointHasSize endpoint.now }
    ensures ok { OnOk result (out.new.items ≡ out.old.items ++ form.endpoint.put endpoint.now) }
    ensures err { OnErr result (Grows out.old.items out.new.items) }
{
    put_short(out, kind_of(endpoint))?;
    put_int(out, size_of(endpoint) as i32)?;
    append_said(out, endpoint)
}

/// The type of the endpoint.
fn kind_of(endpoint: &Endpoint) -> i16
    ensures { result ≡ form.kind_of endpoint.now }
{
    match endpoint {
        Endpoint::Tcp { .. } => 1,
        Endpoint::Opaque { kind, .. } => *kind,
    }
}

/// How many bytes the endpoint's encapsulation has.
fn size_of(endpoint: &Endpoint) -> usize
    requires { form.EndpointHasSize endpoint.now }
    ensures { result ≡ size_with (form.said (form.kind_of endpoint.now)) endpoint.now }
{
    match endpoint {
        Endpoint::Tcp { host, .. } => {
            let length = host.as_str().len();
            SIZE_BYTES + 2 + size_length(length) + length + 9
        }
        Endpoint::Opaque { bytes, .. } => SIZE_BYTES + 2 + bytes.len(),
    }
}

/// A version, and what goes by it.
fn append_said(out: &mut Vec<u8>, endpoint: &Endpoint) -> Result<(), AllocError>
    requires { form.EndpointHasSize endpoint.now }
    ensures ok { OnOk result (out.new.items ≡ out.old.items ++ form.said_bytes endpoint.now) }
    ensures err { OnErr result (Grows out.old.items out.new.items) }
{
    match endpoint {
        Endpoint::Tcp {
            host,
            port,
            timeout,
            compress,
        } => {
            out.extend_from_slice(&[1, 1])?;
            append_tcp(out, host, *port, *timeout, *compress)
        }
        Endpoint::Opaque {
            major,
            minor,
            bytes,
            ..
        } => {
            out.extend_from_slice(&[*major, *minor])?;
            out.extend_from_slice(bytes.as_slice())
        }
    }
}

/// What follows the version of TCP.
fn append_tcp(
    out: &mut Vec<u8>,
    host: &Name,
    port: i32,
    timeout: i32,
    compress: bool,
) -> Result<(), AllocError>
    requires { length host.now < 2 ^ 31 }
    ensures ok { OnOk result (out.new.items ≡ out.old.items ++ form.tcp.put (Tcp host.now port timeout compress)) }
    ensures err { OnErr result (Grows out.old.items out.new.items) }
{
    put_str(out, host.as_str())?;
    put_int(out, port)?;
    put_int(out, timeout)?;
    put_bool(out, compress)
}
