//! The bytes of a proxy. (Ice manual, "Data Encoding for Proxies".)

ghost use Rattle.std.specs.Prelude.{◌≡◌, ◌++◌, ◌<◌, ◌^◌, OnOk, OnErr, Some, length, option_copied};
ghost use Rattle.std.specs.List.{flat_map};
ghost use Rattle.ice_prims.specs.Bytes.{Grows};
ghost use Rattle.ice_encoding.specs.Parts.{Each};
ghost use Rattle.ice_encoding.specs.Parts as parts;
ghost use Rattle.ice_encoding.specs.Identity as names;
ghost use Rattle.ice_encoding.specs.Endpoint.{endpoint, EndpointHasSize};
ghost use Rattle.ice_encoding.specs.Proxy as form;

use crate::write_endpoint::append_endpoint;
use ice_prims::{put_bool, put_byte, put_size, put_str};
use ice_types::{Endpoint, Identity, Name, Proxy};
use std::alloc::AllocError;

/// Puts the proxy's bytes at the end of the output, those of null for None. One without a name is put as its
/// identity alone, and an adapter only where there are no endpoints. Out of memory leaves the output as it was.
/// (Ice manual, "Data Encoding for Proxies".)
pub fn write_proxy(out: &mut Vec<u8>, proxy: Option<&Proxy>) -> Result<(), AllocError>
    requires { form.HasProxySizes (option_copied proxy) }
    ensures ok { OnOk result (out.new.items ≡ out.old.items ++ form.proxy.put (option_copied proxy.entry)) }
    ensures err { OnErr result (out.new.items ≡ out.old.items) }
{
    let start = out.len();
    let result = append(out, proxy);
    if result.is_err() {
        out.truncate(start);
    }
    result
}

/// Appends as `write_proxy` does, but out of memory may leave a part of it at the end.
fn append(out: &mut Vec<u8>, proxy: Option<&Proxy>) -> Result<(), AllocError>
    requires { form.HasProxySizes (option_copied proxy) }
    ensures ok { OnOk result (out.new.items ≡ out.old.items ++ form.proxy.put (option_copied proxy.entry)) }
    ensures err { OnErr result (Grows out.old.items out.new.items) }
{
    match proxy {
        Some(proxy) => {
            append_identity(out, &proxy.identity)?;
            if proxy.identity.name.as_str().is_empty() {
                return Ok(());
            }
            append_details(out, proxy)
        }
        None => {
            put_size(out, 0)?;
            put_size(out, 0)
        }
    }
}

/// A name, and a category.
fn append_identity(out: &mut Vec<u8>, identity: &Identity) -> Result<(), AllocError>
    requires name { length identity.now.name < 2 ^ 31 }
    requires category { length identity.now.category < 2 ^ 31 }
    ensures ok { OnOk result (out.new.items ≡ out.old.items ++ names.identity.put identity.now) }
    ensures err { OnErr result (Grows out.old.items out.new.items) }
{
    put_str(out, identity.name.as_str())?;
    put_str(out, identity.category.as_str())
}

/// What follows the identity of a proxy that is not null.
fn append_details(out: &mut Vec<u8>, proxy: &Proxy) -> Result<(), AllocError>
    requires { form.ProxySizes proxy.now }
    ensures ok { OnOk result (out.new.items ≡ out.old.items ++ form.details.put (form.details_of (Some proxy.now))) }
    ensures err { OnErr result (Grows out.old.items out.new.items) }
{
    append_facet(out, &proxy.facet)?;
    put_byte(out, proxy.mode)?;
    put_bool(out, proxy.secure)?;
    put_version(out, proxy.protocol)?;
    put_version(out, proxy.encoding)?;
    append_location(out, proxy.endpoints.as_slice(), &proxy.adapter)
}

/// No text for the facet of no name, else one.
fn append_facet(out: &mut Vec<u8>, facet: &Name) -> Result<(), AllocError>
    requires { length facet.now < 2 ^ 31 }
    ensures ok { OnOk result (out.new.items ≡ out.old.items ++ names.facet.put facet.now) }
    ensures err { OnErr result (Grows out.old.items out.new.items) }
{
    if facet.as_str().is_empty() {
        return put_size(out, 0);
    }
    put_size(out, 1)?;
    put_str(out, facet.as_str())
}

/// A major and a minor number.
fn put_version(out: &mut Vec<u8>, version: (u8, u8)) -> Result<(), AllocError>
    ensures ok { OnOk result (out.new.items ≡ out.old.items ++ parts.version.put version) }
    ensures err { OnErr result (out.new.items ≡ out.old.items) }
{
    out.extend_from_slice(&[version.0, version.1])
}

/// The number of endpoints, and those, or the id of the adapter where there are none.
fn append_location(
    out: &mut Vec<u8>,
    endpoints: &[Endpoint],
    adapter: &Name,
) -> Result<(), AllocError>
    requires count { length endpoints.now < 2 ^ 31 }
    requires endpoints { Each EndpointHasSize endpoints.now }
    requires adapter { length adapter.now < 2 ^ 31 }
    ensures ok { OnOk result (out.new.items ≡ out.old.items ++ form.location.put (endpoints.now, adapter.now)) }
    ensures err { OnErr result (Grows out.old.items out.new.items) }
{
    put_size(out, endpoints.len() as u32)?;
    if endpoints.is_empty() {
        return put_str(out, adapter.as_str());
    }
    append_endpoints(out, endpoints)
}

/// Endpoints one after the other.
fn append_endpoints(out: &mut Vec<u8>, endpoints: &[Endpoint]) -> Result<(), AllocError>
    requires { Each EndpointHasSize endpoints.now }
    ensures ok { OnOk result (out.new.items ≡ out.old.items ++ flat_map endpoint.put endpoints.now) }
    ensures err { OnErr result (Grows out.old.items out.new.items) }
{
    for endpoint in endpoints {
        append_endpoint(out, endpoint)?;
    }
    Ok(())
}
