//! The text of a proxy is printed. (Ice manual, "Proxy and Endpoint Syntax".)

ghost use Rattle.std.specs.Prelude.{◌≡◌, ◌++◌, ℕ, List, IfOk, OnOk, string_bytes};
ghost use Rattle.ice_proxy.specs.Numbers as numbers;
ghost use Rattle.ice_proxy.specs.Printed as spec;

use crate::printing::{print_identity, print_word};
use ice_types::{Endpoint, Name, Proxy};
use itoa::Buffer;
use std::alloc::{AllocError, Global};

/// The text of the proxy, from which the same proxy is read where it has a name, a mode that there
/// is, no endpoint of TCP spelled as another transport, and an adapter only without endpoints. A
/// mode above 4 is printed as 4. Want of memory is the only refusal. (Ice manual, "Proxy and
/// Endpoint Syntax".)
pub fn print_text(alloc: Global, proxy: &Proxy) -> Result<Name, AllocError>
    ensures { IfOk result (λ text. text ≡ spec.printed_proxy proxy.now) }
{
    let mut out = String::from_str(alloc, print_identity(alloc, &proxy.identity)?.as_str())?;
    push_options(&mut out, proxy)?;
    push_endpoints(alloc, &mut out, proxy.endpoints.as_slice())?;
    push_unless_empty(&mut out, " @ ", &proxy.adapter)?;
    Name::of(alloc, out.as_str())
}

/// Appends the text.
fn push(out: &mut String, text: &str) -> Result<(), AllocError>
    ensures { OnOk result (string_bytes out.new ≡ string_bytes out.old ++ text.now) }
{
    out.push_str(text)
}

/// An option and its text, left out where the text is empty.
fn push_unless_empty(out: &mut String, option: &str, text: &Name) -> Result<(), AllocError>
    ensures { OnOk result (string_bytes out.new ≡ string_bytes out.old ++ spec.unless_empty option.now text.now) }
{
    let text = text.as_str();
    if text.is_empty() {
        return Ok(());
    }
    push(out, option)?;
    print_word(out, text)
}

/// An option that stands, or nothing.
fn when(stands: bool, option: &str) -> &str
    ensures { result.now ≡ spec.when stands option.now }
{
    if stands { option } else { "" }
}

/// How the object is called: twoway, oneway, batch oneway, datagram, else batch datagram.
fn mode_option(mode: u8) -> &'static str
    ensures { result.now ≡ spec.printed_mode mode }
{
    match mode {
        0 => " -t",
        1 => " -o",
        2 => " -O",
        3 => " -d",
        _ => " -D",
    }
}

/// A major and a minor number, parted by `.`.
fn push_version(out: &mut String, version: (u8, u8)) -> Result<(), AllocError>
    ensures { OnOk result (string_bytes out.new ≡ string_bytes out.old ++ numbers.printed_version version) }
{
    push(out, Buffer::new().format(version.0))?;
    push(out, ".")?;
    push(out, Buffer::new().format(version.1))
}

/// The version of the protocol, left out where it is 1.0.
fn push_protocol(out: &mut String, version: (u8, u8)) -> Result<(), AllocError>
    ensures { OnOk result (string_bytes out.new ≡ string_bytes out.old ++ spec.printed_protocol version) }
{
    if version == (1, 0) {
        return Ok(());
    }
    push(out, " -p ")?;
    push_version(out, version)
}

fn push_options(out: &mut String, proxy: &Proxy) -> Result<(), AllocError>
    ensures { OnOk result (string_bytes out.new ≡ string_bytes out.old ++ spec.printed_options proxy.now) }
{
    push_unless_empty(out, " -f ", &proxy.facet)?;
    push(out, mode_option(proxy.mode))?;
    push(out, when(proxy.secure, " -s"))?;
    push_protocol(out, proxy.protocol)?;
    push(out, " -e ")?;
    push_version(out, proxy.encoding)
}

/// A time in milliseconds, `infinite` for -1.
fn push_timeout(out: &mut String, timeout: i32) -> Result<(), AllocError>
    ensures { OnOk result (string_bytes out.new ≡ string_bytes out.old ++ numbers.printed_timeout timeout) }
{
    if timeout == -1 {
        push(out, "infinite")
    } else {
        push(out, Buffer::new().format(timeout))
    }
}

/// What stands behind `tcp`.
fn push_tcp(
    out: &mut String,
    host: &Name,
    port: i32,
    timeout: i32,
    compress: bool,
) -> Result<(), AllocError>
    ensures { OnOk result
        (string_bytes out.new ≡ string_bytes out.old ++ spec.printed_tcp host.now port timeout compress) }
{
    push_unless_empty(out, " -h ", host)?;
    push(out, " -p ")?;
    push(out, Buffer::new().format(port))?;
    push(out, " -t ")?;
    push_timeout(out, timeout)?;
    push(out, when(compress, " -z"))
}

/// Hexadecimal digits, `""` for no bytes.
fn push_bytes(alloc: Global, out: &mut String, bytes: &[u8]) -> Result<(), AllocError>
    ensures { OnOk result (string_bytes out.new ≡ string_bytes out.old ++ numbers.printed_bytes bytes.now) }
{
    if bytes.is_empty() {
        push(out, "\"\"")
    } else {
        push(out, hex::encode(alloc, bytes)?.as_str())
    }
}

/// What stands behind `opaque`.
fn push_opaque(
    alloc: Global,
    out: &mut String,
    kind: i16,
    version: (u8, u8),
    bytes: &[u8],
) -> Result<(), AllocError>
    ensures { OnOk result
        (string_bytes out.new ≡ string_bytes out.old ++ spec.printed_opaque kind version bytes.now) }
{
    push(out, " -t ")?;
    push(out, Buffer::new().format(kind))?;
    push(out, " -e ")?;
    push_version(out, version)?;
    push(out, " -x ")?;
    push_bytes(alloc, out, bytes)
}

fn push_endpoint(alloc: Global, out: &mut String, endpoint: &Endpoint) -> Result<(), AllocError>
    ensures { OnOk result (string_bytes out.new ≡ string_bytes out.old ++ spec.printed_endpoint endpoint.now) }
{
    match endpoint {
        Endpoint::Tcp {
            host,
            port,
            timeout,
            compress,
        } => {
            push(out, "tcp")?;
            push_tcp(out, host, *port, *timeout, *compress)
        }
        Endpoint::Opaque {
            kind,
            major,
            minor,
            bytes,
        } => {
            push(out, "opaque")?;
            push_opaque(alloc, out, *kind, (*major, *minor), bytes.as_slice())
        }
    }
}

/// Endpoints, each behind `:`.
fn push_endpoints(alloc: Global, out: &mut String, endpoints: &[Endpoint]) -> Result<(), AllocError>
    ensures { OnOk result (string_bytes out.new ≡ string_bytes out.old ++ spec.printed_endpoints endpoints.now) }
{
    for endpoint in endpoints {
        push(out, ":")?;
        push_endpoint(alloc, out, endpoint)?;
    }
    Ok(())
}
