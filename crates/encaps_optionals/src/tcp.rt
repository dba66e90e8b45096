//! The endpoints of a proxy that can be used.

ghost use Rattle.std.specs.Prelude.{◌≡◌, ℕ, List, Option, length, slice_get, option_map};
ghost use Rattle.encaps_optionals.specs.Usable.{reached, usable, usable_one, tcp_at};

use ice_types::{Endpoint, Proxy};

/// Host and port of the endpoint with this number, counted from 0 and round again, among those that can
/// be used: those of TCP with a host and a port from 1 to 65535. None where there is none.
pub fn tcp_of(proxy: &Proxy, number: u32) -> Option<(&str, u16)>
    ensures { option_map (λ x. (x.0.now, x.1)) result ≡ tcp_at number proxy.now.endpoints }
{
    let endpoints = proxy.endpoints.as_slice();
    let count = usable_count(endpoints);
    if count == 0 {
        return None;
    }
    usable_at(endpoints, number as usize % count)
}

/// How many can be used.
fn usable_count(endpoints: &[Endpoint]) -> usize
    ensures { result ≡ length (usable endpoints.now) }
{
    let mut count = 0;
    for endpoint in endpoints {
        if usable_one(endpoint).is_some() {
            count += 1;
        }
    }
    count
}

/// The one at a place counted from 0, among those that can be used.
fn usable_at(endpoints: &[Endpoint], at: usize) -> Option<(&str, u16)>
    ensures { option_map (λ x. (x.0.now, x.1)) result ≡ slice_get (usable endpoints.now) at }
{
    let mut before = at;
    for endpoint in endpoints {
        if let Some(tcp) = usable_one(endpoint) {
            if before == 0 {
                return Some(tcp);
            }
            before -= 1;
        }
    }
    None
}

/// Host and port, where the endpoint can be used.
fn usable_one(endpoint: &Endpoint) -> Option<(&str, u16)>
    ensures { option_map (λ x. (x.0.now, x.1)) result ≡ usable_one endpoint.now }
{
    match endpoint {
        Endpoint::Tcp { host, port, .. } => reached(host.as_str(), *port),
        Endpoint::Opaque { .. } => None,
    }
}

/// This host with this port, where there is a host and the port is from 1 to 65535.
fn reached(host: &str, port: i32) -> Option<(&str, u16)>
    ensures { option_map (λ x. (x.0.now, x.1)) result ≡ reached host.now port }
{
    if host.is_empty() || port < 1 || port > 65535 {
        return None;
    }
    Some((host, port as u16))
}
