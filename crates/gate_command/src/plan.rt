//! All that is decided before the net is asked.

ghost use Rattle.std.specs.Prelude.{Ok};
ghost use Rattle.ice_proxy.specs.Grammar.{proxy_text};
ghost use Rattle.node_commands.specs.Words.{IsWord};
ghost use Rattle.gate_command.specs.Words.{IsWithin, seen};
ghost use Rattle.gate_command.specs.Steps.{FindsUpstream, MakesPlan, SchemaGives, SchemaMakes};

use crate::words::GateCommand;
use ice_ports::Shelf;
use ice_proxy::{TextFault, parse_text};
use ice_types::{Proxy, Schema};
use locator_types::object_schema;
use node_commands::{Outcome, interface_of, load_schema};
use std::alloc::Global;

/// What calls are forwarded by.
#[derive(Drop)]
pub struct Plan {
    /// The operations that every object has.
    pub object: Schema,
    pub schema: Schema,
    /// The place of the interface whose operations are called.
    pub interface: u32,
    /// Where the servers are.
    pub upstream: Proxy,
    pub retries: u32,
}

/// What the words say that calls are forwarded by, or why there is nothing.
pub(crate) fn plan_of<'a, H: Shelf>(
    alloc: Global,
    command: GateCommand<'a>,
    shelf: &mut H,
) -> Result<Plan, Outcome<'a>>
    requires { IsWithin (seen command) }
    ensures { MakesPlan (seen command.entry) (H.files shelf.old)
        (H.failures shelf.old) (H.failures shelf.new) result }
{
    let upstream = upstream_of(alloc, command.proxy)?;
    let schema = load_schema(alloc, command.file, shelf)?;
    under(alloc, command, upstream, schema)
}

/// The proxy of the text, or the place of the first word that cannot stand. One without endpoints is in no form of
/// `gate`.
fn upstream_of(alloc: Global, text: &str) -> Result<Result<Proxy, u32>, Outcome<'static>>
    requires { IsWord text.now }
    ensures { FindsUpstream (proxy_text text.now) result }
{
    match parse_text(alloc, text) {
        Ok(proxy) => listed(proxy),
        Err(TextFault::Broken { place }) => Ok(Err(place)),
        Err(TextFault::Memory) => Err(Outcome::Memory),
    }
}

/// The proxy, where it has endpoints.
fn listed(proxy: Proxy) -> Result<Result<Proxy, u32>, Outcome<'static>>
    ensures { FindsUpstream (Ok proxy) result }
{
    if proxy.endpoints.is_empty() {
        return Err(Outcome::Usage);
    }
    Ok(Ok(proxy))
}

/// Goes on where FILE means this schema.
fn under<'a>(
    alloc: Global,
    command: GateCommand<'a>,
    upstream: Result<Proxy, u32>,
    schema: Schema,
) -> Result<Plan, Outcome<'a>>
    ensures { SchemaMakes (seen command.entry) upstream schema result }
{
    let (object, interface, upstream) = parts_of(alloc, command, upstream, &schema)?;
    Ok(Plan {
        object,
        schema,
        interface,
        upstream,
        retries: command.retries,
    })
}

/// What goes with the schema: the operations that every object has, the place of the interface, and where the servers
/// are.
fn parts_of<'a>(
    alloc: Global,
    command: GateCommand<'a>,
    upstream: Result<Proxy, u32>,
    schema: &Schema,
) -> Result<(Schema, u32, Proxy), Outcome<'a>>
    ensures { SchemaGives (seen command.entry) upstream schema.now result }
{
    let Some(interface) = interface_of(schema, command.interface) else {
        return Err(Outcome::NoSuchName(command.interface));
    };
    match upstream {
        Ok(upstream) => Ok((object_schema(alloc)?, interface, upstream)),
        Err(place) => Err(Outcome::TextRefused(place)),
    }
}
