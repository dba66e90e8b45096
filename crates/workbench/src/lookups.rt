//! Looks for objects among a thousand, for bench/lookups.
//!
//! usage: workbench lookups [LOOKUPS]
//!
//! Every second look-up is of an object that is not there. The line has the number of objects and how many look-ups
//! found one; with LOOKUPS also the nanoseconds that they took. Without words there are 200,000.

use ice_types::{Identity, Name, Schema};
use itoa::Buffer;
use locator_types::locator_schema;
use object_adapter::{Adapter, Found, MOST_OBJECTS, Servant};
use std::alloc::{AllocError, Global};
use std::io;
use std::sync::Arc;
use std::time::Instant;

/// The identity with this number as its name.
fn identity_of(alloc: Global, number: u32) -> Result<Identity, AllocError> {
    let mut digits = Buffer::new();
    Ok(Identity {
        name: Name::of(alloc, digits.format(number))?,
        category: Name::of(alloc, "")?,
    })
}

/// Puts an echo under this number.
fn add(
    alloc: Global,
    adapter: &mut Adapter,
    schema: &Arc<Schema>,
    number: u32,
) -> Result<(), AllocError> {
    let identity = identity_of(alloc, number)?;
    let facet = Name::of(alloc, "")?;
    let echo = Servant::echo(Arc::clone(schema)?, 0);
    match adapter.add(identity, facet, echo) {
        Ok(()) => Ok(()),
        Err(_) => Err(AllocError),
    }
}

/// Puts in as many echoes as may be, whose names are the numbers from 0 on.
fn fill(alloc: Global, adapter: &mut Adapter, schema: &Arc<Schema>) -> Result<(), AllocError> {
    for number in 0..MOST_OBJECTS {
        add(alloc, adapter, schema, number)?;
    }
    Ok(())
}

/// The types of locators.
fn schema(alloc: Global) -> Result<Arc<Schema>, AllocError> {
    Ok(Arc::new(alloc, locator_schema(alloc)?)?)
}

/// An adapter with all of them.
fn filled(alloc: Global) -> Result<Adapter, AllocError> {
    let schema = schema(alloc)?;
    let mut adapter = Adapter::new(alloc);
    fill(alloc, &mut adapter, &schema)?;
    Ok(adapter)
}

/// Twice as many identities as there are objects.
fn sought(alloc: Global) -> Result<Vec<Identity>, AllocError> {
    let mut identities = Vec::new(alloc);
    for number in 0..2 * MOST_OBJECTS {
        identities.push(identity_of(alloc, number)?)?;
    }
    Ok(identities)
}

/// How many of so many look-ups find an object, where these identities come in turn.
fn found_of(adapter: &Adapter, identities: &[Identity], lookups: u32) -> u32 {
    let mut found: u32 = 0;
    let mut next = 0;
    for _ in 0..lookups {
        if next >= identities.len() {
            next = 0;
        }
        if let Some(identity) = identities.get(next) {
            if let Found::At(_) = adapter.find(identity, "") {
                found = found.saturating_add(1);
            }
            next += 1;
        }
    }
    found
}

/// Looks them up so many times, and writes the line.
fn look_up(
    rt: &HostRuntime,
    adapter: &Adapter,
    identities: &[Identity],
    asked: Option<u32>,
) -> io::Result<()> {
    let start = Instant::now(rt)?;
    let found = found_of(adapter, identities, asked.unwrap_or(200_000));
    let nanoseconds = start.elapsed(rt)?.as_nanos();
    let objects = adapter.len();
    match asked {
        Some(_) => println!(rt; "objects {objects} found {found} nanoseconds {nanoseconds}"),
        None => println!(rt; "objects {objects} found {found}"),
    }
}

/// Looks objects up as often as the words ask.
pub fn time(rt: &HostRuntime, alloc: Global, words: &[String]) -> io::Result<()> {
    let asked = words
        .first()
        .and_then(|word| word.as_str().parse::<u32>().ok());
    let identities = sought(alloc)?;
    let adapter = filled(alloc)?;
    look_up(rt, &adapter, identities.as_slice(), asked)
}
