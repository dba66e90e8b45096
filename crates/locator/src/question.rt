//! What a locator is asked. (Ice manual, "Locators".)

ghost use Rattle.std.specs.Prelude.{◌≡◌, ◌++◌, ◌≤◌, ◌<◌, IfOk, OnOk, MatchOption, length};
ghost use Rattle.ice_encoding.specs.Opening.{encapsulated_bytes};
ghost use Rattle.ice_messages.specs.Written.{IsWritableCall};
ghost use Rattle.locator.specs.Keys as keys;
ghost use Rattle.locator.specs.Questions as spec;

use crate::copies::{copy_identity, copy_name};
use crate::key::Key;
use class_slices::{begin_encaps, end_encaps};
use ice_messages::Call;
use ice_prims::put_str;
use ice_types::{Bytes, List, Name, Proxy};
use std::alloc::{AllocError, Global};

/// How many bytes the encapsulation of a request has at most.
pub const LONGEST: u32 = 1_000_000;

/// The call that asks the locator for what the key names: None where a request may not be so long.
pub(crate) fn question(
    alloc: Global,
    locator: &Proxy,
    key: &Key,
) -> Result<Option<Call>, AllocError>
    ensures { IfOk result (λ call. MatchOption call (LONGEST < length (spec.body key.now))
        (λ c. (c ≡ spec.question locator.now key.now) × IsWritableCall c × (length (spec.body key.now) ≤ LONGEST))) }
{
    match body_of(alloc, key)? {
        Some(body) => Ok(Some(call_with(alloc, locator, key, body)?)),
        None => Ok(None),
    }
}

/// That call, with its arguments.
fn call_with(alloc: Global, locator: &Proxy, key: &Key, body: Bytes) -> Result<Call, AllocError>
    requires is { body ≡ spec.body key.now }
    requires short { length body ≤ LONGEST }
    ensures { IfOk result (λ c. (c ≡ spec.question locator.now key.now) × IsWritableCall c) }
{
    Ok(Call {
        identity: copy_identity(alloc, &locator.identity)?,
        facet: copy_name(alloc, &locator.facet)?,
        operation: Name::of(alloc, operation_of(key))?,
        mode: 1,
        context: List::new(alloc),
        body,
    })
}

/// The operation that finds what the key names.
fn operation_of(key: &Key) -> &'static str
    ensures { result.now ≡ spec.operation key.now }
{
    match key {
        Key::Object(_) => "findObjectById",
        Key::Adapter(_) => "findAdapterById",
    }
}

/// The encapsulation of the arguments: None where it is longer than it may be.
fn body_of(alloc: Global, key: &Key) -> Result<Option<Bytes>, AllocError>
    ensures { IfOk result (λ body. MatchOption body (LONGEST < length (spec.body key.now))
        (λ b. (b ≡ spec.body key.now) × (length b ≤ LONGEST))) }
{
    if key.name().len() > LONGEST as usize || key.category().len() > LONGEST as usize {
        return Ok(None);
    }
    let mut out = begin_encaps(alloc)?;
    put_key(&mut out, key)?;
    match end_encaps(out, LONGEST) {
        Ok(out) => Ok(Some(Bytes::from_vec(out))),
        Err(_) => Ok(None),
    }
}

/// The identity, or the id.
fn put_key(out: &mut Vec<u8>, key: &Key) -> Result<(), AllocError>
    requires name { length (keys.name key.now) ≤ LONGEST }
    requires category { length (keys.category key.now) ≤ LONGEST }
    ensures { OnOk result (out.new.items ≡ out.old.items ++ spec.content key.now) }
{
    match key {
        Key::Object(identity) => {
            put_str(out, identity.name.as_str())?;
            put_str(out, identity.category.as_str())
        }
        Key::Adapter(id) => put_str(out, id.as_str()),
    }
}
