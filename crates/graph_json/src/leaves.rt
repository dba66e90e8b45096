//! Values without parts from JSON.

ghost use Rattle.std.specs.Prelude.{◌≡◌, option_map, option_and_then, slice_get, IfOk};
ghost use Rattle.std.specs.Int.{w16, w32, w64};
ghost use Rattle.serde_json.specs.Find.{as_bool, as_number, as_str};
ghost use Rattle.graph_json.specs.View.{view as json_view};
ghost use Rattle.ice_encoding.specs.Tree.{boolean, short, int, long, proxy, reference};
ghost use Rattle.graph_arena.specs.View.{view};
ghost use Rattle.graph_json.specs.ReadingValues as spec;

use crate::enum_names::{EnumNames, number_named};
use crate::found::{named, object_in};
use crate::tree::Json;
use graph_arena::Value;
use ice_proxy::{TextFault, parse_text};
use ice_types::{Name, Proxy, Schema};
use std::alloc::{AllocError, Global};

pub(crate) fn bool_of(json: &Json<'_>) -> Option<Value>
    ensures { option_map view result ≡ option_map boolean (as_bool (json_view json.now)) }
{
    Some(Value::Bool(json.as_bool()?))
}

pub(crate) fn byte_of(json: &Json<'_>) -> Option<Value>
    ensures { option_map view result ≡ option_and_then spec.byte_from (spec.integer_of (json_view json.now)) }
{
    let n = json.as_i64()?;
    if 0 <= n && n < 256 {
        Some(Value::Byte(n as u8))
    } else {
        None
    }
}

pub(crate) fn short_of(json: &Json<'_>) -> Option<Value>
    ensures { option_map view result ≡ spec.signed_of w16 short (json_view json.now) }
{
    let n = json.as_i64()?;
    if -32768 <= n && n < 32768 {
        Some(Value::Short(n as i16))
    } else {
        None
    }
}

pub(crate) fn int_of(json: &Json<'_>) -> Option<Value>
    ensures { option_map view result ≡ spec.signed_of w32 int (json_view json.now) }
{
    let n = json.as_i64()?;
    if -2147483648 <= n && n < 2147483648 {
        Some(Value::Int(n as i32))
    } else {
        None
    }
}

pub(crate) fn long_of(json: &Json<'_>) -> Option<Value>
    ensures { option_map view result ≡ spec.signed_of w64 long (json_view json.now) }
{
    Some(Value::Long(json.as_i64()?))
}

pub(crate) fn text_of(alloc: Global, json: &Json<'_>) -> Result<Option<Value>, AllocError>
    ensures { IfOk result (λ o. option_map view o ≡ option_and_then spec.text_from (as_str (json_view json.now))) }
{
    match json.as_str() {
        Some(text) => short_text(alloc, text),
        None => Ok(None),
    }
}

/// The text, unless it is longer than a size can say.
fn short_text(alloc: Global, text: &str) -> Result<Option<Value>, AllocError>
    ensures { IfOk result (λ o. option_map view o ≡ spec.text_from text.now) }
{
    if text.len() < 2_147_483_648 {
        Ok(Some(Value::Text(Name::of(alloc, text)?)))
    } else {
        Ok(None)
    }
}

/// An enumerator of the enum at this place of the schema's table.
pub(crate) fn enumerator_of(
    schema: &Schema,
    names: &EnumNames,
    at: u32,
    json: &Json<'_>,
) -> Option<Value>
    ensures { option_map view result
        ≡ option_and_then (λ e. spec.enumerator_of e.entries (json_view json.now)) (slice_get schema.now.enums at) }
{
    schema.rules();
    let decl = schema.enums().get(at as usize)?;
    let name = json.as_str()?;
    Some(Value::Enum(number_named(names, at, decl.entries.as_slice(), name)?))
}

/// A proxy from its text, the null proxy from null. (Ice manual, "Proxy and Endpoint Syntax".)
pub(crate) fn proxy_of(alloc: Global, json: &Json<'_>) -> Result<Option<Value>, AllocError>
    ensures { IfOk result (λ o. option_map view o ≡ option_map proxy (spec.proxy_of (json_view json.now))) }
{
    if json.is_null() {
        return Ok(Some(Value::Proxy(None)));
    }
    match json.as_str() {
        Some(text) => written_proxy(alloc, text),
        None => Ok(None),
    }
}

/// The proxy of a text that is not too long.
fn written_proxy(alloc: Global, text: &str) -> Result<Option<Value>, AllocError>
    ensures { IfOk result (λ o. option_map view o
        ≡ option_map proxy (option_map spec.some (spec.text_proxy text.now))) }
{
    match text_proxy(alloc, text)? {
        Some(proxy) => Ok(Some(Value::Proxy(Some(Box::new(alloc, proxy)?)))),
        None => Ok(None),
    }
}

/// The proxy of a text, unless the text is too long.
fn text_proxy(alloc: Global, text: &str) -> Result<Option<Proxy>, AllocError>
    ensures { IfOk result (λ o. o ≡ spec.text_proxy text.now) }
{
    if text.len() >= 1_073_741_824 {
        return Ok(None);
    }
    match parse_text(alloc, text) {
        Ok(proxy) => Ok(Some(proxy)),
        Err(TextFault::Broken { .. }) => Ok(None),
        Err(TextFault::Memory) => Err(AllocError),
    }
}

pub(crate) fn reference_of(json: &Json<'_>) -> Option<Value>
    ensures { option_map view result ≡ option_map reference (spec.reference_of (json_view json.now)) }
{
    if json.is_null() {
        return Some(Value::Reference(None));
    }
    Some(Value::Reference(Some(name_of(json)?)))
}

/// The name of an instance, counted from 0, or None where the JSON notes none.
pub fn name_of(json: &Json<'_>) -> Option<u32>
    ensures { result ≡ spec.name_of (json_view json.now) }
{
    let found = object_in(json)?;
    if found.len() == 1 {
        name_from(named(found, "$")?)
    } else {
        None
    }
}

/// The name of the instance with this number, from 2 to 2,147,483,648.
fn name_from(json: &Json<'_>) -> Option<u32>
    ensures { result ≡ option_and_then spec.name_from (as_number (json_view json.now)) }
{
    let number = json.as_u64()?;
    if 2 <= number && number <= 2_147_483_648 {
        Some((number - 2) as u32)
    } else {
        None
    }
}
