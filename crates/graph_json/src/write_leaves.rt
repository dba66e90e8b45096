//! The notation of values without parts, token by token.

ghost use Rattle.std.specs.Prelude.{◌≡◌, OnOk, if◌then◌else◌, option_map, slice_get};
ghost use Rattle.serde_json.specs.Data.{boolean, null, number, string, unsigned};
ghost use Rattle.serde_json.specs.Find.{of_integer};
ghost use Rattle.ice_types.specs.Fits.{EnumFits};
ghost use Rattle.graph_arena.specs.View.{unboxed};
ghost use Rattle.graph_json.specs.ValueNotation as notes;
ghost use Rattle.graph_json.specs.CanonicalValues as spec;
ghost use Rattle.graph_json.specs.CanonicalValues.{noted};
ghost use Rattle.graph_json.specs.Printing.{Prints};

use ice_proxy::print_text;
use ice_types::{Entry, Proxy, Schema};
use json::Writer;
use std::alloc::{AllocError, Global};
use value_parts::likely_place;

pub(crate) fn write_null(out: &mut Writer) -> Result<(), AllocError>
    ensures { OnOk result (Prints null out.old out.new) }
{
    out.null()
}

pub(crate) fn write_bool(out: &mut Writer, value: bool) -> Result<(), AllocError>
    ensures { OnOk result (Prints (boolean value) out.old out.new) }
{
    out.boolean(value)
}

pub(crate) fn write_unsigned(out: &mut Writer, value: u64) -> Result<(), AllocError>
    ensures { OnOk result (Prints (number (unsigned value)) out.old out.new) }
{
    out.u64(value)
}

pub(crate) fn write_integer(out: &mut Writer, value: i64) -> Result<(), AllocError>
    ensures { OnOk result (Prints (number (of_integer value)) out.old out.new) }
{
    out.i64(value)
}

pub(crate) fn write_text(out: &mut Writer, text: &str) -> Result<(), AllocError>
    ensures { OnOk result (Prints (string text.now) out.old out.new) }
{
    out.string(text)
}

/// A byte as a number, or null where it is not of the type.
pub(crate) fn write_byte(out: &mut Writer, is_of: bool, byte: u8) -> Result<(), AllocError>
    ensures { OnOk result (Prints (if is_of then number (unsigned byte) else null) out.old out.new) }
{
    if is_of {
        write_unsigned(out, u64::from(byte))
    } else {
        write_null(out)
    }
}

/// The name of an enumerator of the enum at this place of the schema's table.
pub(crate) fn write_enumerator(
    out: &mut Writer,
    schema: &Schema,
    at: u32,
    number: u32,
) -> Result<(), AllocError>
    ensures { OnOk result (Prints
        (noted (slice_get schema.now.enums at) (λ e. noted (spec.name_numbered number e.entries) string))
        out.old out.new) }
{
    schema.rules();
    let Some(decl) = schema.enums().get(at as usize) else {
        return write_null(out);
    };
    match entry_numbered(decl.entries.as_slice(), number) {
        Some(entry) => write_text(out, entry.name.as_str()),
        None => write_null(out),
    }
}

/// The enumerator with this number, None where there is none.
fn entry_numbered(entries: &[Entry], number: u32) -> Option<&Entry>
    requires { EnumFits entries.now }
    ensures { option_map (λ e. e.now.name) result ≡ spec.name_numbered number entries.now }
{
    if let Some(entry) = entries.get(likely_place(entries, number))
        && entry.number == number
    {
        return Some(entry);
    }
    first_numbered(entries, number)
}

fn first_numbered(entries: &[Entry], number: u32) -> Option<&Entry>
    ensures { option_map (λ e. e.now.name) result ≡ spec.name_numbered number entries.now }
{
    for entry in entries {
        if entry.number == number {
            return Some(entry);
        }
    }
    None
}

/// The text of a proxy, null for the null proxy. (Ice manual, "Proxy and Endpoint Syntax".)
pub(crate) fn write_proxy(
    out: &mut Writer,
    alloc: Global,
    proxy: &Option<Box<Proxy>>,
) -> Result<(), AllocError>
    ensures { OnOk result (Prints (spec.proxy_noted (unboxed proxy.now)) out.old out.new) }
{
    match proxy {
        Some(proxy) => write_text(out, print_text(alloc, proxy)?.as_str()),
        None => write_null(out),
    }
}

pub(crate) fn write_reference(out: &mut Writer, reference: Option<u32>) -> Result<(), AllocError>
    ensures { OnOk result (Prints (spec.reference_noted reference) out.old out.new) }
{
    match reference {
        Some(name) => write_name(out, name),
        None => write_null(out),
    }
}

/// What notes the name of an instance, counted from 0: an object with the number that is two more.
pub(crate) fn write_name(out: &mut Writer, name: u32) -> Result<(), AllocError>
    ensures { OnOk result (Prints (notes.name_noted name) out.old out.new) }
{
    out.begin_object()?;
    out.key("$")?;
    write_unsigned(out, u64::from(name) + 2)?;
    out.end_object()
}
