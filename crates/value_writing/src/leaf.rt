//! Values without parts, as they are written.

ghost use Rattle.std.specs.Prelude.{◌≡◌, ◌++◌, OnOk, OnErr};
ghost use Rattle.ice_prims.specs.Bytes.{Grows};
ghost use Rattle.ice_encoding.specs.Proxy as parts;
ghost use Rattle.ice_encoding.specs.Canonical.{HasSize};
ghost use Rattle.graph_arena.specs.View.{unboxed, view};
ghost use Rattle.value_writing.specs.Leaves.{leaf_bytes};

use encaps_optionals::write_proxy;
use graph_arena::Value;
use ice_prims::{put_bool, put_byte, put_int, put_long, put_short, put_size, put_str};
use ice_types::Proxy;
use std::alloc::AllocError;

/// Puts a value without parts at the end of the output, and nothing of any other value. Out of memory
/// may leave a part of it there.
pub(crate) fn put_leaf(value: &Value, out: &mut Vec<u8>) -> Result<(), AllocError>
    requires { HasSize (view value.now) }
    ensures ok { OnOk result (out.new.items ≡ out.old.items ++ leaf_bytes (view value.now)) }
    ensures grows { Grows out.old.items out.new.items }
{
    match value {
        Value::Bool(b) => put_bool(out, *b),
        Value::Byte(n) => put_byte(out, *n),
        Value::Short(n) => put_short(out, *n),
        Value::Int(n) => put_int(out, *n),
        Value::Long(n) => put_long(out, *n),
        Value::Text(text) => put_str(out, text.as_str()),
        Value::Enum(number) => put_size(out, *number),
        Value::Proxy(proxy) => put_proxy(proxy, out),
        Value::Seq(_)
        | Value::Bytes(_)
        | Value::Pairs(_)
        | Value::Members(_)
        | Value::Reference(_) => Ok(()),
    }
}

/// A proxy, None for null.
fn put_proxy(proxy: &Option<Box<Proxy>>, out: &mut Vec<u8>) -> Result<(), AllocError>
    requires { parts.HasProxySizes (unboxed proxy.now) }
    ensures ok { OnOk result (out.new.items ≡ out.old.items ++ parts.proxy.put (unboxed proxy.now)) }
    ensures err { OnErr result (out.new.items ≡ out.old.items) }
{
    match proxy {
        Some(proxy) => write_proxy(out, Some(proxy)),
        None => write_proxy(out, None),
    }
}
