//! The lengths before the values of optional members. (Ice manual, "Data Encoding for Optional Values".)

ghost use Rattle.std.specs.Prelude.{◌≡◌};
ghost use Rattle.ice_encoding.specs.Prefixes as spec;
ghost use Rattle.value_parts.specs.Prefixes.{prefix_seen};

use ice_types::{FORMAT_FSIZE, FORMAT_VSIZE, Schema, TypeRef};

/// Which length stands before a value.
#[derive(Clone, Copy)]
pub enum Prefix {
    /// None.
    NoLength,
    /// The size with which the value begins.
    OwnSize,
    /// A size.
    AsSize,
    /// An int.
    AsInt,
}

/// Which length stands before a value of the type.
pub fn prefix_of(schema: &Schema, kind: TypeRef) -> Prefix
    ensures { prefix_seen result ≡ spec.prefix_of schema.now kind }
{
    let format = schema.optional_format(kind);
    if format == FORMAT_VSIZE {
        if counts_itself(schema, kind) {
            Prefix::OwnSize
        } else {
            Prefix::AsSize
        }
    } else if format == FORMAT_FSIZE {
        Prefix::AsInt
    } else {
        Prefix::NoLength
    }
}

/// Whether a value of the type begins with a size that counts all bytes behind it.
fn counts_itself(schema: &Schema, kind: TypeRef) -> bool
    ensures { result ≡ spec.counts_itself schema.now kind }
{
    match kind {
        TypeRef::Text => true,
        TypeRef::Seq(at) => match schema.seqs().get(at as usize) {
            Some(decl) => is_one(schema.fixed_size(decl.element)),
            None => false,
        },
        TypeRef::Bool
        | TypeRef::Byte
        | TypeRef::Short
        | TypeRef::Int
        | TypeRef::Long
        | TypeRef::Dict(_)
        | TypeRef::Struct(_)
        | TypeRef::Enum(_)
        | TypeRef::Proxy(_)
        | TypeRef::Class(_) => false,
    }
}

/// Whether there is a size, and it is 1.
fn is_one(size: Option<u32>) -> bool
    ensures { result ≡ spec.is_one size }
{
    match size {
        Some(size) => size == 1,
        None => false,
    }
}
