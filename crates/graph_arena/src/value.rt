//! A value of any type.

use ice_types::{Bytes, List, Name, Proxy};

/// A value, by the form that its type gives it. It holds no name of its type.
#[derive(Drop)]
pub enum Value {
    Bool(bool),
    Byte(u8),
    Short(i16),
    Int(i32),
    Long(i64),
    Text(Name),
    /// The items of a sequence, in order.
    Seq(List<Value>),
    /// The items of a sequence of bytes, in order. `Seq` of as many `Byte` is the same value.
    Bytes(Bytes),
    /// The pairs of a dictionary.
    Pairs(List<(Value, Value)>),
    /// The values of a struct's members, in order.
    Members(List<Value>),
    /// The number of an enumerator.
    Enum(u32),
    /// A proxy, or None for the null proxy.
    Proxy(Option<Box<Proxy>>),
    /// The number of a class instance, counted from 0, or None for null.
    Reference(Option<u32>),
}
