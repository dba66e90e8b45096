//! The walk over the bytes, with a stack of its own.

ghost use Rattle.std.specs.Prelude.{IsTrue};
ghost use Rattle.canonical_values.specs.Standing.{IsCanonical};

use crate::frame::{Frame, Left, Step, pass_next};
use ice_types::{MOST_DEPTH, Schema, TypeRef};
use std::alloc::Global;

/// Whether the bytes are the canonical bytes of a value of the type in which each reference to an instance is null.
/// Where the answer is `false`, they may be so all the same. (Ice manual, "Data Encoding".)
pub fn is_canonical(alloc: Global, schema: &Schema, kind: TypeRef, bytes: &[u8]) -> bool
    ensures { IsTrue result → IsCanonical schema.now kind bytes.now }
{
    let mut at = 0;
    let mut top = Frame {
        levels: MOST_DEPTH,
        left: Left::Items(kind, 1),
    };
    let mut below = Vec::new(alloc);
    for _ in 0..u64::MAX {
        match pass_next(schema, bytes, at, top) {
            Step::On(next, rest) => {
                at = next;
                top = rest;
            }
            Step::Into(next, rest, inside) => {
                if below.push(rest).is_err() {
                    return false;
                }
                at = next;
                top = inside;
            }
            Step::Done => match below.pop() {
                Some(frame) => top = frame,
                None => return at == bytes.len(),
            },
            Step::Stop => return false,
        }
    }
    false
}
