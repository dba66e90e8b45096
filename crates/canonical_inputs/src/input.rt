//! The whole input.

ghost use Rattle.std.specs.Prelude.{◌≡◌, ◌≤◌, ℕ, List, IsTrue, IfSome, length};
ghost use Rattle.ice_encoding.specs.Opening.{encapsulated_bytes};
ghost use Rattle.canonical_inputs.specs.Written.{IsWritten, one_member};
ghost use Rattle.canonical_inputs.specs.Inputs.{IsOwnForm};

use crate::walk::is_canonical_instance;
use canonical_values::is_canonical;
use ice_encoding::{LARGEST, SMALLEST};
use ice_prims::Cursor;
use ice_types::{Schema, TypeRef};
use std::alloc::Global;

/// Whether the whole input is the canonical encapsulation, in sliced format, of a value of the type: one that leads to
/// no instance, or a reference to one. Where the answer is `false`, it may be so all the same.
/// (Ice manual, "Basic Data Encoding", "Encapsulations".)
pub fn is_canonical_input(alloc: Global, schema: &Schema, kind: TypeRef, input: &[u8]) -> bool
    ensures { IsTrue result → (name : List ℕ) → IsOwnForm schema.now (one_member name kind) input.now }
{
    // Its contract says what every schema keeps.
    schema.rules();
    match content_of(input) {
        Some(content) => is_canonical_content(alloc, schema, kind, content),
        None => false,
    }
}

/// Whether the content is the canonical one of a value of the type, and not told where that leads to an instance from
/// within.
fn is_canonical_content(alloc: Global, schema: &Schema, kind: TypeRef, content: &[u8]) -> bool
    ensures { IsTrue result → (name : List ℕ) → IsWritten schema.now (one_member name kind) content.now }
{
    match kind {
        TypeRef::Class(declared) if content.first() != Some(&0) => {
            is_canonical_instance(alloc, schema, declared, content)
        }
        _ => is_canonical(alloc, schema, kind, content),
    }
}

/// What the encapsulation holds that is the whole input. None where the input is none, or is longer than may be.
/// (Ice manual, "Basic Data Encoding", "Encapsulations".)
pub fn content_of(input: &[u8]) -> Option<&[u8]>
    ensures encapsulated { IfSome result (λ content. input.now ≡ encapsulated_bytes content.now) }
    ensures short { IfSome result (λ content. length input.now ≤ LARGEST) }
{
    if input.len() < SMALLEST || input.len() > LARGEST || input[4] != 1 || input[5] != 1 {
        return None;
    }
    match Cursor::new(input).take_int() {
        Ok(size) if size == input.len() as i32 => Some(&input[SMALLEST..]),
        _ => None,
    }
}
