//! The word TYPE of the command line.

ghost use Rattle.std.specs.Prelude.{◌≡◌, IfSome};
ghost use Rattle.ice_types.specs.Tables.{FindsKind};
ghost use Rattle.ice_types.specs.declared.kind.TypeRef.{TypeRef};
ghost use Rattle.node_commands.specs.TypeWords.{IsTypeWord, IsProxyWord};

use ice_types::{Schema, TypeRef};

/// The type that the word names: a built-in type's word, `Object`, `Object*`, a type id, or an interface's
/// type id followed by `*`. None where it names none.
pub fn type_of_word(schema: &Schema, word: &str) -> Option<TypeRef>
    ensures named { FindsKind (IsTypeWord schema.now word.now) result }
    ensures only { IfSome result (λ kind.
        (other : TypeRef) → IsTypeWord schema.now word.now other → other ≡ kind) }
{
    match schema.type_named(word) {
        Some(kind) => Some(kind),
        None => proxy_of_word(schema, word),
    }
}

/// The proxy of the interface whose type id the word is, with a `*` after it.
fn proxy_of_word(schema: &Schema, word: &str) -> Option<TypeRef>
    ensures named { FindsKind (IsProxyWord schema.now word.now) result }
    ensures only { IfSome result (λ kind.
        (other : TypeRef) → IsProxyWord schema.now word.now other → other ≡ kind) }
{
    schema.rules();
    let id = word.strip_suffix('*')?;
    let at = schema.interface(id)?;
    Some(TypeRef::Proxy(Some(at)))
}
