//! Type ids of what is declared.

ghost use Rattle.std.specs.Prelude.{◌≡◌, ◌<◌, ◌≤◌, ◌++◌, length, List, ℕ, map, None, IfOk, OnOk, codes, string_bytes};
ghost use Rattle.slice_syntax.specs.Places.{IsPlain};
ghost use Rattle.ice_types.specs.Tables.{IsTypeId, IsNewId};
ghost use Rattle.slice_meaning.specs.Names.{declared_in};
ghost use Rattle.slice_meaning.specs.Known.{id_here};
ghost use Rattle.slice_meaning.specs.Numbers.{scope_at};
ghost use Rattle.slice_faults.specs.Held.{known_of};
ghost use Rattle.slice_faults.specs.Kept.{IsKept};

use crate::known::Known;
use ice_types::Name;
use slice_syntax::Word;
use std::alloc::{AllocError, Global};

/// The type id of a name that the innermost open scope does not have. No row of the schema has it.
pub(crate) fn new_id(alloc: Global, known: &Known, word: &Word) -> Result<Name, AllocError>
    requires plain { IsPlain word.now.name }
    requires kept { IsKept (known_of known.now) }
    requires new { declared_in known.now.names word.now.name (scope_at known.now.names known.now.scope) ≡ None }
    ensures is { IfOk result (λ id. id ≡ id_here (known_of known.now) word.now) }
    ensures type_id { IfOk result (λ id. IsTypeId id) }
    ensures new_id { IfOk result (λ id. IsNewId known.now.rows id) }
{
    let mut names = scope_names(alloc, known)?;
    let mut id = String::new(alloc);
    while let Some(name) = names.pop() {
        add_part(&mut id, name)?;
    }
    add_part(&mut id, word.name.as_str())?;
    let id = Name::of(alloc, id.as_str())?;
    Ok(id)
}

/// The names of the open modules, the innermost first.
fn scope_names<'a>(alloc: Global, known: &Known<'a>) -> Result<Vec<&'a str>, AllocError>
    ensures { IfOk result (λ names. map (λ name. name.now) names.items ≡ scope_at known.now.names known.now.scope) }
{
    let mut names = Vec::new(alloc);
    let mut scope = known.scope;
    while scope != 0 {
        names.push(known.names.name(scope))?;
        scope = known.names.around(scope);
    }
    Ok(names)
}

/// Puts `::` and a name last.
fn add_part(id: &mut String, name: &str) -> Result<(), AllocError>
    ensures { OnOk result (string_bytes id.new ≡ string_bytes id.old ++ (codes "::" ++ name.now)) }
{
    id.push_str("::")?;
    id.push_str(name)
}
