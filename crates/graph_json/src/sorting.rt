//! The members of an object, brought in the order of their names.

ghost use Rattle.std.specs.Prelude.{◌≡◌, IfOk};
ghost use Rattle.serde_json.specs.Data.{no_members};
ghost use Rattle.graph_json.specs.View.{members_view, put_each};

use crate::found::names_rise;
use crate::tree::Json;
use std::alloc::{AllocError, Global};
use std::collections::BTreeMap;

/// What stands at each name.
type Entries<'a> = Vec<(&'a str, Json<'a>)>;

/// The entries by rising name, where the last one of a name counts.
pub(crate) fn in_order<'a>(alloc: Global, entries: Entries<'a>) -> Result<Entries<'a>, AllocError>
    ensures { IfOk result (λ v. members_view v.items ≡ put_each entries.entry.items no_members) }
{
    if names_rise(entries.as_slice()) {
        return Ok(entries);
    }
    let map = by_name(alloc, entries)?;
    let mut entries: Entries<'a> = map.into_iter().collect(alloc)?;
    entries.shrink_to_fit();
    Ok(entries)
}

/// The entries in a map, one after another.
fn by_name<'a>(
    alloc: Global,
    entries: Entries<'a>,
) -> Result<BTreeMap<&'a str, Json<'a>>, AllocError>
    ensures { IfOk result (λ map. members_view map.entries ≡ put_each entries.entry.items no_members) }
{
    let mut map = BTreeMap::new(alloc);
    for (name, json) in entries {
        drop(map.insert(name, json)?);
    }
    Ok(map)
}
