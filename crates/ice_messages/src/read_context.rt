//! Reading the context of a call. (Ice manual, "Request Contexts".)

ghost use Rattle.std.specs.Prelude.{◌≡◌, ◌<◌, ℕ, List, [], IfOk};
ghost use Rattle.ice_messages.specs.Context.{context, entries_at};
ghost use Rattle.ice_messages.specs.Answers.{ReadsPart};
ghost use Rattle.ice_messages.specs.Seen.{ReadsEntries, seen};

use ice_prims::{Cursor, Kind, ReadFault};
use ice_types::{List, Name};
use std::alloc::{AllocError, Global};
use std::collections::BTreeMap;

/// Names with their values, in rising order of the names. A name twice is `EqualKey` at the second.
pub fn take_context(alloc: Global, cursor: &mut Cursor<'_>) -> Result<List<(Name, Name)>, ReadFault>
    ensures { ReadsPart result cursor.new (context.read cursor.old) }
{
    let count = cursor.take_size()?;
    let entries = take_entries(alloc, count, cursor)?;
    Ok(copied(alloc, entries)?)
}

/// So many names with their values, which are not copied.
fn take_entries<'a>(
    alloc: Global,
    count: u32,
    cursor: &mut Cursor<'a>,
) -> Result<BTreeMap<&'a str, &'a str>, ReadFault>
    ensures { ReadsEntries result cursor.new (entries_at count [] cursor.old) }
{
    let mut entries = BTreeMap::new(alloc);
    for _ in 0..count {
        let equal = cursor.fault(Kind::EqualKey);
        let name = cursor.take_str()?;
        if entries.contains_key(name) {
            return Err(ReadFault::Broken(equal));
        }
        let value = cursor.take_str()?;
        entries.insert(name, value)?;
    }
    Ok(entries)
}

/// The entries as texts of their own.
fn copied(
    alloc: Global,
    mut entries: BTreeMap<&str, &str>,
) -> Result<List<(Name, Name)>, AllocError>
    ensures { IfOk result (λ copies. copies ≡ seen entries.entry) }
{
    let mut copies = List::new(alloc);
    while let Some((name, value)) = entries.pop_first() {
        copies.push((Name::of(alloc, name)?, Name::of(alloc, value)?))?;
    }
    Ok(copies)
}
