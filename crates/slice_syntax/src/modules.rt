//! Modules, which nest without a recursion.

ghost use Rattle.std.specs.Prelude.{◌≡◌, ◌++◌, Err, OnErr, OnOk};
ghost use Rattle.slice_syntax.specs.declared.fault.Stop.TheVariants as stops;
ghost use Rattle.slice_syntax.specs.Grammar.{parted, ◌▸◌};
ghost use Rattle.slice_syntax.specs.Terminals.{colons};
ghost use Rattle.slice_syntax.specs.Reading.{read};
ghost use Rattle.slice_syntax.specs.Rules.{metadata, word};
ghost use Rattle.slice_syntax.specs.Files.{Enters, Opens, exits, head};
ghost use Rattle.slice_syntax.specs.Moving.{modules_at};
ghost use Rattle.slice_syntax.specs.Taking.{Takes, TakesMove, TakesWith};

use crate::cursor::Cursor;
use crate::definitions::{close, definition};
use crate::fault::Stop;
use crate::terminal::{CLOSE_BRACE, COLONS, MODULE, OPEN_BRACE, OPEN_SQUARE};
use crate::tree::Item;
use crate::words::metadata;
use ice_types::List;
use std::alloc::Global;

/// `{ meta module }`
pub(crate) fn modules(alloc: Global, cursor: &mut Cursor) -> Result<List<Item>, Stop>
    ensures { Takes (λ x. x) result cursor.new (modules_at cursor.old) }
{
    let mut items = List::new(alloc);
    let mut open_modules = Vec::new(alloc);
    loop {
        match open_modules.pop() {
            Some(names) => inner_move(alloc, cursor, names, &mut open_modules, &mut items)?,
            None => {
                if !cursor.begins(&[OPEN_SQUARE, MODULE]) {
                    return Ok(items);
                }
                open_modules.push(outer_move(alloc, cursor, &mut items)?)?;
            }
        }
    }
}

/// The head of a module after its metadata, and how many names it has.
fn outer_move(alloc: Global, cursor: &mut Cursor, items: &mut List<Item>) -> Result<usize, Stop>
    ensures { TakesWith (Opens items.old items.new) result cursor.new (read (metadata ▸ head) cursor.old) }
{
    metadata(cursor)?;
    module_head(alloc, cursor, items)
}

/// The head of a module, a definition, or the end of the innermost module, which has so many names.
/// `around` has the numbers of names of the modules that are open around it, and after the call of all.
fn inner_move(
    alloc: Global,
    cursor: &mut Cursor,
    names: usize,
    around: &mut Vec<usize>,
    items: &mut List<Item>,
) -> Result<(), Stop>
    ensures { TakesMove names around.old.items around.new.items items.old items.new result cursor.old cursor.new }
{
    if cursor.begins(&[CLOSE_BRACE]) {
        close(cursor)?;
        return leave(names, items);
    }
    around.push(names)?;
    metadata(cursor)?;
    if cursor.begins(&[MODULE]) {
        around.push(module_head(alloc, cursor, items)?)?;
    } else {
        items.push(definition(alloc, cursor)?)?;
    }
    Ok(())
}

/// `"module" word { "::" word } "{"`, and how many words these are.
fn module_head(alloc: Global, cursor: &mut Cursor, items: &mut List<Item>) -> Result<usize, Stop>
    ensures { TakesWith (Opens items.old items.new) result cursor.new (read head cursor.old) }
{
    cursor.take(MODULE)?;
    let before = items.len();
    module_words(alloc, cursor, items)?;
    cursor.take(OPEN_BRACE)?;
    Ok(items.len() - before)
}

/// `word { "::" word }`
fn module_words(alloc: Global, cursor: &mut Cursor, items: &mut List<Item>) -> Result<(), Stop>
    ensures { TakesWith (Enters items.old items.new) result cursor.new (read (parted colons word) cursor.old) }
{
    items.push(Item::Enter(cursor.take_word(alloc)?))?;
    while cursor.begins(&[COLONS]) {
        cursor.take(COLONS)?;
        items.push(Item::Enter(cursor.take_word(alloc)?))?;
    }
    Ok(())
}

/// So many ends of modules.
fn leave(count: usize, items: &mut List<Item>) -> Result<(), Stop>
    ensures ok { OnOk result (items.new ≡ items.old ++ exits count) }
    ensures err { OnErr result (result ≡ Err stops.Memory) }
{
    for _ in 0..count {
        items.push(Item::Exit)?;
    }
    Ok(())
}
