//! Definitions but modules, classes and interfaces.

ghost use Rattle.slice_syntax.specs.Reading.{read};
ghost use Rattle.slice_syntax.specs.Rules.{close, constant_item, definition, dictionary_item, entries, entry};
ghost use Rattle.slice_syntax.specs.Rules.{entry_comma, enum_item, member, members, sequence_item, struct_item};
ghost use Rattle.slice_syntax.specs.Taking.{Takes, TakesNoMemory};

use crate::classes::{class, exception};
use crate::cursor::Cursor;
use crate::fault::Stop;
use crate::interfaces::interface;
use crate::terminal::{
    CLASS, CLOSE_BRACE, COMMA, CONST, DICTIONARY, ENUM, EQUALS, EXCEPTION, GREATER, LESS,
    OPEN_BRACE, SEMICOLON, SEQUENCE, STRUCT, Terminal,
};
use crate::tree::{Constant, Field, Item, Word};
use crate::words::{MEMBERS, given_value, metadata, type_word, value};
use ice_types::List;
use std::alloc::Global;

/// `const | enum | struct | seq | dict | class | exception | interface`
#[tactic(auto, unfolding(crate::specs::Rules::definition))]
pub(crate) fn definition(alloc: Global, cursor: &mut Cursor) -> Result<Item, Stop>
    ensures { Takes (λ x. x) result cursor.new (read definition cursor.old) }
{
    if cursor.begins(&[CONST]) {
        return constant(alloc, cursor);
    }
    if cursor.begins(&[ENUM]) {
        return enumeration(alloc, cursor);
    }
    if cursor.begins(&[STRUCT]) {
        return structure(alloc, cursor);
    }
    if cursor.begins(&[SEQUENCE]) {
        return sequence(alloc, cursor);
    }
    if cursor.begins(&[DICTIONARY]) {
        return dictionary(alloc, cursor);
    }
    if cursor.begins(&[CLASS]) {
        return class(alloc, cursor);
    }
    if cursor.begins(&[EXCEPTION]) {
        return exception(alloc, cursor);
    }
    interface(alloc, cursor)
}

/// `"const" meta type word "=" value ";"`
#[tactic(auto, unfolding(crate::specs::Rules::constant_item))]
fn constant(alloc: Global, cursor: &mut Cursor) -> Result<Item, Stop>
    ensures { Takes (λ x. x) result cursor.new (read constant_item cursor.old) }
{
    cursor.take(CONST)?;
    metadata(cursor)?;
    let kind = type_word(alloc, cursor)?;
    let word = cursor.take_word(alloc)?;
    cursor.take(EQUALS)?;
    let value = value(alloc, cursor)?;
    cursor.take(SEMICOLON)?;
    Ok(Item::Const { kind, word, value })
}

/// `"enum" word "{" [ entry { "," entry } [ "," ] ] "}" [ ";" ]`
#[tactic(auto, unfolding(crate::specs::Rules::enum_item))]
fn enumeration(alloc: Global, cursor: &mut Cursor) -> Result<Item, Stop>
    ensures { Takes (λ x. x) result cursor.new (read enum_item cursor.old) }
{
    cursor.take(ENUM)?;
    let word = cursor.take_word(alloc)?;
    cursor.take(OPEN_BRACE)?;
    let entries = entries(alloc, cursor)?;
    close(cursor)?;
    Ok(Item::Enum { word, entries })
}

/// `[ entry { "," entry } [ "," ] ]`
#[tactic(auto, unfolding(crate::specs::Rules::entries))]
fn entries(alloc: Global, cursor: &mut Cursor) -> Result<List<(Word, Option<Constant>)>, Stop>
    ensures { Takes (λ x. x) result cursor.new (read entries cursor.old) }
{
    let mut entries = List::new(alloc);
    let mut goes_on = true;
    while goes_on && cursor.begins(&[Terminal::Word]) {
        let (entry, comma) = entry_comma(alloc, cursor)?;
        entries.push(entry)?;
        goes_on = comma;
    }
    Ok(entries)
}

/// An entry, and whether a comma stands after it.
#[tactic(auto, unfolding(crate::specs::Rules::entry_comma))]
fn entry_comma(alloc: Global, cursor: &mut Cursor) -> Result<((Word, Option<Constant>), bool), Stop>
    ensures { Takes (λ x. x) result cursor.new (read entry_comma cursor.old) }
{
    let entry = entry(alloc, cursor)?;
    let comma = cursor.take_if(COMMA)?;
    Ok((entry, comma.is_some()))
}

/// `word [ "=" value ]`
#[tactic(auto, unfolding(crate::specs::Rules::entry))]
fn entry(alloc: Global, cursor: &mut Cursor) -> Result<(Word, Option<Constant>), Stop>
    ensures { Takes (λ x. x) result cursor.new (read entry cursor.old) }
{
    let word = cursor.take_word(alloc)?;
    let value = given_value(alloc, cursor)?;
    Ok((word, value))
}

/// `"struct" word "{" { member } "}" [ ";" ]`
#[tactic(auto, unfolding(crate::specs::Rules::struct_item))]
fn structure(alloc: Global, cursor: &mut Cursor) -> Result<Item, Stop>
    ensures { Takes (λ x. x) result cursor.new (read struct_item cursor.old) }
{
    cursor.take(STRUCT)?;
    let word = cursor.take_word(alloc)?;
    cursor.take(OPEN_BRACE)?;
    let fields = members(alloc, cursor)?;
    close(cursor)?;
    Ok(Item::Struct { word, fields })
}

#[tactic(auto, unfolding(crate::specs::Rules::members))]
fn members(alloc: Global, cursor: &mut Cursor) -> Result<List<Field>, Stop>
    ensures { Takes (λ x. x) result cursor.new (read members cursor.old) }
{
    let mut fields = List::new(alloc);
    while cursor.begins(&MEMBERS) {
        fields.push(member(alloc, cursor)?)?;
    }
    Ok(fields)
}

/// `meta type word [ "=" value ] ";"`
#[tactic(auto, unfolding(crate::specs::Rules::member))]
fn member(alloc: Global, cursor: &mut Cursor) -> Result<Field, Stop>
    ensures { Takes (λ x. x) result cursor.new (read member cursor.old) }
{
    metadata(cursor)?;
    let kind = type_word(alloc, cursor)?;
    let word = cursor.take_word(alloc)?;
    let value = given_value(alloc, cursor)?;
    cursor.take(SEMICOLON)?;
    Ok(Field {
        tag: None,
        kind,
        word,
        value,
    })
}

/// `"sequence" "<" meta type ">" word ";"`
#[tactic(auto, unfolding(crate::specs::Rules::sequence_item))]
fn sequence(alloc: Global, cursor: &mut Cursor) -> Result<Item, Stop>
    ensures { Takes (λ x. x) result cursor.new (read sequence_item cursor.old) }
{
    cursor.take(SEQUENCE)?;
    cursor.take(LESS)?;
    metadata(cursor)?;
    let element = type_word(alloc, cursor)?;
    cursor.take(GREATER)?;
    let word = cursor.take_word(alloc)?;
    cursor.take(SEMICOLON)?;
    Ok(Item::Seq { word, element })
}

/// `"dictionary" "<" meta type "," meta type ">" word ";"`
#[tactic(auto, unfolding(crate::specs::Rules::dictionary_item))]
fn dictionary(alloc: Global, cursor: &mut Cursor) -> Result<Item, Stop>
    ensures { Takes (λ x. x) result cursor.new (read dictionary_item cursor.old) }
{
    cursor.take(DICTIONARY)?;
    cursor.take(LESS)?;
    metadata(cursor)?;
    let key = type_word(alloc, cursor)?;
    cursor.take(COMMA)?;
    metadata(cursor)?;
    let value = type_word(alloc, cursor)?;
    cursor.take(GREATER)?;
    let word = cursor.take_word(alloc)?;
    cursor.take(SEMICOLON)?;
    Ok(Item::Dict { word, key, value })
}

/// `"}" [ ";" ]`
#[tactic(auto, unfolding(crate::specs::Rules::close))]
pub(crate) fn close(cursor: &mut Cursor) -> Result<(), Stop>
    ensures { TakesNoMemory (λ x. x) result cursor.new (read close cursor.old) }
{
    cursor.take(CLOSE_BRACE)?;
    cursor.take_if(SEMICOLON)?;
    Ok(())
}
