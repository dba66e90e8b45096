//! Classes and exceptions.

ghost use Rattle.slice_syntax.specs.Reading.{read};
ghost use Rattle.slice_syntax.specs.Rules.{base, body, class_item, compact, exception_item};
ghost use Rattle.slice_syntax.specs.Rules.{tagged_member, tagged_members};
ghost use Rattle.slice_syntax.specs.Taking.{Takes};

use crate::cursor::Cursor;
use crate::definitions::close;
use crate::fault::Stop;
use crate::terminal::{CLASS, CLOSE_ROUND, EXCEPTION, EXTENDS, OPEN_BRACE, OPEN_ROUND, SEMICOLON};
use crate::tree::{Constant, Field, Item, Path};
use crate::words::{TAGGED_MEMBERS, given_value, metadata, scoped, tag, type_word, value};
use ice_types::List;
use std::alloc::Global;

/// `"class" word ( ";" | [ "(" value ")" ] [ "extends" scoped ] "{" { omember } "}" [ ";" ] )`
#[tactic(auto, unfolding(crate::specs::Rules::class_item, crate::specs::Rules::class_body))]
pub(crate) fn class(alloc: Global, cursor: &mut Cursor) -> Result<Item, Stop>
    ensures { Takes (λ x. x) result cursor.new (read class_item cursor.old) }
{
    cursor.take(CLASS)?;
    let word = cursor.take_word(alloc)?;
    if cursor.take_if(SEMICOLON)?.is_some() {
        return Ok(Item::Class {
            word,
            compact: None,
            base: None,
            fields: None,
        });
    }
    let compact = compact(alloc, cursor)?;
    let base = base(alloc, cursor)?;
    let fields = body(alloc, cursor)?;
    Ok(Item::Class {
        word,
        compact,
        base,
        fields: Some(fields),
    })
}

/// `"exception" word [ "extends" scoped ] "{" { omember } "}" [ ";" ]`
#[tactic(auto, unfolding(crate::specs::Rules::exception_item))]
pub(crate) fn exception(alloc: Global, cursor: &mut Cursor) -> Result<Item, Stop>
    ensures { Takes (λ x. x) result cursor.new (read exception_item cursor.old) }
{
    cursor.take(EXCEPTION)?;
    let word = cursor.take_word(alloc)?;
    let base = base(alloc, cursor)?;
    let fields = body(alloc, cursor)?;
    Ok(Item::Exception { word, base, fields })
}

/// `[ "(" value ")" ]`
#[tactic(auto, unfolding(crate::specs::Rules::compact))]
fn compact(alloc: Global, cursor: &mut Cursor) -> Result<Option<Constant>, Stop>
    ensures { Takes (λ x. x) result cursor.new (read compact cursor.old) }
{
    if cursor.begins(&[OPEN_ROUND]) {
        cursor.take(OPEN_ROUND)?;
        let number = value(alloc, cursor)?;
        cursor.take(CLOSE_ROUND)?;
        Ok(Some(number))
    } else {
        Ok(None)
    }
}

/// `[ "extends" scoped ]`
#[tactic(auto, unfolding(crate::specs::Rules::base))]
fn base(alloc: Global, cursor: &mut Cursor) -> Result<Option<Path>, Stop>
    ensures { Takes (λ x. x) result cursor.new (read base cursor.old) }
{
    if cursor.begins(&[EXTENDS]) {
        cursor.take(EXTENDS)?;
        Ok(Some(scoped(alloc, cursor)?))
    } else {
        Ok(None)
    }
}

/// `"{" { omember } "}" [ ";" ]`
#[tactic(auto, unfolding(crate::specs::Rules::body))]
fn body(alloc: Global, cursor: &mut Cursor) -> Result<List<Field>, Stop>
    ensures { Takes (λ x. x) result cursor.new (read body cursor.old) }
{
    cursor.take(OPEN_BRACE)?;
    let fields = tagged_members(alloc, cursor)?;
    close(cursor)?;
    Ok(fields)
}

#[tactic(auto, unfolding(crate::specs::Rules::tagged_members))]
fn tagged_members(alloc: Global, cursor: &mut Cursor) -> Result<List<Field>, Stop>
    ensures { Takes (λ x. x) result cursor.new (read tagged_members cursor.old) }
{
    let mut fields = List::new(alloc);
    while cursor.begins(&TAGGED_MEMBERS) {
        fields.push(tagged_member(alloc, cursor)?)?;
    }
    Ok(fields)
}

/// `meta [ opt ] type word [ "=" value ] ";"`
#[tactic(auto, unfolding(crate::specs::Rules::tagged_member))]
fn tagged_member(alloc: Global, cursor: &mut Cursor) -> Result<Field, Stop>
    ensures { Takes (λ x. x) result cursor.new (read tagged_member cursor.old) }
{
    metadata(cursor)?;
    let tag = tag(alloc, cursor)?;
    let kind = type_word(alloc, cursor)?;
    let word = cursor.take_word(alloc)?;
    let value = given_value(alloc, cursor)?;
    cursor.take(SEMICOLON)?;
    Ok(Field {
        tag,
        kind,
        word,
        value,
    })
}
