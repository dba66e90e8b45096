//! Interfaces and their operations.

ghost use Rattle.slice_syntax.specs.Reading.{read};
ghost use Rattle.slice_syntax.specs.Rules.{answered, bases, interface_item, operation, operations, parameter};
ghost use Rattle.slice_syntax.specs.Rules.{parameter_list, parameters, paths, thrown};
ghost use Rattle.slice_syntax.specs.Taking.{Takes};

use crate::cursor::Cursor;
use crate::definitions::close;
use crate::fault::Stop;
use crate::terminal::{
    CLOSE_ROUND, COMMA, EXTENDS, IDEMPOTENT, INTERFACE, OPEN_BRACE, OPEN_ROUND, OUT, SEMICOLON,
    THROWS, VOID,
};
use crate::tree::{Constant, Field, Item, OpTree, Param, Path, TypeWord};
use crate::words::{OPERATIONS, PARAMETERS, metadata, scoped, tag, type_word};
use ice_types::List;
use std::alloc::Global;

/// `"interface" word ( ";" | [ "extends" scoped { "," scoped } ] "{" { op } "}" [ ";" ] )`
#[tactic(auto, unfolding(crate::specs::Rules::interface_item, crate::specs::Rules::interface_body))]
pub(crate) fn interface(alloc: Global, cursor: &mut Cursor) -> Result<Item, Stop>
    ensures { Takes (λ x. x) result cursor.new (read interface_item cursor.old) }
{
    cursor.take(INTERFACE)?;
    let word = cursor.take_word(alloc)?;
    if cursor.take_if(SEMICOLON)?.is_some() {
        return Ok(Item::Interface {
            word,
            bases: List::new(alloc),
            ops: None,
        });
    }
    let bases = bases(alloc, cursor)?;
    cursor.take(OPEN_BRACE)?;
    let ops = operations(alloc, cursor)?;
    close(cursor)?;
    Ok(Item::Interface {
        word,
        bases,
        ops: Some(ops),
    })
}

/// `[ "extends" scoped { "," scoped } ]`
#[tactic(auto, unfolding(crate::specs::Rules::bases))]
fn bases(alloc: Global, cursor: &mut Cursor) -> Result<List<Path>, Stop>
    ensures { Takes (λ x. x) result cursor.new (read bases cursor.old) }
{
    if cursor.begins(&[EXTENDS]) {
        cursor.take(EXTENDS)?;
        paths(alloc, cursor)
    } else {
        Ok(List::new(alloc))
    }
}

/// `[ "throws" scoped { "," scoped } ]`
#[tactic(auto, unfolding(crate::specs::Rules::thrown))]
fn thrown(alloc: Global, cursor: &mut Cursor) -> Result<List<Path>, Stop>
    ensures { Takes (λ x. x) result cursor.new (read thrown cursor.old) }
{
    if cursor.begins(&[THROWS]) {
        cursor.take(THROWS)?;
        paths(alloc, cursor)
    } else {
        Ok(List::new(alloc))
    }
}

/// `scoped { "," scoped }`
#[tactic(auto, unfolding(crate::specs::Rules::paths))]
fn paths(alloc: Global, cursor: &mut Cursor) -> Result<List<Path>, Stop>
    ensures { Takes (λ x. x) result cursor.new (read paths cursor.old) }
{
    let mut paths = List::new(alloc);
    paths.push(scoped(alloc, cursor)?)?;
    while cursor.begins(&[COMMA]) {
        cursor.take(COMMA)?;
        paths.push(scoped(alloc, cursor)?)?;
    }
    Ok(paths)
}

#[tactic(auto, unfolding(crate::specs::Rules::operations))]
fn operations(alloc: Global, cursor: &mut Cursor) -> Result<List<OpTree>, Stop>
    ensures { Takes (λ x. x) result cursor.new (read operations cursor.old) }
{
    let mut ops = List::new(alloc);
    while cursor.begins(&OPERATIONS) {
        ops.push(operation(alloc, cursor)?)?;
    }
    Ok(ops)
}

/// `meta [ "idempotent" ] ( "void" | [ opt ] type ) word "(" [ param { "," param } ] ")" [ "throws" scoped { ","
/// scoped } ] ";"`
#[tactic(auto, unfolding(crate::specs::Rules::operation))]
fn operation(alloc: Global, cursor: &mut Cursor) -> Result<OpTree, Stop>
    ensures { Takes (λ x. x) result cursor.new (read operation cursor.old) }
{
    metadata(cursor)?;
    let idempotent = cursor.take_if(IDEMPOTENT)?;
    let (tag, result) = answered(alloc, cursor)?;
    let word = cursor.take_word(alloc)?;
    cursor.take(OPEN_ROUND)?;
    let params = parameters(alloc, cursor)?;
    cursor.take(CLOSE_ROUND)?;
    let throws = thrown(alloc, cursor)?;
    cursor.take(SEMICOLON)?;
    Ok(OpTree {
        idempotent: idempotent.is_some(),
        tag,
        result,
        word,
        params,
        throws,
    })
}

/// `"void" | [ opt ] type`
#[tactic(auto, unfolding(crate::specs::Rules::answered))]
fn answered(
    alloc: Global,
    cursor: &mut Cursor,
) -> Result<(Option<Constant>, Option<TypeWord>), Stop>
    ensures { Takes (λ x. x) result cursor.new (read answered cursor.old) }
{
    if cursor.begins(&[VOID]) {
        cursor.take(VOID)?;
        return Ok((None, None));
    }
    let tag = tag(alloc, cursor)?;
    let kind = type_word(alloc, cursor)?;
    Ok((tag, Some(kind)))
}

/// `[ param { "," param } ]`
#[tactic(auto, unfolding(crate::specs::Rules::parameters))]
fn parameters(alloc: Global, cursor: &mut Cursor) -> Result<List<Param>, Stop>
    ensures { Takes (λ x. x) result cursor.new (read parameters cursor.old) }
{
    if cursor.begins(&PARAMETERS) {
        parameter_list(alloc, cursor)
    } else {
        Ok(List::new(alloc))
    }
}

/// `param { "," param }`
#[tactic(auto, unfolding(crate::specs::Rules::parameter_list))]
fn parameter_list(alloc: Global, cursor: &mut Cursor) -> Result<List<Param>, Stop>
    ensures { Takes (λ x. x) result cursor.new (read parameter_list cursor.old) }
{
    let mut params = List::new(alloc);
    params.push(parameter(alloc, cursor)?)?;
    while cursor.begins(&[COMMA]) {
        cursor.take(COMMA)?;
        params.push(parameter(alloc, cursor)?)?;
    }
    Ok(params)
}

/// `[ "out" ] meta [ opt ] type word`
#[tactic(auto, unfolding(crate::specs::Rules::parameter))]
fn parameter(alloc: Global, cursor: &mut Cursor) -> Result<Param, Stop>
    ensures { Takes (λ x. x) result cursor.new (read parameter cursor.old) }
{
    let out = cursor.take_if(OUT)?;
    metadata(cursor)?;
    let tag = tag(alloc, cursor)?;
    let kind = type_word(alloc, cursor)?;
    let word = cursor.take_word(alloc)?;
    Ok(Param {
        out: out.is_some(),
        field: Field {
            tag,
            kind,
            word,
            value: None,
        },
    })
}
