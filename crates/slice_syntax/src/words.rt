//! Names, types, values and metadata.

ghost use Rattle.slice_syntax.specs.Reading.{read};
ghost use Rattle.std.specs.Prelude.{◌≡◌};
ghost use Rattle.slice_syntax.specs.Rules.{is_minus, is_true, keyword_code, number_size, file_metadata, given};
ghost use Rattle.slice_syntax.specs.Rules.{metadata, named, named_type, names, number, object_type, plain_type, scoped};
ghost use Rattle.slice_syntax.specs.Rules.{signed_number, tag, text, texts, truth, type_word, value};
ghost use Rattle.slice_syntax.specs.Taking.{Takes, TakesNoMemory};

use crate::cursor::Cursor;
use crate::fault::Stop;
use crate::terminal::{
    BOOL, BYTE, CLOSE_ROUND, CLOSE_SQUARE, CLOSE_TWO, COLONS, COMMA, DOUBLE, EQUALS, FALSE, FLOAT,
    IDEMPOTENT, INT, LONG, MINUS, OBJECT, OPEN_ROUND, OPEN_SQUARE, OPEN_TWO, OPTIONAL, OUT, PLUS,
    SHORT, STAR, STRING, TRUE, Terminal, VALUE, VOID,
};
use crate::tree::{Const, Constant, Path, TypeWord};
use ice_types::{List, Name};
use slice_lexer::TokenKind;
use std::alloc::Global;

/// The keywords that are types and have no `*` after them.
const PLAIN_TYPES: [Terminal; 9] = [BOOL, BYTE, SHORT, INT, LONG, FLOAT, DOUBLE, STRING, VALUE];

/// These, and what a type begins with.
macro_rules! or_type {
    ($($other:expr),*) => {
        [
            $($other,)*
            BOOL, BYTE, SHORT, INT, LONG, FLOAT, DOUBLE, STRING, VALUE, OBJECT, COLONS, Terminal::Word,
        ]
    };
}

/// What a member of a struct may begin with.
pub(crate) const MEMBERS: [Terminal; 13] = or_type![OPEN_SQUARE];

/// What a member of a class or an exception may begin with.
pub(crate) const TAGGED_MEMBERS: [Terminal; 14] = or_type![OPEN_SQUARE, OPTIONAL];

/// What an operation may begin with.
pub(crate) const OPERATIONS: [Terminal; 16] = or_type![OPEN_SQUARE, IDEMPOTENT, VOID, OPTIONAL];

/// What a parameter may begin with.
pub(crate) const PARAMETERS: [Terminal; 15] = or_type![OUT, OPEN_SQUARE, OPTIONAL];

/// `{ "[" text { "," text } "]" }`
#[tactic(auto, unfolding(crate::specs::Rules::metadata))]
pub(crate) fn metadata(cursor: &mut Cursor) -> Result<(), Stop>
    ensures { TakesNoMemory (λ x. x) result cursor.new (read metadata cursor.old) }
{
    while cursor.begins(&[OPEN_SQUARE]) {
        cursor.take(OPEN_SQUARE)?;
        texts(cursor)?;
        cursor.take(CLOSE_SQUARE)?;
    }
    Ok(())
}

/// `"[[" text { "," text } "]]"`
#[tactic(auto, unfolding(crate::specs::Rules::file_metadata))]
pub(crate) fn file_metadata(cursor: &mut Cursor) -> Result<(), Stop>
    ensures { TakesNoMemory (λ x. x) result cursor.new (read file_metadata cursor.old) }
{
    cursor.take(OPEN_TWO)?;
    texts(cursor)?;
    cursor.take(CLOSE_TWO)?;
    Ok(())
}

/// `text { "," text }`
#[tactic(auto, unfolding(crate::specs::Rules::texts))]
fn texts(cursor: &mut Cursor) -> Result<(), Stop>
    ensures { TakesNoMemory (λ x. x) result cursor.new (read texts cursor.old) }
{
    cursor.take(Terminal::Text)?;
    while cursor.begins(&[COMMA]) {
        cursor.take(COMMA)?;
        cursor.take(Terminal::Text)?;
    }
    Ok(())
}

/// `[ "::" ] word { "::" word }`
#[tactic(auto, unfolding(crate::specs::Rules::scoped))]
pub(crate) fn scoped(alloc: Global, cursor: &mut Cursor) -> Result<Path, Stop>
    ensures { Takes (λ x. x) result cursor.new (read scoped cursor.old) }
{
    let outer = cursor.take_if(COLONS)?;
    let (words, first) = names(alloc, cursor)?;
    Ok(Path {
        outer: outer.is_some(),
        words,
        place: outer.unwrap_or(first),
    })
}

/// `word { "::" word }`, and the place of the first word.
#[tactic(auto, unfolding(crate::specs::Rules::names))]
fn names(alloc: Global, cursor: &mut Cursor) -> Result<(List<Name>, u32), Stop>
    ensures { Takes (λ x. x) result cursor.new (read names cursor.old) }
{
    let first = cursor.take_word(alloc)?;
    let mut names = List::new(alloc);
    names.push(first.name)?;
    while cursor.begins(&[COLONS]) {
        cursor.take(COLONS)?;
        names.push(cursor.take_word(alloc)?.name)?;
    }
    Ok((names, first.place))
}

/// A built-in type with or without `*`, or a scoped name with or without `*`.
#[tactic(auto,
// its own rule, and those by whose first token it decides
unfolding(crate::specs::Rules::type_word, crate::specs::Rules::plain_type, crate::specs::Rules::object_type))]
pub(crate) fn type_word(alloc: Global, cursor: &mut Cursor) -> Result<TypeWord, Stop>
    ensures { Takes (λ x. x) result cursor.new (read type_word cursor.old) }
{
    if cursor.begins(&PLAIN_TYPES) {
        return plain_type(cursor);
    }
    if cursor.begins(&[OBJECT]) {
        return object_type(cursor);
    }
    named_type(alloc, cursor)
}

/// `scoped [ "*" ]`
#[tactic(auto, unfolding(crate::specs::Rules::named_type))]
fn named_type(alloc: Global, cursor: &mut Cursor) -> Result<TypeWord, Stop>
    ensures { Takes (λ x. x) result cursor.new (read named_type cursor.old) }
{
    let path = scoped(alloc, cursor)?;
    let star = cursor.take_if(STAR)?;
    Ok(TypeWord::Named {
        path,
        star: star.is_some(),
    })
}

#[tactic(auto, unfolding(crate::specs::Rules::plain_type))]
fn plain_type(cursor: &mut Cursor) -> Result<TypeWord, Stop>
    ensures { TakesNoMemory (λ x. x) result cursor.new (read plain_type cursor.old) }
{
    let token = cursor.take_any(&PLAIN_TYPES)?.0;
    Ok(TypeWord::Built {
        code: keyword_code(token.kind),
        star: false,
        place: token.from,
    })
}

/// `"Object" [ "*" ]`
#[tactic(auto, unfolding(crate::specs::Rules::object_type))]
fn object_type(cursor: &mut Cursor) -> Result<TypeWord, Stop>
    ensures { TakesNoMemory (λ x. x) result cursor.new (read object_type cursor.old) }
{
    let token = cursor.take_any(&[OBJECT])?.0;
    let star = cursor.take_if(STAR)?;
    Ok(TypeWord::Built {
        code: keyword_code(token.kind),
        star: star.is_some(),
        place: token.from,
    })
}

/// The code of a keyword.
fn keyword_code(kind: TokenKind) -> u8
    ensures { result ≡ keyword_code kind }
{
    match kind {
        TokenKind::Keyword(code) => code,
        _ => 0,
    }
}

/// `[ "-" | "+" ] number | text | "true" | "false" | scoped`
#[tactic(auto,
// its own rule, and those by whose first token it decides: numbers
unfolding(crate::specs::Rules::value, crate::specs::Rules::signed_number, crate::specs::Rules::number,
// a text, true and false
crate::specs::Rules::text, crate::specs::Rules::truth))]
pub(crate) fn value(alloc: Global, cursor: &mut Cursor) -> Result<Constant, Stop>
    ensures { Takes (λ x. x) result cursor.new (read value cursor.old) }
{
    if cursor.begins(&[MINUS, PLUS]) {
        return signed_number(cursor);
    }
    if cursor.begins(&[Terminal::Number]) {
        return number(cursor);
    }
    if cursor.begins(&[Terminal::Text]) {
        return text(cursor);
    }
    if cursor.begins(&[TRUE, FALSE]) {
        return truth(cursor);
    }
    named(alloc, cursor)
}

#[tactic(auto, unfolding(crate::specs::Rules::text))]
fn text(cursor: &mut Cursor) -> Result<Constant, Stop>
    ensures { TakesNoMemory (λ x. x) result cursor.new (read text cursor.old) }
{
    let place = cursor.take(Terminal::Text)?;
    Ok(Constant {
        place,
        value: Const::Text,
    })
}

#[tactic(auto, unfolding(crate::specs::Rules::named))]
fn named(alloc: Global, cursor: &mut Cursor) -> Result<Constant, Stop>
    ensures { Takes (λ x. x) result cursor.new (read named cursor.old) }
{
    let path = scoped(alloc, cursor)?;
    Ok(Constant {
        place: path.place,
        value: Const::Named(path),
    })
}

#[tactic(auto, unfolding(crate::specs::Rules::signed_number))]
fn signed_number(cursor: &mut Cursor) -> Result<Constant, Stop>
    ensures { TakesNoMemory (λ x. x) result cursor.new (read signed_number cursor.old) }
{
    let sign = cursor.take_any(&[MINUS, PLUS])?.0;
    let number = cursor.take_any(&[Terminal::Number])?.0;
    Ok(Constant {
        place: sign.from,
        value: Const::Number {
            negative: is_minus(sign.kind),
            size: number_size(number.kind),
        },
    })
}

#[tactic(auto, unfolding(crate::specs::Rules::number))]
fn number(cursor: &mut Cursor) -> Result<Constant, Stop>
    ensures { TakesNoMemory (λ x. x) result cursor.new (read number cursor.old) }
{
    let number = cursor.take_any(&[Terminal::Number])?.0;
    Ok(Constant {
        place: number.from,
        value: Const::Number {
            negative: false,
            size: number_size(number.kind),
        },
    })
}

/// The value of a number.
fn number_size(kind: TokenKind) -> u64
    ensures { result ≡ number_size kind }
{
    match kind {
        TokenKind::Number(size) => size,
        _ => 0,
    }
}

/// Whether the token is the symbol `-`.
fn is_minus(kind: TokenKind) -> bool
    ensures { result ≡ is_minus kind }
{
    match kind {
        TokenKind::Symbol(code) => Terminal::Symbol(code) == MINUS,
        _ => false,
    }
}

/// Whether the token is the keyword `true`.
fn is_true(kind: TokenKind) -> bool
    ensures { result ≡ is_true kind }
{
    match kind {
        TokenKind::Keyword(code) => Terminal::Keyword(code) == TRUE,
        _ => false,
    }
}

#[tactic(auto, unfolding(crate::specs::Rules::truth))]
fn truth(cursor: &mut Cursor) -> Result<Constant, Stop>
    ensures { TakesNoMemory (λ x. x) result cursor.new (read truth cursor.old) }
{
    let token = cursor.take_any(&[TRUE, FALSE])?.0;
    Ok(Constant {
        place: token.from,
        value: Const::Truth(is_true(token.kind)),
    })
}

/// `[ "=" value ]`
#[tactic(auto, unfolding(crate::specs::Rules::given))]
pub(crate) fn given_value(alloc: Global, cursor: &mut Cursor) -> Result<Option<Constant>, Stop>
    ensures { Takes (λ x. x) result cursor.new (read given cursor.old) }
{
    if cursor.begins(&[EQUALS]) {
        cursor.take(EQUALS)?;
        Ok(Some(value(alloc, cursor)?))
    } else {
        Ok(None)
    }
}

/// `[ "optional" "(" value ")" ]`
#[tactic(auto, unfolding(crate::specs::Rules::tag))]
pub(crate) fn tag(alloc: Global, cursor: &mut Cursor) -> Result<Option<Constant>, Stop>
    ensures { Takes (λ x. x) result cursor.new (read tag cursor.old) }
{
    if cursor.begins(&[OPTIONAL]) {
        cursor.take(OPTIONAL)?;
        cursor.take(OPEN_ROUND)?;
        let number = value(alloc, cursor)?;
        cursor.take(CLOSE_ROUND)?;
        Ok(Some(number))
    } else {
        Ok(None)
    }
}
