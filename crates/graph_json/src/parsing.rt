//! The JSON of a text, in one pass over its tokens.

ghost use Rattle.std.specs.Prelude.{◌≡◌, ◌<◌, length, IfOk, OnOk, None, Some};
ghost use Rattle.json.specs.Json.{value, items, members};
ghost use Rattle.serde_json.specs.Data.{no_members};
ghost use Rattle.serde_json.specs.Read as spec;
ghost use Rattle.serde_json.specs.Read.{converted, of_items, of_json, of_members};
ghost use Rattle.graph_json.specs.Refusals.{IsRefusal};
ghost use Rattle.graph_json.specs.declared.parsing.Stop.TheVariants as stops;
ghost use Rattle.graph_json.specs.Texts.{ReadsJson};
ghost use Rattle.graph_json.specs.View.{view as json_view, items_view, members_view};

use crate::fault::{JsonFault, JsonKind};
use crate::numbers::number_of;
use crate::room::put_last;
use crate::sorting::in_order;
use crate::text::MOST_TEXT;
use crate::tree::Json;
use json::{Invalid, Reader, Scratch, Token};
use std::alloc::{AllocError, Global};

/// How deep arrays and objects nest at most.
const MOST_NESTING: usize = 127;

/// Why reading stops.
#[derive(Clone, Copy)]
pub(crate) enum Stop {
    NotJson,
    Memory,
}

impl From<Invalid> for Stop {
    ghost from_gives = { λ _ s. s ≡ stops.NotJson };

    fn from(_error: Invalid) -> Stop {
        Stop::NotJson
    }
}

impl From<AllocError> for Stop {
    ghost from_gives = { λ _ s. s ≡ stops.Memory };

    fn from(_error: AllocError) -> Stop {
        Stop::Memory
    }
}

/// The JSON of a text. Its texts are lent from there, and from the scratch where they have escapes.
pub(crate) fn json_of<'a>(
    alloc: Global,
    text: &'a [u8],
    scratch: &'a mut Scratch,
) -> Result<Json<'a>, JsonFault>
    ensures { ReadsJson text.now result }
{
    if text.len() > MOST_TEXT {
        return Err(JsonFault::Refused(JsonKind::TooLong));
    }
    let Ok(text) = simdutf8::basic::from_utf8(text) else {
        return Err(JsonFault::Refused(JsonKind::NotJson));
    };
    match read_all(alloc, text, scratch) {
        Ok(json) => Ok(json),
        Err(Stop::NotJson) => Err(JsonFault::Refused(JsonKind::NotJson)),
        Err(Stop::Memory) => Err(JsonFault::Memory),
    }
}

/// The JSON of a text, behind which nothing stands.
fn read_all<'a>(alloc: Global, text: &'a str, scratch: &'a mut Scratch) -> Result<Json<'a>, Stop>
    ensures ok { IfOk result (λ json. spec.read text.now ≡ Some (json_view json)) }
    ensures err { IsRefusal result → spec.read text.now ≡ None }
{
    let mut reader = Reader::new(text, scratch)?;
    let json = read(alloc, &mut reader, MOST_NESTING)?;
    if reader.next().is_some() {
        return Err(Stop::NotJson);
    }
    Ok(json)
}

/// A value, whose arrays and objects nest at most so deep.
#[cycle(parse)]
fn read<'a>(alloc: Global, reader: &mut Reader<'a>, depth: usize) -> Result<Json<'a>, Stop>
    ensures ok { IfOk result
        (λ json. converted of_json (value depth reader.old) ≡ Some (json_view json, reader.new)) }
    ensures shorter { OnOk result (length reader.new < length reader.old) }
    ensures err { IsRefusal result → converted of_json (value depth reader.old) ≡ None }
{
    let token = reader.next().ok_or(Stop::NotJson)?;
    match token {
        Token::String(text) => Ok(Json::Text(text)),
        Token::Number(text) => match number_of(text) {
            Some(number) => Ok(Json::Number(number)),
            None => Err(Stop::NotJson),
        },
        Token::Bool(truth) => Ok(Json::Bool(truth)),
        Token::Null => Ok(Json::Null),
        Token::EndObject | Token::EndArray | Token::Key(_) | Token::Bad => Err(Stop::NotJson),
        Token::BeginArray => {
            if depth == 0 {
                return Err(Stop::NotJson);
            }
            Ok(Json::Array(read_items(alloc, reader, depth - 1)?))
        }
        Token::BeginObject => {
            if depth == 0 {
                return Err(Stop::NotJson);
            }
            Ok(Json::Object(read_members(alloc, reader, depth - 1)?))
        }
    }
}

/// The items of an array, to its end.
#[cycle(parse)]
fn read_items<'a>(
    alloc: Global,
    reader: &mut Reader<'a>,
    depth: usize,
) -> Result<Vec<Json<'a>>, Stop>
    ensures ok { IfOk result
        (λ v. converted of_items (items (value depth) (length reader.old) reader.old)
        ≡ Some (items_view v.items, reader.new)) }
    ensures shorter { OnOk result (length reader.new < length reader.old) }
    ensures err { IsRefusal result
        → converted of_items (items (value depth) (length reader.old) reader.old) ≡ None }
{
    let mut found = Vec::new(alloc);
    'items: while !reader.take_end_array() {
        let item = read(alloc, reader, depth)?;
        put_last(&mut found, item)?;
    }
    Ok(found)
}

/// The members of an object, to its end.
#[cycle(parse)]
fn read_members<'a>(
    alloc: Global,
    reader: &mut Reader<'a>,
    depth: usize,
) -> Result<Vec<(&'a str, Json<'a>)>, Stop>
    ensures ok { IfOk result
        (λ v. converted (λ ms. of_members ms no_members)
        (members (value depth) (length reader.old) reader.old)
        ≡ Some (members_view v.items, reader.new)) }
    ensures shorter { OnOk result (length reader.new < length reader.old) }
    ensures err { IsRefusal result
        → converted (λ ms. of_members ms no_members)
        (members (value depth) (length reader.old) reader.old) ≡ None }
{
    let mut found = Vec::new(alloc);
    'members: while let Some(name) = reader.next_key()? {
        let member = read(alloc, reader, depth)?;
        put_last(&mut found, (name, member))?;
    }
    Ok(in_order(alloc, found)?)
}
