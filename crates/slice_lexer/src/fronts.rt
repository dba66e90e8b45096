//! What stands at a place of a text: a blank, a comment, a token or a defect.

ghost use Rattle.std.specs.Prelude.{◌≡◌, ◌<◌, ◌≤◌, ◌^◌, Ok, length};
ghost use Rattle.slice_lexer.specs.Bytes.{digits};
ghost use Rattle.slice_lexer.specs.declared.lexer.TheConstants.{MOST_BYTES};
ghost use Rattle.slice_lexer.specs.Pieces.{FitsValue, front_at, base_of, comment_at, directive_at, escaped_at};
ghost use Rattle.slice_lexer.specs.Pieces.{number_at, prefix_of, string_at, symbol_at, symbol_code, word_at, word_kind};

use crate::fault::LexFault;
use crate::piece::Piece;
use crate::runs::{
    before_close, digit_count, digit_value, is_letter, is_line_blank, line_length, spoils_number,
    string_length, word_length,
};
use crate::token::TokenKind;
use case_tables::{keywords, symbols};

/// No integer literal has a greater value: 2 ^ 63.
const MOST_VALUE: u64 = 9_223_372_036_854_775_808;

/// What stands at the place.
#[tactic(auto, unfolding(crate::specs::Pieces::front))]
pub fn front(text: &[u8], at: usize) -> Result<Piece, LexFault>
    requires within { at < length text.now }
    requires few { length text.now ≤ MOST_BYTES }
    ensures { result ≡ front_at text.now at }
{
    let (before, rest) = text.split_at(at);
    let place = at as u32;
    let first = rest[0];
    if first.is_ascii_whitespace() {
        return Ok(Piece::Gap(1));
    }
    if is_letter(first) {
        return Ok(word_at(rest));
    }
    if first.is_ascii_digit() {
        return number_at(place, rest);
    }
    match first {
        b'/' => comment_at(place, rest),
        b'"' => string_at(place, rest),
        b'\\' => escaped_at(place, rest),
        b'#' => directive_at(place, before, rest),
        _ => symbol_at(place, rest),
    }
}

#[tactic(auto, unfolding(crate::specs::Pieces::comment_at))]
fn comment_at(place: u32, rest: &[u8]) -> Result<Piece, LexFault>
    requires { length rest.now ≤ MOST_BYTES }
    ensures { result ≡ comment_at place rest.now }
{
    if rest.starts_with(b"//") {
        return Ok(Piece::Gap(line_length(rest)));
    }
    if !rest.starts_with(b"/*") {
        return Err(LexFault::BadByte(place));
    }
    let inside = &rest[2..];
    let count = before_close(inside);
    if count < inside.len() {
        Ok(Piece::Gap(count + 4))
    } else {
        Err(LexFault::OpenComment(place))
    }
}

fn word_at(rest: &[u8]) -> Piece
    ensures { Ok result ≡ word_at rest.now }
{
    let length = word_length(rest);
    Piece::Token(word_kind(&rest[..length]), length)
}

/// What the word is without a `\` before it.
#[tactic(auto, unfolding(crate::specs::Pieces::word_kind))]
fn word_kind(word: &[u8]) -> TokenKind
    ensures { result ≡ word_kind word.now }
{
    let Ok(name) = std::str::from_utf8(word) else {
        return TokenKind::Word;
    };
    match keywords().code_of(name) {
        Some(code) => TokenKind::Keyword(code),
        None => TokenKind::Word,
    }
}

#[tactic(auto, unfolding(crate::specs::Pieces::escaped_at))]
fn escaped_at(place: u32, rest: &[u8]) -> Result<Piece, LexFault>
    requires within { 0 < length rest.now }
    requires few { length rest.now ≤ MOST_BYTES }
    ensures { result ≡ escaped_at place rest.now }
{
    match &rest[1..] {
        [letter, ..] if is_letter(*letter) => {
            Ok(Piece::Token(TokenKind::Word, word_length(&rest[1..]) + 1))
        }
        _ => Err(LexFault::BadByte(place)),
    }
}

fn base_of(rest: &[u8]) -> u8
    ensures { result ≡ base_of rest.now }
{
    if rest.starts_with(b"0x") {
        16
    } else if rest.starts_with(b"0") {
        8
    } else {
        10
    }
}

fn prefix_of(rest: &[u8]) -> usize
    ensures within { result ≤ length rest.now }
    ensures value { result ≡ prefix_of rest.now }
{
    if rest.starts_with(b"0x") { 2 } else { 0 }
}

/// The number that the digits write, None from 2 ^ 64 on.
fn value_of(base: u8, digits: &[u8]) -> Option<u64>
    requires { 1 ≤ base }
    ensures { FitsValue base digits.now result }
{
    let mut value: u64 = 0;
    for digit in digits {
        value = value
            .checked_mul(u64::from(base))?
            .checked_add(u64::from(digit_value(*digit)))?;
    }
    Some(value)
}

#[tactic(auto, unfolding(crate::specs::Pieces::number_at))]
fn number_at(place: u32, rest: &[u8]) -> Result<Piece, LexFault>
    requires { length rest.now ≤ MOST_BYTES }
    ensures { result ≡ number_at place rest.now }
{
    let base = base_of(rest);
    let (prefix, after_prefix) = rest.split_at(prefix_of(rest));
    let (digits, after) = after_prefix.split_at(digit_count(base, after_prefix));
    let is_spoilt = match after {
        [next, ..] => spoils_number(*next),
        [] => false,
    };
    if digits.is_empty() || is_spoilt {
        return Err(LexFault::BadNumber(place));
    }
    match value_of(base, digits) {
        Some(value) if value <= MOST_VALUE => Ok(Piece::Token(
            TokenKind::Number(value),
            prefix.len() + digits.len(),
        )),
        _ => Err(LexFault::BadNumber(place)),
    }
}

#[tactic(auto, unfolding(crate::specs::Pieces::string_at))]
fn string_at(place: u32, rest: &[u8]) -> Result<Piece, LexFault>
    requires within { 0 < length rest.now }
    requires few { length rest.now ≤ MOST_BYTES }
    ensures { result ≡ string_at place rest.now }
{
    let inside = &rest[1..];
    let count = string_length(inside);
    match &inside[count..] {
        [b'"', ..] => Ok(Piece::Token(TokenKind::Text, count + 2)),
        _ => Err(LexFault::OpenString(place)),
    }
}

#[tactic(auto, unfolding(crate::specs::Pieces::directive_at))]
fn directive_at(place: u32, before: &[u8], rest: &[u8]) -> Result<Piece, LexFault>
    ensures { result ≡ directive_at place before.now rest.now }
{
    if is_line_blank(before) {
        Ok(Piece::Token(TokenKind::Directive, line_length(rest)))
    } else {
        Err(LexFault::BadByte(place))
    }
}

#[tactic(auto, unfolding(crate::specs::Pieces::symbol_at))]
fn symbol_at(place: u32, rest: &[u8]) -> Result<Piece, LexFault>
    requires { 0 < length rest.now }
    ensures { result ≡ symbol_at place rest.now }
{
    let pair = &rest[..rest.len().min(2)];
    if let Some(code) = symbol_code(pair) {
        return Ok(Piece::Token(TokenKind::Symbol(code), pair.len()));
    }
    match symbol_code(&rest[..1]) {
        Some(code) => Ok(Piece::Token(TokenKind::Symbol(code), 1)),
        None => Err(LexFault::BadByte(place)),
    }
}

/// The code of the symbol that these bytes are.
fn symbol_code(bytes: &[u8]) -> Option<u8>
    ensures { result ≡ symbol_code bytes.now }
{
    match std::str::from_utf8(bytes) {
        Ok(name) => symbols().code_of(name),
        Err(_) => None,
    }
}
