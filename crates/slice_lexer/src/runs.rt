//! How far a run of bytes goes.

ghost use Rattle.std.specs.Prelude.{◌≡◌, ◌≤◌, false, length};
ghost use Rattle.std.specs.Char.{digit_value};
ghost use Rattle.slice_lexer.specs.Bytes.{is_letter, is_word_byte, spoils_number, line, word, digits, is_line_blank};
ghost use Rattle.slice_lexer.specs.Bytes.{before_close, string_length};

use memchr::{memchr, memmem};

pub fn is_letter(byte: u8) -> bool
    ensures { result ≡ is_letter byte }
{
    byte.is_ascii_alphabetic() || byte == b'_'
}

pub fn is_word_byte(byte: u8) -> bool
    ensures { result ≡ is_word_byte byte }
{
    byte.is_ascii_alphanumeric() || byte == b'_'
}

/// Whether no number stands directly before the byte.
pub fn spoils_number(byte: u8) -> bool
    ensures { result ≡ spoils_number byte }
{
    is_word_byte(byte) || byte == b'.'
}

/// What the byte counts for as a digit, 36 where it is none in any base.
pub fn digit_value(byte: u8) -> u8
    ensures { result ≡ digit_value byte }
{
    char::from(byte).to_digit(36).unwrap_or(36) as u8
}

/// How long the rest of the line is.
pub fn line_length(bytes: &[u8]) -> usize
    ensures { result ≡ length (line bytes.now) }
{
    memchr(b'\n', bytes).unwrap_or(bytes.len())
}

/// How long the run of letters, digits and `_` is.
pub fn word_length(bytes: &[u8]) -> usize
    ensures { result ≡ length (word bytes.now) }
{
    bytes.iter().take_while(|byte| is_word_byte(**byte)).count()
}

/// How long the run of digits of a base is.
pub fn digit_count(base: u8, bytes: &[u8]) -> usize
    ensures { result ≡ length (digits base bytes.now) }
{
    bytes
        .iter()
        .take_while(|byte| digit_value(**byte) < base)
        .count()
}

/// Whether nothing but blanks stands in the line so far.
pub fn is_line_blank(before: &[u8]) -> bool
    ensures { result ≡ is_line_blank before.now }
{
    before
        .iter()
        .rev()
        .take_while(|byte| **byte != b'\n')
        .all(|byte| byte.is_ascii_whitespace())
}

/// How many bytes stand before the first `*/`, all where there is none.
pub fn before_close(bytes: &[u8]) -> usize
    ensures { result ≡ before_close bytes.now }
{
    memmem::find(bytes, b"*/").unwrap_or(bytes.len())
}

/// How many bytes a string has after its opening quote, up to its closing quote or its line's end.
pub fn string_length(bytes: &[u8]) -> usize
    ensures within { result ≤ length bytes.now }
    ensures value { result ≡ string_length false bytes.now }
{
    let mut count = 0;
    let mut rest = bytes;
    let mut taken = false;
    while let [byte, others @ ..] = rest {
        if *byte == b'\n' || (!taken && *byte == b'"') {
            return count;
        }
        taken = !taken && *byte == b'\\';
        count += 1;
        rest = others;
    }
    count
}
