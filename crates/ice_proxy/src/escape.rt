//! What stands behind a `\`.

ghost use Rattle.std.specs.Prelude.{◌≡◌, ◌≤◌, IfSome, OnOk, ◌++◌, drop, length, option_map, [], ◌∷◌};
ghost use Rattle.std.specs.Char.{digit_value, encode_utf8};
ghost use Rattle.ice_proxy.specs.Escapes.{character, digits, escape, found_in, octal, short_escapes};
ghost use Rattle.ice_proxy.specs.Taking.{stood};

use std::alloc::AllocError;

/// What an escape stands for: one byte, or a character in UTF-8.
#[derive(Clone, Copy)]
pub enum Meaning {
    Byte(u8),
    Character(char),
}

/// What the escape stands for, and how many bytes it takes. None where it is broken.
pub fn escape_in(bytes: &[u8]) -> Option<(Meaning, usize)>
    ensures within { IfSome result (λ x. x.1 ≤ length bytes.now) }
    ensures value { escape bytes.now ≡ option_map (λ x. (stood x.0, drop x.1 bytes.now)) result }
{
    match bytes {
        [] => None,
        [b'u', others @ ..] => Some((Meaning::Character(character(4, others)?), 5)),
        [b'U', others @ ..] => Some((Meaning::Character(character(8, others)?), 9)),
        [letter, ..] => match short(*letter) {
            Some(byte) => Some((Meaning::Byte(byte), 1)),
            None => Some((Meaning::Byte(octal(bytes)?), 3)),
        },
    }
}

/// What one letter stands for behind a `\`, None where it is none of these escapes.
fn short(letter: u8) -> Option<u8>
    ensures { result ≡ found_in letter short_escapes }
{
    match letter {
        b'\\' | b'"' | b'/' | b'\'' => Some(letter),
        b'a' => Some(7),
        b'b' => Some(8),
        b't' => Some(b'\t'),
        b'n' => Some(b'\n'),
        b'v' => Some(11),
        b'f' => Some(12),
        b'r' => Some(b'\r'),
        _ => None,
    }
}

/// The value of a digit or a letter, 36 where the byte is none.
fn digit_value(byte: u8) -> u8
    ensures { result ≡ digit_value byte }
{
    char::from(byte).to_digit(36).unwrap_or(36) as u8
}

/// The byte that three octal digits write, None where they are no such digits or more than 377.
fn octal(bytes: &[u8]) -> Option<u8>
    ensures within { IfSome result (λ byte. 3 ≤ length bytes.now) }
    ensures value { octal bytes.now ≡ option_map (λ byte. (byte ∷ [], drop 3 bytes.now)) result }
{
    let [a, b, c, ..] = bytes else {
        return None;
    };
    let (a, b, c) = (digit_value(*a), digit_value(*b), digit_value(*c));
    if a < 4 && b < 8 && c < 8 {
        Some(a * 64 + (b * 8 + c))
    } else {
        None
    }
}

/// The value of so many hexadecimal digits, None where not so many stand there.
fn hexadecimal(count: usize, bytes: &[u8]) -> Option<u32>
    requires { count ≤ 8 }
    ensures within { IfSome result (λ value. count ≤ length bytes.now) }
    ensures value { digits count 0 bytes.now ≡ option_map (λ value. (value, drop count bytes.now)) result }
{
    let mut value = 0;
    for place in 0..count {
        let digit = digit_value(*bytes.get(place)?);
        if digit >= 16 {
            return None;
        }
        value = value * 16 + u32::from(digit);
    }
    Some(value)
}

/// The character of so many hexadecimal digits, None where they write none.
fn character(count: usize, bytes: &[u8]) -> Option<char>
    requires { count ≤ 8 }
    ensures within { IfSome result (λ c. count ≤ length bytes.now) }
    ensures value { character count bytes.now ≡ option_map (λ c. (encode_utf8 c, drop count bytes.now)) result }
{
    char::from_u32(hexadecimal(count, bytes)?)
}

/// Appends what an escape stands for. Out of memory may leave a part of it.
pub fn push_meaning(out: &mut Vec<u8>, meaning: Meaning) -> Result<(), AllocError>
    ensures { OnOk result (out.new.items ≡ out.old.items ++ stood meaning) }
{
    match meaning {
        Meaning::Byte(byte) => {
            out.push(byte)?;
            Ok(())
        }
        Meaning::Character(character) => {
            out.extend_from_slice(character.encode_utf8(&mut [0; 4]).as_bytes())
        }
    }
}
