//! Words that are numbers, versions and bytes. (Ice manual, "Proxy and Endpoint Syntax".)

ghost use Rattle.std.specs.Prelude.{◌≡◌, ◌≤◌, ◌<◌, ◌^◌, ◌-◌, ◌==◌, ℕ, IfOk};
ghost use Rattle.std.specs.List.{position};
ghost use Rattle.ice_proxy.specs.Numbers as spec;
ghost use Rattle.ice_proxy.specs.Telling.{within, parts_of};

use hex::FromHexError;
use ice_types::Bytes;
use std::alloc::{AllocError, Global};

/// The natural number of a word of decimal digits, where it is not greater.
fn natural_within(word: &[u8], most: u32) -> Option<u32>
    ensures { result ≡ within most (spec.natural word.now) }
{
    if word.is_empty() {
        return None;
    }
    let mut value: u32 = 0;
    let mut rest = word;
    while let [digit, others @ ..] = rest {
        if !digit.is_ascii_digit() {
            return None;
        }
        let longer = u64::from(value) * 10 + u64::from(*digit - b'0');
        if longer > u64::from(most) {
            return None;
        }
        value = longer as u32;
        rest = others;
    }
    Some(value)
}

fn negated(number: u32) -> i32
    requires { number ≤ 2 ^ 31 }
    ensures { result ≡ spec.negative number }
{
    (0 - i64::from(number)) as i32
}

/// A number in so many bits, one of them for the sign.
fn number(word: &[u8], bits: u32) -> Option<i32>
    requires { (1 ≤ bits) × (bits ≤ 32) }
    ensures { result ≡ spec.number bits word.now }
{
    let half = 2u32.pow(bits - 1);
    match word {
        [b'-', digits @ ..] => Some(negated(natural_within(digits, half)?)),
        _ => Some(natural_within(word, half - 1)? as i32),
    }
}

/// A number in 16 bits, one of them for the sign.
pub fn short(word: &[u8]) -> Option<i16>
    ensures { result ≡ spec.number 16 word.now }
{
    Some(number(word, 16)? as i16)
}

/// A number in 32 bits, one of them for the sign.
pub fn int(word: &[u8]) -> Option<i32>
    ensures { result ≡ spec.number 32 word.now }
{
    number(word, 32)
}

/// A time in milliseconds, -1 for `infinite`.
pub fn timeout(word: &[u8]) -> Option<i32>
    ensures { result ≡ spec.timeout word.now }
{
    if word == b"infinite".as_slice() {
        Some(-1)
    } else {
        number(word, 32)
    }
}

/// A number from 0 to 255.
fn small(word: &[u8]) -> Option<u8>
    ensures { result ≡ spec.small word.now }
{
    let value = number(word, 9)?;
    if value < 0 { None } else { Some(value as u8) }
}

/// Where the first `.` stands.
fn point(word: &[u8]) -> Option<usize>
    ensures { result ≡ position (λ byte. byte == 46) word.now }
{
    word.iter().position(|byte| *byte == b'.')
}

/// What stands before the first `.`, and behind it.
fn parted(word: &[u8]) -> Option<(&[u8], &[u8])>
    ensures { parts_of result ≡ spec.at_point word.now }
{
    match point(word) {
        Some(at) => Some((&word[..at], &word[at + 1..])),
        None => None,
    }
}

/// A major and a minor number from 0 to 255, parted by `.`.
pub fn version(word: &[u8]) -> Option<(u8, u8)>
    ensures { result ≡ spec.version word.now }
{
    let (front, behind) = parted(word)?;
    let major = small(front)?;
    let minor = small(behind)?;
    Some((major, minor))
}

/// An even number of hexadecimal digits as bytes, none as `""`. None where the word is no such digits.
pub fn hexadecimal(alloc: Global, word: &[u8]) -> Result<Option<Bytes>, AllocError>
    ensures { IfOk result (λ bytes. bytes ≡ spec.hexadecimal word.now) }
{
    if word == b"\"\"".as_slice() {
        return Ok(Some(Bytes::new(alloc)));
    }
    match hex::decode(alloc, word) {
        Ok(bytes) => Ok(Some(Bytes::from_vec(bytes))),
        Err(FromHexError::OutOfMemory) => Err(AllocError),
        Err(_) => Ok(None),
    }
}
