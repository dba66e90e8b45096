//! Where the words of a text begin and end.

ghost use Rattle.std.specs.Prelude.{◌≡◌, ◌<◌, ◌≤◌, ◌^◌, length};
ghost use Rattle.ice_prims.specs.Rest.{after, whole};
ghost use Rattle.ice_proxy.specs.Words.{bare, behind, blanks, is_blank, is_end, word_length};
ghost use Rattle.ice_proxy.specs.Words.{first_token, next, seen};

use std::marker::Model;

/// What may stand next in a text.
#[derive(Clone, Copy)]
pub enum Token<'a> {
    /// The bytes of a word, as they stand.
    Word(&'a [u8]),
    Colon,
    At,
    /// Nothing: the text ends.
    End,
}

/// Where a word stands: outside quotes or inside, and whether a `\` was the byte before.
#[derive(Clone, Copy)]
pub enum Stand {
    Bare,
    BareEscape,
    Quoted,
    QuotedEscape,
}

impl Stand {
    /// Where it stands behind the byte, None where that byte is not of the word.
    fn behind(self, byte: u8) -> Option<Stand>
        ensures { result ≡ behind self byte }
    {
        match self {
            Stand::Bare if is_end(byte) => None,
            Stand::Bare => Some(match byte {
                b'\\' => Stand::BareEscape,
                b'"' => Stand::Quoted,
                _ => Stand::Bare,
            }),
            Stand::BareEscape if is_end(byte) => None,
            Stand::BareEscape => Some(Stand::Bare),
            Stand::Quoted => Some(match byte {
                b'\\' => Stand::QuotedEscape,
                b'"' => Stand::Bare,
                _ => Stand::Quoted,
            }),
            Stand::QuotedEscape => Some(Stand::Quoted),
        }
    }
}

/// Whether the byte is a blank: space, tab, newline, form feed or carriage return.
pub fn is_blank(byte: u8) -> bool
    ensures { result ≡ is_blank byte }
{
    matches!(byte, b' ' | b'\t' | b'\n' | b'\x0c' | b'\r')
}

/// Whether the byte ends a word outside quotes: a blank, `:` or `@`.
fn is_end(byte: u8) -> bool
    ensures { result ≡ is_end byte }
{
    is_blank(byte) || byte == b':' || byte == b'@'
}

/// How many bytes the word has that begins here.
fn word_length(bytes: &[u8]) -> usize
    ensures within { result ≤ length bytes.now }
    ensures value { result ≡ word_length bare bytes.now }
{
    let mut stand = Stand::Bare;
    let mut count = 0;
    let mut rest = bytes;
    while let [byte, others @ ..] = rest {
        let Some(next) = stand.behind(*byte) else {
            return count;
        };
        stand = next;
        count += 1;
        rest = others;
    }
    count
}

/// How many blanks stand at the front.
fn blank_count(bytes: &[u8]) -> usize
    ensures within { result ≤ length bytes.now }
    ensures value { result ≡ blanks bytes.now }
{
    bytes.iter().take_while(|byte| is_blank(**byte)).count()
}

/// The token that begins bytes that are not blank there, and how many bytes it has.
fn first_token(bytes: &[u8]) -> (Token<'_>, usize)
    ensures within { result.1 ≤ length bytes.now }
    ensures value { first_token bytes.now ≡ (seen result.0, result.1) }
{
    match bytes {
        [] => (Token::End, 0),
        [b':', ..] => (Token::Colon, 1),
        [b'@', ..] => (Token::At, 1),
        _ => {
            let length = word_length(bytes);
            (Token::Word(&bytes[..length]), length)
        }
    }
}

/// A text that is read from the left, token by token. Contracts see the place of the first byte that is left and the
/// bytes that are left. (Ice manual, "Proxy and Endpoint Syntax".)
#[derive(Drop)]
pub struct Words<'a> {
    place: u32,
    rest: &'a [u8],
}

impl<'a> Model for Words<'a> {
    ghost use Rattle.std.specs.Prelude.{◌+◌, ◌<◌, ◌^◌, length};
    ghost use Rattle.ice_prims.specs.Rest.{Rest};

    ghost Value = { Rest };

    ghost view = { λ w. record { place = w.place; bytes = w.rest.now } };

    ghost invariant = { λ w. w.place + length w.rest.now < 2 ^ 32 };
}

impl<'a> Words<'a> {
    /// The words of the text, before the first.
    pub fn new(text: &'a str) -> Words<'a>
        requires { length text.now < 2 ^ 32 }
        ensures { result ≡ whole text.now }
    {
        Words {
            place: 0,
            rest: text.as_bytes(),
        }
    }

    /// The same words again, from the same place on.
    pub fn fork(&self) -> Words<'a>
        ensures { result ≡ self.now }
    {
        Words {
            place: self.place,
            rest: self.rest,
        }
    }

    /// Goes on after so many bytes.
    fn skip(&mut self, count: usize)
        requires { count ≤ length self.old.bytes }
        ensures { self.new ≡ after self.old count }
    {
        self.rest = &self.rest[count..];
        self.place += count as u32;
    }

    /// The token that stands next, which is taken, and its place. At the end the place is the text's length.
    pub fn next(&mut self) -> (Token<'a>, u32)
        ensures { next self.old ≡ record { token = seen result.0; place = result.1; rest = self.new } }
    {
        self.skip(blank_count(self.rest));
        let place = self.place;
        let (token, length) = first_token(self.rest);
        self.skip(length);
        (token, place)
    }
}
