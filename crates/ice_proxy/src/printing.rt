//! How a text and an identity are printed. Out of memory may leave a part at the end of an output.

ghost use Rattle.std.specs.Prelude.{◌≡◌, ◌++◌, IfOk, OnOk, OnErr, string_bytes};
ghost use Rattle.std.specs.Char.{encode_utf8};
ghost use Rattle.std.specs.List.{flat_map, list_any};
ghost use Rattle.ice_prims.specs.Bytes.{Grows};
ghost use Rattle.ice_proxy.specs.PrintedWords.{escape_in_identity, escapes, octal_escape, quoted_text, printed_text};
ghost use Rattle.ice_proxy.specs.PrintedWords.{identity_escapes, is_special, printed_identity, wants_quotes};
ghost use Rattle.ice_proxy.specs.PrintedWords.{whole_name};

use crate::words::is_blank;
use ice_types::{Identity, Name};
use std::alloc::{AllocError, Global};

/// Appends a `\` and three octal digits.
fn push_octal(out: &mut String, byte: u8) -> Result<(), AllocError>
    ensures ok { OnOk result (string_bytes out.new ≡ string_bytes out.old ++ octal_escape byte) }
    ensures err { OnErr result (Grows (string_bytes out.old) (string_bytes out.new)) }
{
    out.push('\\')?;
    out.push(char::from(b'0' + byte / 64))?;
    out.push(char::from(b'0' + byte / 8 % 8))?;
    out.push(char::from(b'0' + byte % 8))
}

/// Appends a character as it stands in a text.
#[tactic(auto, using(crate::proofs::Kept::kept))]
fn push_escape(out: &mut String, character: char) -> Result<(), AllocError>
    ensures ok { OnOk result (string_bytes out.new ≡ string_bytes out.old ++ escapes (encode_utf8 character)) }
    ensures err { OnErr result (Grows (string_bytes out.old) (string_bytes out.new)) }
{
    match character {
        '\\' => out.push_str("\\\\"),
        '"' => out.push_str("\\\""),
        '\'' => out.push_str("\\'"),
        '\n' => out.push_str("\\n"),
        '\r' => out.push_str("\\r"),
        '\t' => out.push_str("\\t"),
        _ if character.is_ascii_control() => push_octal(out, character as u8),
        _ => out.push(character),
    }
}

/// Appends the text with its escapes.
fn push_escapes(out: &mut String, text: &str) -> Result<(), AllocError>
    ensures ok { OnOk result (string_bytes out.new ≡ string_bytes out.old ++ escapes text.now) }
    ensures err { OnErr result (Grows (string_bytes out.old) (string_bytes out.new)) }
{
    for character in text.chars() {
        push_escape(out, character)?;
    }
    Ok(())
}

/// Appends a character as it stands in a category or a name.
fn push_name_escape(out: &mut String, character: char) -> Result<(), AllocError>
    ensures ok { OnOk result (string_bytes out.new
        ≡ string_bytes out.old ++ flat_map escape_in_identity (encode_utf8 character)) }
    ensures err { OnErr result (Grows (string_bytes out.old) (string_bytes out.new)) }
{
    if character == '/' {
        out.push_str("\\/")
    } else {
        push_escape(out, character)
    }
}

/// Appends a category or a name with its escapes.
fn push_name_escapes(out: &mut String, text: &str) -> Result<(), AllocError>
    ensures ok { OnOk result (string_bytes out.new ≡ string_bytes out.old ++ flat_map escape_in_identity text.now) }
    ensures err { OnErr result (Grows (string_bytes out.old) (string_bytes out.new)) }
{
    for character in text.chars() {
        push_name_escape(out, character)?;
    }
    Ok(())
}

/// Whether a word has the byte in quotes alone: a blank, `:`, `@` or `"`.
fn is_special(byte: u8) -> bool
    ensures { result ≡ is_special byte }
{
    is_blank(byte) || byte == b':' || byte == b'@' || byte == b'"'
}

/// Whether some byte of the text is one that a word has in quotes alone.
fn has_special(text: &str) -> bool
    ensures { result ≡ list_any is_special text.now }
{
    text.as_bytes().iter().any(|byte| is_special(*byte))
}

/// Whether the text is printed in quotes: it is empty, has such a byte, or begins with `-`.
fn wants_quotes(text: &str) -> bool
    ensures { result ≡ wants_quotes text.now }
{
    match text.as_bytes() {
        [] => true,
        [first, ..] => *first == b'-' || has_special(text),
    }
}

/// Whether the identity is printed in quotes.
fn identity_wants_quotes(identity: &Identity) -> bool
    ensures { result ≡ wants_quotes (whole_name identity.now) }
{
    let category = identity.category.as_str();
    let name = identity.name.as_str();
    if category.is_empty() {
        wants_quotes(name)
    } else {
        wants_quotes(category) || has_special(name)
    }
}

/// Appends the text in quotes.
fn push_quoted(out: &mut String, text: &str) -> Result<(), AllocError>
    ensures ok { OnOk result (string_bytes out.new ≡ string_bytes out.old ++ quoted_text text.now) }
    ensures err { OnErr result (Grows (string_bytes out.old) (string_bytes out.new)) }
{
    out.push('"')?;
    push_escapes(out, text)?;
    out.push('"')
}

/// Appends the text as a word: with escapes, and in quotes where it is empty, has a blank, `:`, `@` or `"`, or begins
/// with `-`. Out of memory may leave a part of it at the end. (Ice manual, "Proxy and Endpoint Syntax".)
pub fn print_word(out: &mut String, text: &str) -> Result<(), AllocError>
    ensures ok { OnOk result (string_bytes out.new ≡ string_bytes out.old ++ printed_text text.now) }
    ensures err { OnErr result (Grows (string_bytes out.old) (string_bytes out.new)) }
{
    if wants_quotes(text) {
        push_quoted(out, text)
    } else {
        push_escapes(out, text)
    }
}

/// Appends a category that is not empty with a `/`, and the name, each with its escapes.
fn push_identity(out: &mut String, identity: &Identity) -> Result<(), AllocError>
    ensures ok { OnOk result (string_bytes out.new ≡ string_bytes out.old ++ identity_escapes identity.now) }
    ensures err { OnErr result (Grows (string_bytes out.old) (string_bytes out.new)) }
{
    let category = identity.category.as_str();
    if !category.is_empty() {
        push_name_escapes(out, category)?;
        out.push('/')?;
    }
    push_name_escapes(out, identity.name.as_str())
}

/// Appends the identity as a word: with escapes, and in quotes where its category and name want them.
fn push_whole_identity(out: &mut String, identity: &Identity) -> Result<(), AllocError>
    ensures ok { OnOk result (string_bytes out.new ≡ string_bytes out.old ++ printed_identity identity.now) }
    ensures err { OnErr result (Grows (string_bytes out.old) (string_bytes out.new)) }
{
    if identity_wants_quotes(identity) {
        out.push('"')?;
        push_identity(out, identity)?;
        out.push('"')
    } else {
        push_identity(out, identity)
    }
}

/// The identity as a word of a proxy text, which stands for it again. (Ice manual, "Object Identity".)
pub fn print_identity(alloc: Global, identity: &Identity) -> Result<Name, AllocError>
    ensures { IfOk result (λ text. text ≡ printed_identity identity.now) }
{
    let mut out = String::new(alloc);
    push_whole_identity(&mut out, identity)?;
    Name::of(alloc, out.as_str())
}

/// The identity with escapes and without quotes, for a line that has quotes of its own.
pub fn escape_identity(alloc: Global, identity: &Identity) -> Result<Name, AllocError>
    ensures { IfOk result (λ text. text ≡ identity_escapes identity.now) }
{
    let mut out = String::new(alloc);
    push_identity(&mut out, identity)?;
    Name::of(alloc, out.as_str())
}

/// The text in quotes, with escapes.
pub fn quote(alloc: Global, text: &str) -> Result<Name, AllocError>
    ensures { IfOk result (λ quoted. quoted ≡ quoted_text text.now) }
{
    let mut out = String::new(alloc);
    push_quoted(&mut out, text)?;
    Name::of(alloc, out.as_str())
}
