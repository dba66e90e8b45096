//! What a word stands for where a text or an identity is due.

ghost use Rattle.std.specs.Prelude.{◌≡◌, ◌≤◌, ◌∷◌, false, IfOk, IfSome, drop, length};
ghost use Rattle.std.specs.Option.{option_and_then, option_copied, option_map};
ghost use Rattle.ice_proxy.specs.Escapes.{identity_of, joined, plain, text_of, utf8, with_category};
ghost use Rattle.ice_proxy.specs.Taking.{Appends, Stops, is_stop};
ghost use Rattle.ice_proxy.specs.Taking.{behind_slash, inside, is_closed, is_quoted, remains};

use crate::escape::{escape_in, push_meaning};
use ice_types::{Identity, Name};
use std::alloc::{AllocError, Global};

/// Appends what the first byte of a word stands for, or the escape that it begins, and tells how many of the others are
/// of it. None where the escape is broken.
fn append_letter(
    out: &mut Vec<u8>,
    first: u8,
    others: &[u8],
    mark: u8,
) -> Result<Option<usize>, AllocError>
    requires { is_stop mark (plain first) ≡ false }
    ensures within { IfOk result (λ found. IfSome found (λ count. count ≤ length others.now)) }
    ensures appends { IfOk result (λ found. Appends mark (first ∷ others.now) out.old.items out.new.items
        (option_map (λ count. drop count others.now) found)) }
{
    if first != b'\\' {
        out.push(first)?;
        return Ok(Some(0));
    }
    match escape_in(others) {
        Some((meaning, length)) => {
            push_meaning(out, meaning)?;
            Ok(Some(length))
        }
        None => Ok(None),
    }
}

/// Appends what a word stands for up to the first `"` or mark that no escape made, and answers what is left from there
/// on. None where an escape is broken.
fn append_letters<'a>(
    out: &mut Vec<u8>,
    bytes: &'a [u8],
    mark: u8,
) -> Result<Option<&'a [u8]>, AllocError>
    ensures stops { IfOk result (λ found. IfSome found (λ rest. Stops mark rest.now)) }
    ensures appends { IfOk result (λ found. Appends mark bytes.now out.old.items out.new.items (option_copied found)) }
{
    let mut rest = bytes;
    while let [first, others @ ..] = rest {
        if *first == b'"' || *first == mark {
            break;
        }
        let Some(count) = append_letter(out, *first, others, mark)? else {
            return Ok(None);
        };
        rest = &others[count..];
    }
    Ok(Some(rest))
}

/// Whether a word begins with a quote, and what stands behind it, or the word.
fn opened(word: &[u8]) -> (bool, &[u8])
    ensures quoted { result.0 ≡ is_quoted word.now }
    ensures rest { result.1.now ≡ inside word.now }
{
    match word {
        [b'"', rest @ ..] => (true, rest),
        _ => (false, word),
    }
}

/// Whether what is left of a word is the quote that it wants and nothing else, or nothing where it wants none.
fn is_closed(is_quoted: bool, rest: &[u8]) -> bool
    ensures { result ≡ is_closed is_quoted rest.now }
{
    match rest {
        [] => !is_quoted,
        [last] => is_quoted && *last == b'"',
        _ => false,
    }
}

/// What stands behind the `/` at the front, None where none is there.
fn behind_slash(rest: &[u8]) -> Option<&[u8]>
    ensures { option_copied result ≡ behind_slash rest.now }
{
    match rest {
        [b'/', others @ ..] => Some(others),
        _ => None,
    }
}

/// The text that these bytes are, None where they are no UTF-8.
fn utf8_name(alloc: Global, bytes: &[u8]) -> Result<Option<Name>, AllocError>
    ensures { IfOk result (λ found. found ≡ utf8 bytes.now) }
{
    match std::str::from_utf8(bytes) {
        Ok(text) => Ok(Some(Name::of(alloc, text)?)),
        Err(_) => Ok(None),
    }
}

/// The text that a word stands for where a facet, a host or an adapter is due, None where it is none: an escape is
/// broken, a quote stands elsewhere than at both ends, or the bytes are no UTF-8. (Ice manual, "Proxy and Endpoint
/// Syntax".)
pub fn text_of(alloc: Global, word: &[u8]) -> Result<Option<Name>, AllocError>
    ensures { IfOk result (λ found. found ≡ text_of word.now) }
{
    let (is_quoted, inside) = opened(word);
    let mut bytes = Vec::new(alloc);
    let Some(rest) = append_letters(&mut bytes, inside, b'"')? else {
        return Ok(None);
    };
    if !is_closed(is_quoted, rest) {
        return Ok(None);
    }
    utf8_name(alloc, &bytes)
}

/// The identity of a category and a name, None where one is no UTF-8 or the name is empty.
fn joined(alloc: Global, category: &[u8], name: &[u8]) -> Result<Option<Identity>, AllocError>
    ensures { IfOk result (λ found. found ≡ joined category.now name.now) }
{
    if name.is_empty() {
        return Ok(None);
    }
    let Some(category) = utf8_name(alloc, category)? else {
        return Ok(None);
    };
    let Some(name) = utf8_name(alloc, name)? else {
        return Ok(None);
    };
    Ok(Some(Identity { name, category }))
}

/// The identity of a category and of what stands behind its `/`, None where it is none.
fn with_category(
    alloc: Global,
    category: &[u8],
    is_quoted: bool,
    bytes: &[u8],
) -> Result<Option<Identity>, AllocError>
    ensures { IfOk result (λ found. found
        ≡ option_and_then (with_category category.now) (remains is_quoted bytes.now)) }
{
    let mut name = Vec::new(alloc);
    let Some(rest) = append_letters(&mut name, bytes, b'/')? else {
        return Ok(None);
    };
    if !is_closed(is_quoted, rest) {
        return Ok(None);
    }
    joined(alloc, category, &name)
}

/// The identity that a word stands for, None where it is none: an escape is broken, a quote stands elsewhere than at
/// both ends, there is more than one `/` that no escape made, the name is empty, or the category or the name is no
/// UTF-8. (Ice manual, "Object Identity".)
pub fn identity_of(alloc: Global, word: &[u8]) -> Result<Option<Identity>, AllocError>
    ensures { IfOk result (λ found. found ≡ identity_of word.now) }
{
    let (is_quoted, inside) = opened(word);
    let mut first = Vec::new(alloc);
    let Some(rest) = append_letters(&mut first, inside, b'/')? else {
        return Ok(None);
    };
    if let Some(others) = behind_slash(rest) {
        return with_category(alloc, &first, is_quoted, others);
    }
    if !is_closed(is_quoted, rest) {
        return Ok(None);
    }
    joined(alloc, &[], &first)
}
