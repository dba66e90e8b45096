//! The forms of directives.

ghost use Rattle.std.specs.Prelude.{◌≡◌, ◌≤◌, length};
ghost use Rattle.std.specs.List.{prefix_len};
ghost use Rattle.slice_lexer.specs.Bytes.{is_blank};
ghost use Rattle.slice_syntax.specs.Lexemes.{unblank, word_length, mark_place, is_bare, is_once, directive_line};
ghost use Rattle.slice_syntax.specs.Lexemes.{directive_word, directive_rest, is_one_word, is_closed, if_text, up_to};
ghost use Rattle.slice_syntax.specs.Lexemes.{included, directive_terminal, text_seen};

use crate::terminal::Terminal;

/// What the directive is, which begins with `#`.
#[tactic(auto, unfolding(crate::specs::Lexemes::directive_terminal))]
pub(crate) fn directive_terminal(bytes: &[u8]) -> Terminal
    ensures { result ≡ directive_terminal bytes.now }
{
    let word = directive_word(bytes);
    let rest = directive_rest(bytes);
    if word == b"include".as_slice() && included(rest).is_some() {
        Terminal::Include
    } else if word == b"ifndef".as_slice() && is_one_word(rest) {
        Terminal::Guard
    } else if word == b"define".as_slice() && is_one_word(rest) {
        Terminal::Aside
    } else if word == b"pragma".as_slice() && is_once(rest) {
        Terminal::Aside
    } else if word == b"endif".as_slice() && is_bare(rest) {
        Terminal::EndGuard
    } else {
        Terminal::Stray
    }
}

/// The bytes as a text, None where they are no UTF-8.
pub(crate) fn if_text(bytes: &[u8]) -> Option<&str>
    ensures { text_seen result ≡ if_text bytes.now }
{
    std::str::from_utf8(bytes).ok()
}

/// The name that an `#include` names.
pub(crate) fn include_name(bytes: &[u8]) -> Option<&str>
    ensures { text_seen result ≡ included (directive_rest bytes.now) }
{
    included(directive_rest(bytes))
}

/// How many blanks stand first.
fn blank_length(bytes: &[u8]) -> usize
    ensures within { result ≤ length bytes.now }
    ensures value { result ≡ prefix_len is_blank bytes.now }
{
    bytes
        .iter()
        .take_while(|byte| byte.is_ascii_whitespace())
        .count()
}

/// How long the word is that stands first.
fn word_length(bytes: &[u8]) -> usize
    ensures within { result ≤ length bytes.now }
    ensures value { result ≡ word_length bytes.now }
{
    bytes
        .iter()
        .take_while(|byte| byte.is_ascii_alphanumeric() || **byte == b'_')
        .count()
}

/// How many bytes stand before the mark.
fn mark_place(mark: u8, bytes: &[u8]) -> usize
    ensures within { result ≤ length bytes.now }
    ensures value { result ≡ mark_place mark bytes.now }
{
    bytes.iter().take_while(|byte| **byte != mark).count()
}

/// The bytes from the first on that is no blank.
fn unblank(bytes: &[u8]) -> &[u8]
    ensures { result.now ≡ unblank bytes.now }
{
    &bytes[blank_length(bytes)..]
}

fn is_bare(bytes: &[u8]) -> bool
    ensures { result ≡ is_bare bytes.now }
{
    bytes.iter().all(|byte| byte.is_ascii_whitespace())
}

/// The line of a directive after its `#` and blanks.
fn directive_line(bytes: &[u8]) -> &[u8]
    ensures { result.now ≡ directive_line bytes.now }
{
    match bytes {
        [_, line @ ..] => unblank(line),
        [] => bytes,
    }
}

/// The first word of a directive.
fn directive_word(bytes: &[u8]) -> &[u8]
    ensures { result.now ≡ directive_word bytes.now }
{
    let line = directive_line(bytes);
    &line[..word_length(line)]
}

/// What stands after the first word of a directive and the blanks there.
fn directive_rest(bytes: &[u8]) -> &[u8]
    ensures { result.now ≡ directive_rest bytes.now }
{
    let line = directive_line(bytes);
    unblank(&line[word_length(line)..])
}

/// Whether one word stands there, and else blanks.
fn is_one_word(bytes: &[u8]) -> bool
    ensures { result ≡ is_one_word bytes.now }
{
    match bytes {
        [first, ..] => {
            (first.is_ascii_alphabetic() || *first == b'_') && is_bare(&bytes[word_length(bytes)..])
        }
        [] => false,
    }
}

/// Whether `once` stands there, and else blanks.
fn is_once(bytes: &[u8]) -> bool
    ensures { result ≡ is_once bytes.now }
{
    bytes.starts_with(b"once") && is_bare(&bytes[4..])
}

/// The text before a mark, after which only blanks stand.
fn up_to(mark: u8, bytes: &[u8]) -> Option<&str>
    ensures { text_seen result ≡ up_to mark bytes.now }
{
    let (name, behind) = bytes.split_at(mark_place(mark, bytes));
    if is_closed(mark, behind) {
        if_text(name)
    } else {
        None
    }
}

/// Whether the mark stands there, and else blanks.
fn is_closed(mark: u8, bytes: &[u8]) -> bool
    ensures { result ≡ is_closed mark bytes.now }
{
    match bytes {
        [first, rest @ ..] => *first == mark && is_bare(rest),
        [] => false,
    }
}

/// The name between two marks.
fn included(bytes: &[u8]) -> Option<&str>
    ensures { text_seen result ≡ included bytes.now }
{
    match bytes {
        [b'"', rest @ ..] => up_to(b'"', rest),
        [b'<', rest @ ..] => up_to(b'>', rest),
        _ => None,
    }
}
