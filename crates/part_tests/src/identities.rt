use ice_proxy::{
    TextFault, escape_identity, parse_identity, print_identity, print_word, quote, text_of,
};
use ice_types::{Identity, Name};
use std::alloc::{AllocError, Global};
use std::process::Abort;

/// Texts with the category and the name of the identity that they stand for.
const IDENTITIES: &[(&str, &str, &str)] = &[
    ("a\\/b/c", "a/b", "c"),
    ("\"a b\"", "", "a b"),
    (" \t\x0cn\r\n", "", "n"),
    ("\"c:@d/n\"", "c:@d", "n"),
    ("/x", "", "x"),
    ("-x", "", "-x"),
    ("\\u00e9", "", "\u{e9}"),
    ("\\303\\251", "", "\u{e9}"),
    ("\\U0001F600\u{e9}", "", "\u{1f600}\u{e9}"),
    (
        "\\\\\\\"\\/\\'\\a\\b\\t\\n\\v\\f\\r\\060",
        "",
        "\\\"/'\x07\x08\t\n\x0b\x0c\r0",
    ),
];

/// Texts that stand for no identity, with the place of what cannot stand.
const REFUSED: &[(&str, u32)] = &[
    ("", 0),
    (" \t", 2),
    ("\\377", 0),
    ("\\400", 0),
    ("\\18", 0),
    ("\\q", 0),
    ("\\", 0),
    ("\\u00g9", 0),
    ("\\ud800", 0),
    ("\\U00110000", 0),
    (" a/b/c", 1),
    ("x/", 0),
    ("/", 0),
    ("\"x", 0),
    ("\"x\\\"", 0),
    ("a\"b\"", 0),
    ("\"a\"b", 0),
    ("a\\:", 0),
    ("a:", 1),
    ("a @", 2),
    (":a", 0),
    ("a b", 2),
];

/// Categories and names, and how their identity is printed.
const PRINTED: &[(&str, &str, &str)] = &[
    ("", "", "\"\""),
    ("", "n", "n"),
    ("a", "", "a/"),
    ("a/b", "c", "a\\/b/c"),
    ("", "-x", "\"-x\""),
    ("-c", "n", "\"-c/n\""),
    ("c", "-n", "c/-n"),
    ("a b", "c:d", "\"a b/c:d\""),
    ("", "a\tb", "\"a\\tb\""),
    ("", "a\x01\x7f\u{e9}", "a\\001\\177\u{e9}"),
    ("", "\"'\\", "\"\\\"\\'\\\\\""),
];

/// A word with the text that it stands for, and how that is printed as a word and in quotes.
type Row = (&'static str, &'static str, &'static str, &'static str);

const TEXTS: &[Row] = &[
    ("", "", "\"\"", "\"\""),
    ("a\\/b/c", "a/b/c", "a/b/c", "\"a/b/c\""),
    ("\"-1\"", "-1", "\"-1\"", "\"-1\""),
    ("\\u20ac", "\u{20ac}", "\u{20ac}", "\"\u{20ac}\""),
];

/// Words that stand for no text.
const NO_TEXTS: &[&str] = &["\\x", "a\"", "\"", "\"a\"b\"", "\\303"];

/// The identity of a category and a name.
fn named(alloc: Global, category: &str, name: &str) -> Result<Identity, AllocError> {
    let category = Name::of(alloc, category)?;
    Ok(Identity {
        name: Name::of(alloc, name)?,
        category,
    })
}

/// What a text of a few bytes stands for.
fn parsed(rt: &(impl AllocGlobal + Abort), text: &str) -> Result<Identity, TextFault> {
    assert!(rt; text.len() < 8_192);
    parse_identity(rt.alloc(), text)
}

fn is_of(identity: &Identity, category: &str, name: &str) -> bool {
    identity.category.as_str() == category && identity.name.as_str() == name
}

fn is_parsed(rt: &(impl AllocGlobal + Abort), text: &str, category: &str, name: &str) -> bool {
    match parsed(rt, text) {
        Ok(found) => is_of(&found, category, name),
        Err(_) => false,
    }
}

fn is_refused(rt: &(impl AllocGlobal + Abort), text: &str, place: u32) -> bool {
    match parsed(rt, text) {
        Ok(_) => false,
        Err(fault) => fault == TextFault::Broken { place },
    }
}

#[test]
fn identities_by_their_texts(rt: HostRuntime) {
    for (at, (text, category, name)) in IDENTITIES.iter().enumerate() {
        assert!(rt; is_parsed(&rt, text, category, name), "in row {at}");
    }
    for (at, (text, place)) in REFUSED.iter().enumerate() {
        assert!(rt; is_refused(&rt, text, *place), "in fault {at}");
    }
}

/// How an identity is printed.
fn printed_of(alloc: Global, category: &str, name: &str) -> Result<Name, AllocError> {
    let identity = named(alloc, category, name)?;
    print_identity(alloc, &identity)
}

/// How an identity is escaped.
fn escaped_of(alloc: Global, category: &str, name: &str) -> Result<Name, AllocError> {
    let identity = named(alloc, category, name)?;
    escape_identity(alloc, &identity)
}

/// Whether it is this text.
fn is_text(found: &Result<Name, AllocError>, text: &str) -> bool {
    match found {
        Ok(found) => found.as_str() == text,
        Err(_) => false,
    }
}

#[test]
fn identities_as_they_are_printed(rt: HostRuntime) {
    let alloc = rt.alloc();
    for (at, (category, name, printed)) in PRINTED.iter().enumerate() {
        let is_printed = is_text(&printed_of(alloc, category, name), printed);
        assert!(rt; is_printed, "in row {at}");
    }
    assert!(rt; is_text(&escaped_of(alloc, "a b", "c/d"), "a b/c\\/d"));
}

/// Whether the word stands for the text.
fn stands_for(alloc: Global, word: &str, text: &str) -> bool {
    match text_of(alloc, word.as_bytes()) {
        Ok(Some(found)) => found.as_str() == text,
        _ => false,
    }
}

/// Whether the text is printed so as a word.
fn is_printed_as(alloc: Global, text: &str, printed: &str) -> bool {
    let mut line = String::new(alloc);
    print_word(&mut line, text).is_ok() && line.as_str() == printed
}

/// Whether a word with its text comes so.
fn comes(alloc: Global, row: &Row) -> bool {
    let (word, text, printed, quoted) = row;
    let printed = stands_for(alloc, word, text) && is_printed_as(alloc, text, printed);
    printed && is_text(&quote(alloc, text), quoted)
}

#[test]
fn texts_by_their_words(rt: HostRuntime) {
    for (at, row) in TEXTS.iter().enumerate() {
        assert!(rt; comes(rt.alloc(), row), "in row {at}");
    }
    for word in NO_TEXTS {
        assert!(rt; matches!(text_of(rt.alloc(), word.as_bytes()), Ok(None)));
    }
}
