use ice_proxy::{TextFault, parse_text, print_text};
use ice_types::Name;
use std::process::Abort;

/// Texts of proxies, and what is printed of the proxy that each is read as.
const PRINTED: &[(&str, &str)] = &[
    (
        "hello:tcp -h localhost -p 10000",
        "hello -t -e 1.1:tcp -h localhost -p 10000 -t 60000",
    ),
    ("a -f -t", "a -f \"-t\" -t -e 1.1"),
    ("a @ b", "a -t -e 1.1 @ b"),
    ("a @ \"\"", "a -t -e 1.1"),
    (
        " \"c/a b\" \t-e 01.001 @\"b c\" ",
        "\"c/a b\" -t -e 1.1 @ \"b c\"",
    ),
    (
        "a:opaque -t 2 -e 1.0 -x \"\"",
        "a -t -e 1.1:opaque -t 2 -e 1.0 -x \"\"",
    ),
    (
        "a:opaque -t -32768 -e 2.255 -x 0Aff",
        "a -t -e 1.1:opaque -t -32768 -e 2.255 -x 0aff",
    ),
    (
        "a:tcp -t infinite:tcp -t -2",
        "a -t -e 1.1:tcp -p 0 -t infinite:tcp -p 0 -t -2",
    ),
    ("a:tcp -p -1", "a -t -e 1.1:tcp -p -1 -t 60000"),
    (
        "a:tcp:default -h \"x y\" -z",
        "a -t -e 1.1:tcp -p 0 -t 60000:tcp -h \"x y\" -p 0 -t 60000 -z",
    ),
    ("a -s -p 2.0 -D -e 1.0 -f f", "a -f f -D -s -p 2.0 -e 1.0"),
    ("a -p 1.0 -O", "a -O -e 1.1"),
];

/// Texts that are of no proxy, with the place of the first word that cannot stand.
const REFUSED: &[(&str, u32)] = &[
    ("", 0),
    (":tcp", 0),
    ("a -t -o", 5),
    ("a -f", 4),
    ("a -f :tcp", 5),
    ("a @ b c", 6),
    ("a @ b:tcp", 5),
    ("a:tcp @ b", 6),
    ("a:opaque -t 1 -e 1.1 -x 00", 12),
    ("a:opaque -e 1.0 -t 2 -x 00", 9),
    ("a:opaque -t 32768 -e 1.0 -x 00", 12),
    ("a:opaque -t 2 -e 1.0 -x 000", 24),
    ("a -p 2.300", 5),
    ("a -e 1", 5),
    ("a:tcp -p 2147483648", 9),
    ("a:tcp -p 1 -p 1", 11),
    ("a:tcp -p +1", 9),
    ("a:ssl -p 1", 2),
    ("a:", 2),
    ("a -x", 2),
    ("a b", 2),
];

/// How the proxy of a text is printed.
fn printed_of(rt: &(impl AllocGlobal + Abort), text: &str) -> Result<Name, TextFault> {
    assert!(rt; text.len() < 8_192);
    let proxy = parse_text(rt.alloc(), text)?;
    Ok(print_text(rt.alloc(), &proxy)?)
}

fn is_printed(rt: &(impl AllocGlobal + Abort), text: &str, printed: &str) -> bool {
    match printed_of(rt, text) {
        Ok(found) => found.as_str() == printed,
        Err(_) => false,
    }
}

fn is_refused(rt: &(impl AllocGlobal + Abort), text: &str, place: u32) -> bool {
    match printed_of(rt, text) {
        Ok(_) => false,
        Err(fault) => fault == TextFault::Broken { place },
    }
}

#[test]
fn proxies_by_their_texts(rt: HostRuntime) {
    for (at, (text, printed)) in PRINTED.iter().enumerate() {
        let both = is_printed(&rt, text, printed) && is_printed(&rt, printed, printed);
        assert!(rt; both, "in row {at}");
    }
    for (at, (text, place)) in REFUSED.iter().enumerate() {
        assert!(rt; is_refused(&rt, text, *place), "in fault {at}");
    }
}
