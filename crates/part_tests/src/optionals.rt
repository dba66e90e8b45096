use encaps_optionals::{Skipped, open_encaps, put_tag, skip_format, take_tag, wrap_encaps};
use ice_prims::{Cursor, Fault, Kind};
use std::alloc::{AllocError, Global};
use std::test::Fail;

/// Bytes that begin with an encapsulation, its content, and how many bytes are left behind it.
const ENCAPSULATIONS: &[(&[u8], &[u8], usize)] = &[
    (b"\x06\0\0\0\x01\x01", b"", 0),
    (b"\x09\0\0\0\x01\x01abc", b"abc", 0),
    (b"\x08\0\0\0\x01\x01abc", b"ab", 1),
];

/// Bytes that begin with none, with the place and the kind of their first fault.
const UNOPENED: &[(&[u8], u64, Kind)] = &[
    (b"\x06\0\0", 0, Kind::Short),
    (b"\x05\0\0\0\x01\x01", 0, Kind::BadSize),
    (b"\xff\xff\xff\xff\x01\x01", 0, Kind::BadSize),
    (b"\x07\0\0\0\x01\x01", 0, Kind::Short),
    (b"\x01\0\x10\0\x01\x01", 0, Kind::TooLarge),
    (b"\x06\0\0\0\x01\0", 4, Kind::BadVersion),
];

/// Bytes, the tag before them, whether a marker ends the members, and which tag stands next.
const TAGS: &[(&[u8], Option<u32>, bool, Option<(u32, u8)>)] = &[
    (b"\x0a", None, false, Some((1, 2))),
    (b"\x0a", Some(0), true, Some((1, 2))),
    (b"\xf2\x1e", None, true, Some((30, 2))),
    (b"\xff", Some(4), true, None),
    (b"", Some(4), false, None),
];

/// The same with the place and the kind of the first fault.
const UNTAGGED: &[(&[u8], Option<u32>, bool, u64, Kind)] = &[
    (b"\xf2\x01", None, true, 0, Kind::BadTag),
    (b"\xf2", None, false, 1, Kind::Short),
    (b"\xf2\xff\xfe\0\0\0", None, false, 1, Kind::BadSize),
    (b"\xff", None, false, 0, Kind::BadTag),
    (b"\xf8", None, true, 0, Kind::BadTag),
    (b"\xfe", None, true, 0, Kind::BadTag),
    (b"\x0a", Some(1), true, 0, Kind::BadTag),
    (b"\xf2\x1e", Some(30), false, 0, Kind::BadTag),
    (b"", Some(4), true, 0, Kind::Short),
];

/// A tag, its format, and their bytes.
const PUT: &[(u32, u8, &[u8])] = &[
    (1, 2, b"\x0a"),
    (29, 7, b"\xef"),
    (30, 7, b"\xf7\x1e"),
    (255, 0, b"\xf0\xff\xff\0\0\0"),
];

/// A format, bytes that begin with a value of it, what becomes of that, and how many bytes are left.
const SKIPPED: &[(u8, &[u8], Skipped, usize)] = &[
    (0, b"\x05\x06", Skipped::Passed, 1),
    (1, b"\x05\x06", Skipped::Passed, 0),
    (3, b"12345678", Skipped::Passed, 0),
    (4, b"\xff\0\x01\0\0\x06", Skipped::Passed, 1),
    (5, b"\x02ab\x06", Skipped::Passed, 1),
    (6, b"\x02\0\0\0ab", Skipped::Passed, 0),
    (7, b"\x01", Skipped::Reference, 1),
];

/// The same with the place and the kind of the first fault.
const UNSKIPPED: &[(u8, &[u8], u64, Kind)] = &[
    (2, b"\x05\x06\x07", 0, Kind::Short),
    (5, b"\x03ab", 0, Kind::Short),
    (5, b"\xff\x02\0\0\0ab", 0, Kind::BadSize),
    (6, b"\x03\0\0\0ab", 0, Kind::Short),
    (6, b"\xff\xff\xff\xff", 0, Kind::BadSize),
];

/// Whether the encapsulation at the front has this content and leaves so many bytes.
fn is_opened(bytes: &[u8], content: &[u8], left: usize) -> bool {
    let mut cursor = Cursor::new(bytes);
    match open_encaps(&mut cursor) {
        Ok(mut inside) => {
            let whole = cursor.left() == left && inside.place() == 6;
            whole && inside.take_bytes(inside.left()) == Ok(content)
        }
        Err(_) => false,
    }
}

/// Whether the bytes up to so many wrap this content.
fn is_wrapped(
    alloc: Global,
    bytes: &[u8],
    content: &[u8],
    left: usize,
) -> Result<bool, AllocError> {
    if content.len() > 1000 {
        return Ok(false);
    }
    let mut out = Vec::new(alloc);
    wrap_encaps(content, &mut out)?;
    let end = bytes.len().saturating_sub(left);
    Ok(out.as_slice() == &bytes[..end])
}

/// Whether this is the first fault of what is opened, which leaves all bytes.
fn is_unopened(bytes: &[u8], place: u64, kind: Kind) -> bool {
    let mut cursor = Cursor::new(bytes);
    match open_encaps(&mut cursor) {
        Ok(_) => false,
        Err(fault) => fault == Fault { place, kind } && cursor.left() == bytes.len(),
    }
}

#[test]
fn encapsulations_by_their_bytes(rt: HostRuntime) -> Result<(), Fail> {
    for (at, (bytes, content, left)) in ENCAPSULATIONS.iter().enumerate() {
        let wrapped = is_wrapped(rt.alloc(), bytes, content, *left)?;
        assert!(rt; wrapped && is_opened(bytes, content, *left), "in row {at}");
    }
    for (at, (bytes, place, kind)) in UNOPENED.iter().enumerate() {
        assert!(rt; is_unopened(bytes, *place, *kind), "in fault {at}");
    }
    Ok(())
}

/// Whether this tag stands next.
fn is_tagged(bytes: &[u8], last: Option<u32>, marked: bool, next: Option<(u32, u8)>) -> bool {
    match take_tag(&mut Cursor::new(bytes), last, marked) {
        Ok(found) => found == next,
        Err(_) => false,
    }
}

/// Whether this is the first fault of the tag.
fn is_untagged(bytes: &[u8], last: Option<u32>, marked: bool, place: u64, kind: Kind) -> bool {
    match take_tag(&mut Cursor::new(bytes), last, marked) {
        Ok(_) => false,
        Err(fault) => fault == Fault { place, kind },
    }
}

/// Whether the tag is put so.
fn is_put(alloc: Global, tag: u32, format: u8, bytes: &[u8]) -> Result<bool, AllocError> {
    if tag > 1000 || format > 7 {
        return Ok(false);
    }
    let mut out = Vec::new(alloc);
    put_tag(&mut out, tag, format)?;
    Ok(out.as_slice() == bytes)
}

#[test]
fn tags_by_their_bytes(rt: HostRuntime) -> Result<(), Fail> {
    for (at, (bytes, last, marked, next)) in TAGS.iter().enumerate() {
        assert!(rt; is_tagged(bytes, *last, *marked, *next), "in row {at}");
    }
    for (at, (bytes, last, marked, place, kind)) in UNTAGGED.iter().enumerate() {
        let refused = is_untagged(bytes, *last, *marked, *place, *kind);
        assert!(rt; refused, "in fault {at}");
    }
    for (tag, format, bytes) in PUT {
        assert!(rt; is_put(rt.alloc(), *tag, *format, bytes)?);
    }
    Ok(())
}

/// What becomes of a value of a format that there is.
fn skipped_at(cursor: &mut Cursor<'_>, format: u8) -> Result<Skipped, Fault> {
    skip_format(cursor, format.min(7))
}

/// Whether so many bytes are left behind a value of the format, of which this becomes.
fn is_skipped(format: u8, bytes: &[u8], skipped: Skipped, left: usize) -> bool {
    let mut cursor = Cursor::new(bytes);
    match skipped_at(&mut cursor, format) {
        Ok(found) => found == skipped && cursor.left() == left,
        Err(_) => false,
    }
}

/// Whether this is the first fault of the value.
fn is_unskipped(format: u8, bytes: &[u8], place: u64, kind: Kind) -> bool {
    match skipped_at(&mut Cursor::new(bytes), format) {
        Ok(_) => false,
        Err(fault) => fault == Fault { place, kind },
    }
}

#[test]
fn formats_by_their_bytes(rt: HostRuntime) {
    for (at, (format, bytes, skipped, left)) in SKIPPED.iter().enumerate() {
        assert!(rt; is_skipped(*format, bytes, *skipped, *left), "in row {at}");
    }
    for (at, (format, bytes, place, kind)) in UNSKIPPED.iter().enumerate() {
        assert!(rt;
            is_unskipped(*format, bytes, *place, *kind),
            "in fault {at}"
        );
    }
}
