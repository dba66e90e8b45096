use ice_messages::{FeedFault, Frames, read_message, write_message};
use ice_prims::{Kind, ReadFault};
use std::alloc::Global;

/// Messages as a client and a server of Ice send them: each is read, and what is written of it is the same bytes.
const MESSAGES: &[&[u8]] = &[
    b"IceP\x01\0\x01\0\x03\0\x0e\0\0\0",
    b"IceP\x01\0\x01\0\x04\0\x0e\0\0\0",
    b"IceP\x01\0\x01\0\0\0\x2b\0\0\0\x01\0\0\0\x05hello\0\0\x08ice_ping\x01\0\x06\0\0\0\x01\x01",
    b"IceP\x01\0\x01\0\x01\0\x27\0\0\0\x01\0\0\0\x05hello\0\0\x04ping\0\0\x06\0\0\0\x01\x01",
    b"IceP\x01\0\x01\0\x02\0\x19\0\0\0\x01\0\0\0\0\x06\0\0\0\x01\x01",
    b"IceP\x01\0\x01\0\x02\0\x1d\0\0\0\x01\0\0\0\0\x0a\0\0\0\x01\x01\x01\0\0\0",
    b"IceP\x01\0\x01\0\x02\0\x1e\0\0\0\x01\0\0\0\x04\x01o\0\x01\x01f\x04ping",
    b"IceP\x01\0\x01\0\x02\0\x16\0\0\0\x01\0\0\0\x07\x02no",
    // a context of two names
    b"IceP\x01\0\x01\0\0\0\x2c\0\0\0\x02\0\0\0\x01o\0\0\x02op\x02\x02\x01a\x011\x01b\x022 \x08\0\0\0\x01\x01\x07\x08",
];

/// Bytes with the place and the kind of their first fault.
const FAULTS: &[(&[u8], u64, Kind)] = &[
    (b"", 0, Kind::Short),
    (b"IceQ", 3, Kind::BadMagic),
    (b"IceP\x02\0\x01\0\x03\0\x0e\0\0\0", 4, Kind::BadVersion),
    (b"IceP\x01\0\x01\x01\x03\0\x0e\0\0\0", 6, Kind::BadVersion),
    (b"IceP\x01\0\x01\0\x05\0\x0e\0\0\0", 8, Kind::BadMessage),
    (b"IceP\x01\0\x01\0\x03\x02\x0e\0\0\0", 9, Kind::Compressed),
    (b"IceP\x01\0\x01\0\x03\x03\x0e\0\0\0", 9, Kind::BadStatus),
    (b"IceP\x01\0\x01\0\x03\0\x0d\0\0\0", 10, Kind::BadSize),
    (b"IceP\x01\0\x01\0\x03\0\x0f\0\0\0", 10, Kind::Short),
    (b"IceP\x01\0\x01\0\x03\0\x01\0\x10\0", 10, Kind::TooLarge),
    (b"IceP\x01\0\x01\0\x03\0\x0f\0\0\0\0", 14, Kind::LeftOver),
    (b"IceP\x01\0\x01\0\x03\0\x0e\0\0\0\0", 14, Kind::LeftOver),
    (
        b"IceP\x01\0\x01\0\x02\0\x13\0\0\0\x01\0\0\0\x08",
        18,
        Kind::BadStatus,
    ),
    (
        b"IceP\x01\0\x01\0\x01\0\x12\0\0\0\xff\xff\xff\xff",
        14,
        Kind::BadSize,
    ),
    // a name twice in a context, at the second
    (
        b"IceP\x01\0\x01\0\0\0\x29\0\0\0\x02\0\0\0\x01o\0\0\x02op\0\x02\x01a\x011\x01a\x012\x06\0\0\0\x01\x01",
        31,
        Kind::EqualKey,
    ),
];

/// Whether the bytes that are written of the message that the bytes are are these.
fn is_written_as_it_stands(alloc: Global, bytes: &[u8]) -> bool {
    let Ok(message) = read_message(alloc, bytes) else {
        return false;
    };
    match write_message(alloc, &message) {
        Ok(written) => written.as_slice() == bytes,
        Err(_) => false,
    }
}

/// Whether it is this fault.
fn is_fault(found: &ReadFault, place: u64, kind: Kind) -> bool {
    match found {
        ReadFault::Broken(fault) => fault.place == place && fault.kind == kind,
        _ => false,
    }
}

/// Whether this is the first fault of the bytes.
fn is_refused(alloc: Global, bytes: &[u8], place: u64, kind: Kind) -> bool {
    match read_message(alloc, bytes) {
        Ok(_) => false,
        Err(found) => is_fault(&found, place, kind),
    }
}

/// Whether a message is next, or None where the bytes are none.
fn is_next(frames: &mut Frames) -> Option<bool> {
    match frames.next() {
        Ok(message) => Some(message.is_some()),
        Err(_) => None,
    }
}

/// Whether the reader holds so many bytes, which are no message yet, and takes one more.
fn takes_one_more(frames: &mut Frames, held: usize, byte: u8) -> bool {
    is_next(frames) == Some(false) && frames.held() == held && frames.feed(&[byte]).is_ok()
}

/// Whether of the bytes fed one at a time no message comes before the last byte, and then one, and nothing is held.
fn gives_whole(frames: &mut Frames, bytes: &[u8]) -> bool {
    for (at, byte) in bytes.iter().enumerate() {
        if !takes_one_more(frames, at, *byte) {
            return false;
        }
    }
    is_next(frames) == Some(true) && frames.held() == 0
}

/// The same of a new reader.
fn comes_whole(alloc: Global, bytes: &[u8]) -> bool {
    gives_whole(&mut Frames::new(alloc), bytes)
}

#[test]
fn messages_by_their_bytes(rt: HostRuntime) {
    for (at, bytes) in MESSAGES.iter().enumerate() {
        let well = is_written_as_it_stands(rt.alloc(), bytes) && comes_whole(rt.alloc(), bytes);
        assert!(rt; well, "in message {at}");
    }
    for (at, (bytes, place, kind)) in FAULTS.iter().enumerate() {
        assert!(rt;
            is_refused(rt.alloc(), bytes, *place, *kind),
            "in fault {at}"
        );
    }
}

/// Whether a reader tells this fault, and takes no more.
fn has_stopped(frames: &mut Frames, place: u64, kind: Kind) -> bool {
    let told = match frames.next() {
        Ok(_) => false,
        Err(found) => is_fault(&found, place, kind),
    };
    told && matches!(frames.feed(b"x"), Err(FeedFault::Stopped))
}

/// A fault comes as soon as its byte is there, and for good.
#[test]
fn a_reader_that_has_stopped(rt: HostRuntime) {
    let mut frames = Frames::new(rt.alloc());
    assert!(rt; frames.feed(b"IceQ").is_ok());
    for _ in 0..2 {
        assert!(rt; has_stopped(&mut frames, 3, Kind::BadMagic));
    }
}
