use ice_audit::{Line, Seen, Side, Verdict, Why, audit};
use ice_prims::Kind;
use std::alloc::Global;

/// A request with the id 1.
const REQUEST: &[u8] =
    b"IceP\x01\0\x01\0\0\0\x2b\0\0\0\x01\0\0\0\x05hello\0\0\x08ice_ping\x01\0\x06\0\0\0\x01\x01";

const BATCH: &[u8] =
    b"IceP\x01\0\x01\0\x01\0\x27\0\0\0\x01\0\0\0\x05hello\0\0\x04ping\0\0\x06\0\0\0\x01\x01";

const VALIDATE: &[u8] = b"IceP\x01\0\x01\0\x03\0\x0e\0\0\0";

/// What a server sends for the request, with how often that was dispatched.
const TOLD: &[(&[u8], Seen)] = &[
    (VALIDATE, Seen::Either),
    // a reply, and one that there is no such object
    (
        b"IceP\x01\0\x01\0\x03\0\x0e\0\0\0IceP\x01\0\x01\0\x02\0\x19\0\0\0\x01\0\0\0\0\x06\0\0\0\x01\x01",
        Seen::Once,
    ),
    (
        b"IceP\x01\0\x01\0\x03\0\x0e\0\0\0IceP\x01\0\x01\0\x02\0\x1d\0\0\0\x01\0\0\0\x02\x05hello\0\0\x01o",
        Seen::Never,
    ),
    // a close message
    (
        b"IceP\x01\0\x01\0\x03\0\x0e\0\0\0IceP\x01\0\x01\0\x04\0\x0e\0\0\0",
        Seen::Never,
    ),
];

/// What both ends send, with what is wrong of which end, and where.
type Wrong = (&'static [u8], &'static [u8], Side, u64, Why);

const FAULTS: &[Wrong] = &[
    (
        b"IceQ",
        b"IceQ",
        Side::Client,
        3,
        Why::Bytes(Kind::BadMagic),
    ),
    (b"I", b"IceQ", Side::Server, 3, Why::Bytes(Kind::BadMagic)),
    (b"I", b"", Side::Client, 0, Why::Bytes(Kind::NotValidated)),
    (b"", REQUEST, Side::Server, 0, Why::Bytes(Kind::Unexpected)),
    (
        b"IceP\x01\0\x01\0\x04\0\x0e\0\0\0IceP\x01\0\x01\0\x04\0\x0e\0\0\0",
        VALIDATE,
        Side::Client,
        14,
        Why::AfterClose,
    ),
    // a reply with the id 2
    (
        REQUEST,
        b"IceP\x01\0\x01\0\x03\0\x0e\0\0\0IceP\x01\0\x01\0\x02\0\x19\0\0\0\x02\0\0\0\0\x06\0\0\0\x01\x01",
        Side::Server,
        28,
        Why::Bytes(Kind::UnknownId),
    ),
];

/// Whether this is the one line that is told.
fn tells(verdict: &Verdict, line: &Line) -> bool {
    match verdict {
        Verdict::Yes(lines) => matches!(lines.as_slice(), [only] if only == line),
        Verdict::No { .. } => false,
    }
}

/// Whether this is the one line of a capture.
fn is_told(alloc: Global, client: &[u8], server: &[u8], line: &Line) -> bool {
    match audit(alloc, client, server) {
        Ok(verdict) => tells(&verdict, line),
        Err(_) => false,
    }
}

/// Whether this is what is wrong.
fn refuses(verdict: &Verdict, row: &Wrong) -> bool {
    match verdict {
        Verdict::No { side, place, why } => *side == row.2 && *place == row.3 && *why == row.4,
        Verdict::Yes(_) => false,
    }
}

/// Whether this is wrong with the capture.
fn is_refused(alloc: Global, row: &Wrong) -> bool {
    match audit(alloc, row.0, row.1) {
        Ok(verdict) => refuses(&verdict, row),
        Err(_) => false,
    }
}

#[test]
fn captures_by_their_bytes(rt: HostRuntime) {
    for (at, (server, seen)) in TOLD.iter().enumerate() {
        let line = Line {
            id: 1,
            calls: 1,
            batch: false,
            seen: *seen,
        };
        assert!(rt; is_told(rt.alloc(), REQUEST, server, &line), "in row {at}");
    }
    let batch = Line {
        id: 0,
        calls: 1,
        batch: true,
        seen: Seen::Either,
    };
    assert!(rt; is_told(rt.alloc(), BATCH, VALIDATE, &batch));
    for (at, row) in FAULTS.iter().enumerate() {
        assert!(rt; is_refused(rt.alloc(), row), "in fault {at}");
    }
}
