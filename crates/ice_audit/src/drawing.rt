//! The lines of a capture.

ghost use Rattle.std.specs.Prelude.{◌≡◌, ◌≤◌, IfOk, length, drop};
ghost use Rattle.ice_audit.specs.Captured.{is_asked};
ghost use Rattle.ice_audit.specs.Traces.{seen_by};
ghost use Rattle.ice_audit.specs.Lines.{lines_of, left_by, left_if, line_by, request_seen};

use crate::client::Posed;
use crate::verdict::{Line, Seen};
use std::alloc::{AllocError, Global};

/// The lines of what a client asked, where these are the statuses of the first replies, and the server's close message
/// stands or not.
pub fn lines(
    alloc: Global,
    posed: &[Posed],
    statuses: &[u8],
    closed: bool,
) -> Result<Vec<Line>, AllocError>
    ensures { IfOk result (λ lines. lines.items ≡ lines_of posed.now statuses.now closed) }
{
    let mut lines = Vec::new(alloc);
    let mut at = 0;
    for item in posed {
        let left = &statuses[at..];
        lines.push(line_of(item, left, closed))?;
        at += used(item, left);
    }
    Ok(lines)
}

/// The line of what was asked with a message, where the replies that are left begin with its reply, if it has one.
fn line_of(posed: &Posed, statuses: &[u8], closed: bool) -> Line
    ensures { result ≡ line_by posed.now statuses.now closed }
{
    match posed {
        Posed::Request(id) => Line {
            id: *id,
            calls: 1,
            batch: false,
            seen: request_seen(*id, statuses, closed),
        },
        Posed::Batch(calls) => Line {
            id: 0,
            calls: *calls,
            batch: true,
            seen: Seen::Either,
        },
    }
}

/// How many of the replies that are left are to it.
fn used(posed: &Posed, statuses: &[u8]) -> usize
    ensures within { result ≤ length statuses.now }
    ensures left { drop result statuses.now ≡ left_by posed.now statuses.now }
{
    match posed {
        Posed::Request(id) => used_by(*id, statuses),
        Posed::Batch(_) => 0,
    }
}

fn used_by(id: i32, statuses: &[u8]) -> usize
    ensures within { result ≤ length statuses.now }
    ensures left { drop result statuses.now ≡ left_if (is_asked id) statuses.now }
{
    if id != 0 && statuses.len() > 0 { 1 } else { 0 }
}

/// What is seen of a request with this id.
fn request_seen(id: i32, statuses: &[u8], closed: bool) -> Seen
    ensures { result ≡ request_seen (is_asked id) statuses.now closed }
{
    if id == 0 {
        return Seen::Either;
    }
    match statuses.first() {
        Some(status) => seen_by(*status),
        None => if closed { Seen::Never } else { Seen::Either },
    }
}

/// By a reply's status. (Ice manual, "Reply Status".)
fn seen_by(status: u8) -> Seen
    ensures { result ≡ seen_by status }
{
    if status == 2 || status == 3 {
        Seen::Never
    } else {
        Seen::Once
    }
}
