//! The events, and the line of each.
//!
//! | line | what happens |
//! |---|---|
//! | `call LENGTH RETRIES` | a call begins whose request has so many bytes; calls are numbered from 0 |
//! | `call LENGTH RETRIES oneway` | one that asks for no reply |
//! | `call LENGTH RETRIES batch CALLS` | so many calls in one message, which asks for no reply |
//! | `call .. idempotent` | one that may be dispatched again |
//! | `connect CALL` | a connection is there; connections are numbered from 0 |
//! | `connect CALL cached` | one to a place that came from a cache |
//! | `fail CALL` | no connection is there |
//! | `validate CONNECTION` | the server writes the validate message |
//! | `hand CONNECTION BYTES` | the connection takes so many bytes from the client |
//! | `arrive CONNECTION BYTES` | so many of these reach the server |
//! | `dispatch CONNECTION` | the server reads the message and dispatches its first call |
//! | `refuse CONNECTION` | the server reads the message and has no such object |
//! | `answer CONNECTION` | the call has its answer: the server dispatches the next one, or writes the reply |
//! | `close CONNECTION` | the server closes the connection |
//! | `read CONNECTION` | the client reads the next message |
//! | `lose CONNECTION` | the client loses the connection |
//! | `leave CONNECTION` | the server loses the connection |

use std::str::SplitWhitespace;
use thiserror::Error;

/// What a call is like.
#[derive(Clone, Copy)]
pub struct Form {
    pub is_idempotent: bool,
    /// It asks for a reply.
    pub replies: bool,
    /// How many calls its message has.
    pub calls: u32,
}

/// What happens next in the world.
#[derive(Clone, Copy)]
pub enum Event {
    Call {
        length: u64,
        retries: u32,
        form: Form,
    },
    Connect {
        call: usize,
        is_cached: bool,
    },
    Fail(usize),
    Validate(usize),
    Hand(usize, u64),
    Arrive(usize, u64),
    Dispatch(usize),
    Refuse(usize),
    Answer(usize),
    Close(usize),
    Read(usize),
    Lose(usize),
    Leave(usize),
}

/// Why a line is no event.
#[derive(Clone, Copy, Debug, Error)]
pub enum LineFault {
    #[error("no such event; there are call, connect, fail, validate, hand, arrive, dispatch, refuse, \
         answer, close, read, lose and leave")]
    NoSuchEvent,
    #[error("the number of a call or of a connection is due")]
    NoNumber,
    #[error("a number of bytes or of retries is due")]
    NoAmount,
    #[error("a number of calls is due, 1 to 1,000")]
    NoCount,
    #[error("a call has 1 to 1,048,576 bytes and at most 10 retries")]
    OutOfRange,
    #[error("the line goes on after its event")]
    LeftOver,
}

/// The longest message, in bytes, and the most retries of a call.
const MOST_BYTES: u64 = 1_048_576;

const MOST_RETRIES: u64 = 10;

/// The most calls of one message.
const MOST_CALLS: u32 = 1_000;

/// The event of a line, or None where the line is blank or begins with `#`.
pub fn event_of(line: &str) -> Result<Option<Event>, LineFault> {
    let mut words = line.split_whitespace();
    let Some(name) = words.next() else {
        return Ok(None);
    };
    if name.starts_with('#') {
        return Ok(None);
    }
    let event = match name {
        "call" => call_of(&mut words)?,
        "connect" => Event::Connect {
            call: number(&mut words)?,
            is_cached: is_marked(&mut words, "cached")?,
        },
        "fail" => Event::Fail(number(&mut words)?),
        "validate" => Event::Validate(number(&mut words)?),
        "hand" => Event::Hand(number(&mut words)?, amount(&mut words)?),
        "arrive" => Event::Arrive(number(&mut words)?, amount(&mut words)?),
        "dispatch" => Event::Dispatch(number(&mut words)?),
        "refuse" => Event::Refuse(number(&mut words)?),
        "answer" => Event::Answer(number(&mut words)?),
        "close" => Event::Close(number(&mut words)?),
        "read" => Event::Read(number(&mut words)?),
        "lose" => Event::Lose(number(&mut words)?),
        "leave" => Event::Leave(number(&mut words)?),
        _ => return Err(LineFault::NoSuchEvent),
    };
    match words.next() {
        None => Ok(Some(event)),
        Some(_) => Err(LineFault::LeftOver),
    }
}

fn call_of(words: &mut SplitWhitespace<'_>) -> Result<Event, LineFault> {
    let length = amount(words)?;
    let retries = amount(words)?;
    if length == 0 || length > MOST_BYTES || retries > MOST_RETRIES {
        return Err(LineFault::OutOfRange);
    }
    Ok(Event::Call {
        length,
        retries: retries as u32,
        form: form_of(words)?,
    })
}

/// What a call is like, by the marks behind its numbers.
fn form_of(words: &mut SplitWhitespace<'_>) -> Result<Form, LineFault> {
    let mut form = Form {
        is_idempotent: false,
        replies: true,
        calls: 1,
    };
    while let Some(mark) = words.next() {
        match mark {
            "idempotent" => form.is_idempotent = true,
            "oneway" => form.replies = false,
            "batch" => {
                form.replies = false;
                form.calls = count(words.next())?;
            }
            _ => return Err(LineFault::LeftOver),
        }
    }
    Ok(form)
}

/// A number of calls.
fn count(word: Option<&str>) -> Result<u32, LineFault> {
    match word.map(str::parse) {
        Some(Ok(calls)) if 0 < calls && calls <= MOST_CALLS => Ok(calls),
        _ => Err(LineFault::NoCount),
    }
}

/// The number of a call or of a connection.
fn number(words: &mut SplitWhitespace<'_>) -> Result<usize, LineFault> {
    match words.next() {
        Some(word) => word.parse().map_err(|_| LineFault::NoNumber),
        None => Err(LineFault::NoNumber),
    }
}

/// A number of bytes or of retries.
fn amount(words: &mut SplitWhitespace<'_>) -> Result<u64, LineFault> {
    match words.next() {
        Some(word) => word.parse().map_err(|_| LineFault::NoAmount),
        None => Err(LineFault::NoAmount),
    }
}

/// Whether the next word is this mark. There may be none.
fn is_marked(words: &mut SplitWhitespace<'_>, mark: &str) -> Result<bool, LineFault> {
    match words.next() {
        None => Ok(false),
        Some(word) if word == mark => Ok(true),
        Some(_) => Err(LineFault::LeftOver),
    }
}
