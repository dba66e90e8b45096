//! What is written of a capture.

ghost use Rattle.std.specs.Prelude.{◌≡◌, ◌++◌, IfOk, OnOk, codes};
ghost use Rattle.std.specs.List.{flat_map};
ghost use Rattle.node_commands.specs.Audits.{seen_words, asked_words, capture_line};
ghost use Rattle.node_commands.specs.Audits.{side_word, cause_word, denial, verdict_text};

use crate::pieces::put;
use ice_audit::{Line, Seen, Side, Verdict, Why};
use itoa::Buffer;
use std::alloc::{AllocError, Global};

/// The lines of a capture that is good, and then `yes`; or what is wrong first, and where.
pub(crate) fn verdict_text(alloc: Global, verdict: &Verdict) -> Result<Vec<u8>, AllocError>
    ensures { IfOk result (λ text. text.items ≡ verdict_text verdict.now) }
{
    let mut text = Vec::new(alloc);
    match verdict {
        Verdict::Yes(lines) => {
            put_lines(&mut text, lines.as_slice())?;
            put(&mut text, "yes\n")?;
        }
        Verdict::No { side, place, why } => put_denial(&mut text, *side, *place, *why)?,
    }
    Ok(text)
}

fn put_lines(text: &mut Vec<u8>, lines: &[Line]) -> Result<(), AllocError>
    ensures { OnOk result (text.new.items ≡ text.old.items ++ flat_map capture_line lines.now) }
{
    for line in lines {
        put_line(text, line)?;
    }
    Ok(())
}

fn put_line(text: &mut Vec<u8>, line: &Line) -> Result<(), AllocError>
    ensures { OnOk result (text.new.items ≡ text.old.items ++ capture_line line.now) }
{
    put_asked(text, line)?;
    put(text, " ")?;
    put(text, seen_words(line.seen))?;
    put(text, "\n")
}

/// A request by its id, a batch by how many calls it is.
fn put_asked(text: &mut Vec<u8>, line: &Line) -> Result<(), AllocError>
    ensures { OnOk result (text.new.items ≡ text.old.items ++ asked_words line.now.batch line.now) }
{
    if line.batch {
        put(text, "batch ")?;
        put(text, Buffer::new().format(line.calls))
    } else {
        put(text, "request ")?;
        put(text, Buffer::new().format(line.id))
    }
}

/// How often a call was dispatched.
fn seen_words(seen: Seen) -> &'static str
    ensures { result.now ≡ seen_words seen }
{
    match seen {
        Seen::Once => "1",
        Seen::Never => "0",
        Seen::Either => "0 or 1",
    }
}

/// What is wrong with the bytes of an end, and where.
fn put_denial(text: &mut Vec<u8>, side: Side, place: u64, why: Why) -> Result<(), AllocError>
    ensures { OnOk result (text.new.items ≡ text.old.items ++ denial side place why) }
{
    put(text, "no ")?;
    put(text, side_word(side))?;
    put(text, " ")?;
    put(text, Buffer::new().format(place))?;
    put(text, ": ")?;
    put(text, cause_word(why))?;
    put(text, "\n")
}

fn side_word(side: Side) -> &'static str
    ensures { result.now ≡ side_word side }
{
    match side {
        Side::Client => "client",
        Side::Server => "server",
    }
}

fn cause_word(why: Why) -> &'static str
    ensures { result.now ≡ cause_word why }
{
    match why {
        Why::Bytes(kind) => kind.name(),
        Why::AfterClose => "AfterClose",
        Why::TooLong => "TooLong",
    }
}
