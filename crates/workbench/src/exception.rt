//! Reads one user exception from standard input, and writes it again.
//!
//! usage: workbench exception [--compact] FILE
//!
//! The input is one encapsulation of an exception. Its slices whose exceptions the Slice file FILE has are read,
//! the others are kept. It is written in sliced format, with `--compact` in compact format. A refusal has the
//! status and the line of `ice relay`.

use class_slices::{Format, UserException, UserExceptionFault, read_exception, write_exception};
use ice_encoding::LARGEST;
use ice_ports::{FolderShelf, Shelf, Sink, Source, StdSink, StdSource};
use ice_relay::read_input;
use ice_types::Schema;
use node_commands::{Outcome, print, report};
use slice_check::load;
use slice_lexer::MOST_BYTES;
use std::alloc::Global;
use std::process::ExitCode;

/// No more bytes of a file are read: a text has fewer.
const MOST_OF_A_FILE: u64 = MOST_BYTES as u64 + 1;

/// The name of the file and the format that the words ask for, None where they are none of the listed forms.
fn asked(words: &[String]) -> Option<(&str, Format)> {
    match words {
        [file] => Some((file.as_str(), Format::Sliced)),
        [option, file] if option.as_str() == "--compact" => {
            Some((file.as_str(), Format::Compact))
        }
        _ => None,
    }
}

/// Reads and writes as the words ask, and answers the status to end with.
fn relayed<H: Shelf, S: Source, K: Sink, E: Sink>(
    alloc: Global,
    words: &[String],
    shelf: &mut H,
    source: &mut S,
    sink: &mut K,
    errors: &mut E,
) -> u8 {
    let Some((file, format)) = asked(words) else {
        return report(Outcome::Usage, errors);
    };
    match load(alloc, shelf, file) {
        Ok(schema) => relayed_by(alloc, &schema, format, source, sink, errors),
        Err(fault) => report(Outcome::from(fault), errors),
    }
}

/// The same by a schema.
fn relayed_by<S: Source, K: Sink, E: Sink>(
    alloc: Global,
    schema: &Schema,
    format: Format,
    source: &mut S,
    sink: &mut K,
    errors: &mut E,
) -> u8 {
    match read_input(alloc, source) {
        Ok(input) => read(alloc, schema, format, input.as_slice(), sink, errors),
        Err(fault) => report(Outcome::from(fault), errors),
    }
}

/// The same of an input.
fn read<K: Sink, E: Sink>(
    alloc: Global,
    schema: &Schema,
    format: Format,
    input: &[u8],
    sink: &mut K,
    errors: &mut E,
) -> u8 {
    match read_exception(alloc, schema, input) {
        Ok(found) => written(alloc, schema, format, found, sink, errors),
        Err(fault) => report(Outcome::from(fault), errors),
    }
}

/// The same of an exception.
fn written<K: Sink, E: Sink>(
    alloc: Global,
    schema: &Schema,
    format: Format,
    found: UserException,
    sink: &mut K,
    errors: &mut E,
) -> u8 {
    match write_exception(alloc, schema, found, format, LARGEST as u32) {
        Ok(bytes) => report(print(bytes.as_slice(), sink), errors),
        Err(fault) => report(of_writing(fault), errors),
    }
}

/// What was read is of its type, so the status 1 of `IllTyped` comes of no input.
fn of_writing(fault: UserExceptionFault) -> Outcome<'static> {
    match fault {
        UserExceptionFault::IllTyped(_) => Outcome::Different,
        UserExceptionFault::UnknownNeedsSliced(_) => Outcome::NeedsSliced,
        UserExceptionFault::TooLong(length) => Outcome::TooLong(length),
        UserExceptionFault::Memory => Outcome::Memory,
    }
}

/// Reads and writes as the words ask, over the real outside.
pub fn relay(rt: &HostRuntime, alloc: Global, words: &[String]) -> ExitCode {
    let mut source = StdSource::input(rt);
    let mut sink = StdSink::output(rt);
    let mut errors = StdSink::error(rt);
    let mut shelf = FolderShelf::new(rt, MOST_OF_A_FILE);
    ExitCode::from(relayed(
        alloc,
        words,
        &mut shelf,
        &mut source,
        &mut sink,
        &mut errors,
    ))
}
