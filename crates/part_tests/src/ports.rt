//! The objects in memory through their traits, and files at the edges of what a path may be. What the
//! standard streams do, the cases show.

use ice_ports::{Failed, FolderShelf, MemSink, MemSource, Shelf, Sink, Source};
use std::alloc::{AllocError, Global};
use std::test::Fail;
use test_outside::{bytes, calls};

/// Hands what one read gives to a sink, and answers how many bytes it took.
fn move_piece<S: Source, K: Sink>(source: &mut S, sink: &mut K) -> Result<usize, Failed> {
    let mut room = [0u8; 8];
    let count = source.read(&mut room)?;
    sink.write(&room[..count])
}

/// Whether the shelf answers this content, or None.
fn has<H: Shelf>(alloc: Global, shelf: &mut H, name: &str, content: Option<&[u8]>) -> bool {
    match shelf.load(alloc, name) {
        Ok(Some(bytes)) => content == Some(bytes.as_slice()),
        Ok(None) => content.is_none(),
        Err(_) => false,
    }
}

/// What moves out of six bytes that come by four, where the second read fails, into a sink that has
/// room for five, where the fourth write fails.
const MOVES: &[Result<usize, Failed>] = &[Ok(4), Err(Failed), Ok(1), Ok(0), Err(Failed)];

/// Whether they move so.
fn pieces_move(source: &mut MemSource, sink: &mut MemSink) -> bool {
    for want in MOVES {
        if move_piece(source, sink) != *want {
            return false;
        }
    }
    (sink.taken() == b"abcde".as_slice())
        & (source.calls() == 5)
        & (source.failures() == 1)
        & (sink.calls() == 4)
        & (sink.failures() == 1)
}

/// The same, with a new source and a new sink.
fn all_move(alloc: Global) -> Result<bool, AllocError> {
    let input = bytes(alloc, b"abcdef")?;
    let reads = calls(alloc, &[1])?;
    let mut sink = MemSink::new(alloc, 5, calls(alloc, &[3])?)?;
    let mut source = MemSource::new(input, 4, reads);
    Ok(pieces_move(&mut source, &mut sink))
}

#[test]
fn pieces_move_until_the_end_of_the_input_and_of_the_room(rt: HostRuntime) -> Result<(), Fail> {
    assert!(rt; all_move(rt.alloc())?);
    Ok(())
}

/// Names, and what a folder answers of which no more than three bytes of a file are read.
const LOADS: &[(&str, Option<&[u8]>)] = &[
    ("/dev/zero", Some(&[0, 0, 0])),
    ("/dev/zero/below", None),
    ("a\0b", None),
    ("", None),
];

/// A name of 256 bytes: no file of the system has one.
const TOO_LONG: &str = "\
    0123456789abcdef0123456789abcdef0123456789abcdef0123456789abcdef\
    0123456789abcdef0123456789abcdef0123456789abcdef0123456789abcdef\
    0123456789abcdef0123456789abcdef0123456789abcdef0123456789abcdef\
    0123456789abcdef0123456789abcdef0123456789abcdef0123456789abcdef";

#[test]
fn a_folder_has_files_and_no_others(rt: HostRuntime) {
    let alloc = rt.alloc();
    let mut shelf = FolderShelf::new(rt, 3);
    for (name, content) in LOADS {
        assert!(rt; has(alloc, &mut shelf, name, *content));
    }
    assert!(rt; has(alloc, &mut shelf, TOO_LONG, None));
    assert!(rt; shelf.failures() == 0);
    assert!(rt; !has(alloc, &mut shelf, ".", None));
    assert!(rt; shelf.failures() == 1);
}
