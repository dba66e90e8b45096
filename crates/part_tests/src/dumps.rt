//! What fails while the messages of an input are told.

use ice_ports::{MemSink, MemSource};
use ice_types::List;
use message_dump::{Dump, dump_messages};
use std::alloc::{AllocError, Global};
use std::test::Fail;
use test_outside::{bytes, calls};

const VALIDATE: &[u8] = b"IceP\x01\0\x01\0\x03\0\x0e\0\0\0";

/// Which reads fail, how many bytes the sink takes, and then the end, what the sink took and how many writes failed.
type Row = (&'static [u64], u32, Dump, &'static [u8], u64);

/// A read that fails behind a message, and a sink that has room for a part of its line.
const ROWS: &[Row] = &[
    (&[1], 16, Dump::ReadFailed, b"validate\n", 0),
    (&[], 4, Dump::WriteFailed, b"vali", 1),
];

/// Whether a row comes so.
fn comes(alloc: Global, row: &Row) -> Result<bool, AllocError> {
    let (reads, room, end, told, failures) = row;
    let input = bytes(alloc, VALIDATE)?;
    let reads = calls(alloc, reads)?;
    let mut sink = MemSink::new(alloc, (*room).min(99), List::new(alloc))?;
    let mut source = MemSource::new(input, 14, reads);
    let ended = dump_messages(alloc, &mut source, &mut sink);
    Ok((ended == *end) & (sink.taken() == *told) & (sink.failures() == *failures))
}

#[test]
fn failures(rt: HostRuntime) -> Result<(), Fail> {
    for (at, row) in ROWS.iter().enumerate() {
        assert!(rt; comes(rt.alloc(), row)?, "in row {at}");
    }
    Ok(())
}
