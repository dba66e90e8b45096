//! `node` over an outside in memory: a call of each command and refusal, and what comes of each
//! failure. What comes of other words, texts and inputs, the cases show.

use case_tables::{BrokenRow, BrokenTable, broken_messages, broken_values};
use ice_node::node;
use ice_ports::{MemNet, MemShelf, MemSink, MemSource};
use ice_types::List;
use std::alloc::{AllocError, Global};
use std::sync::Wait;
use std::test::Fail;
use std::thread::Threads;
use test_outside::{bytes, calls, shelf};

/// The shelf: each file's name and text.
const FILES: &[(&str, &str)] = &[
    (
        "s.ice",
        "#include \"t.ice\"\nmodule M { sequence<T::Small> Q; sequence<Q> Qs; };",
    ),
    ("t.ice", "module T { sequence<byte> Small; };"),
    ("u.ice", "module M { class C; sequence<C> Q; };"),
    ("n.ice", "module M { class N { int v; N next; }; };"),
];

/// The words of a call, and the status, output and line that are wanted.
type Call = (&'static [&'static str], u8, &'static str, &'static str);

/// One call of each status; what comes of other words, texts and inputs, the cases show.
const CALLS: &[Call] = &[
    (
        &["check", "s.ice"],
        0,
        "ok: 3 types, 0 classes, 0 exceptions, 0 interfaces\n",
        "",
    ),
    (&["check", "u.ice"], 3, "", "ice: u.ice:17: Undefined\n"),
    (
        &["relay", "s.ice", "::M::Zed"],
        2,
        "",
        "ice: no such name ::M::Zed\n",
    ),
    (&["relay", "s.ice"], 2, "", "ice: usage\n"),
    (
        &["dump", "s.ice", "int"],
        4,
        "",
        "ice: input refused at 6: Short\n",
    ),
];

const INPUT: &[u8] = &[9, 0, 0, 0, 1, 1, 2, 7, 8];

/// Two inputs, one after the other.
const TWO: &[u8] = &[9, 0, 0, 0, 1, 1, 2, 7, 8, 9, 0, 0, 0, 1, 1, 2, 7, 8];

const TEXT: &[u8] = b"{\"instances\":[],\"roots\":{\"$value\":[7,8]}}";

/// A message that is a header alone.
const MESSAGE: &[u8] = b"IceP\x01\x00\x01\x00\x03\x00\x0e\x00\x00\x00";

/// An instance of `::M::N` that is its own next one.
const RING: &[u8] = b"\x1A\0\0\0\x01\x01\x01\x39\x06::M::N\x09\0\0\0\x07\0\0\0\x01\x01\x02";

/// A request of `ice_ping`.
const PING: &[u8] =
    b"IceP\x01\0\x01\0\0\0\x2B\0\0\0\x01\0\0\0\x05hello\0\0\x08ice_ping\x01\0\x06\0\0\0\x01\x01";

const RELAY: &[&str] = &["relay", "s.ice", "::T::Small"];

const READ: &str = "ice: read failed\n";

const WRITE: &str = "ice: write failed\n";

/// How the outside is: how many bytes a read gives at most; which loads, reads and writes fail,
/// counted from 0; how many bytes the sink and the sink of errors take.
type Outside = (
    u32,
    &'static [u64],
    &'static [u64],
    &'static [u64],
    u32,
    u32,
);

const WELL: Outside = (4096, &[], &[], &[], 99, 99);

/// The outside of a relay of nine bytes, and the status, output and line that are wanted.
type Run = (Outside, u8, &'static [u8], &'static str);

/// The file and the one that it includes are two loads. Nine bytes in pieces of one byte are ten
/// reads, the last of which finds the end.
const RUNS: &[Run] = &[
    ((1, &[], &[], &[], 99, 99), 0, INPUT, ""),
    ((4096, &[2], &[], &[1], 99, 0), 0, INPUT, ""),
    ((4096, &[0], &[], &[], 99, 99), 5, b"", READ),
    ((4096, &[1], &[], &[], 99, 99), 5, b"", READ),
    ((4096, &[], &[1], &[], 99, 99), 5, b"", READ),
    ((1, &[], &[0], &[], 99, 99), 5, b"", READ),
    ((1, &[], &[4], &[], 99, 99), 5, b"", READ),
    ((1, &[], &[9], &[], 99, 3), 5, b"", "ice"),
    ((1, &[], &[10], &[], 99, 99), 0, INPUT, ""),
    ((1, &[], &[], &[0], 99, 99), 6, b"", WRITE),
    ((1, &[], &[], &[], 3, 99), 6, &[9, 0, 0], WRITE),
    ((1, &[], &[], &[], 0, 0), 6, b"", ""),
];

/// The words of a call, its input, the first read past the one that finds the end, and the output that is wanted.
type End = (
    &'static [&'static str],
    &'static [u8],
    &'static [u64],
    &'static [u8],
);

/// Inputs that are read a byte at a time.
const ENDS: &[End] = &[
    (
        &["dump", "s.ice", "::T::Small"],
        INPUT,
        &[10],
        b"{\"instances\":[],\"roots\":{\"$value\":[7,8]}}\n",
    ),
    (&["same", "s.ice", "::T::Small"], TWO, &[19], b"same\n"),
    (&["encode", "s.ice", "::T::Small"], TEXT, &[42], INPUT),
    (&["messages"], MESSAGE, &[15], b"validate\n"),
];

fn word(alloc: Global, text: &str) -> Result<String, AllocError> {
    String::from_str(alloc, text)
}

fn words_of(alloc: Global, texts: &[&str]) -> Result<List<String>, AllocError> {
    let mut words = List::new(alloc);
    for text in texts {
        words.push(word(alloc, text)?)?;
    }
    Ok(words)
}

/// The input, with the reads that fail.
fn source_of(alloc: Global, input: &[u8], outside: &Outside) -> Result<MemSource, AllocError> {
    let input = bytes(alloc, input)?;
    let reads = calls(alloc, outside.2)?;
    Ok(MemSource::new(input, outside.0.max(1), reads))
}

/// A sink of so many bytes, with the writes that fail.
fn sink_of(alloc: Global, room: u32, writes: &[u64]) -> Result<MemSink, AllocError> {
    MemSink::new(alloc, room.min(99), calls(alloc, writes)?)
}

/// A net without links.
fn net_of(alloc: Global) -> Result<MemNet, AllocError> {
    MemNet::new(
        alloc,
        List::new(alloc),
        List::new(alloc),
        List::new(alloc),
        true,
    )
}

/// The status of the call, with this shelf and these streams.
fn status_of<R: Threads + Wait + Sync>(
    rt: &R,
    alloc: Global,
    words: &[String],
    shelf: &mut MemShelf,
    source: &mut MemSource,
    sink: &mut MemSink,
    errors: &mut MemSink,
) -> Result<u8, AllocError> {
    let mut net = net_of(alloc)?;
    Ok(node(rt, alloc, words, shelf, source, sink, errors, &mut net))
}

/// The same, with a shelf of the files, and this input.
fn ends_with<R: Threads + Wait + Sync>(
    rt: &R,
    alloc: Global,
    words: &[&str],
    input: &[u8],
    outside: &Outside,
    sink: &mut MemSink,
    errors: &mut MemSink,
) -> Result<u8, AllocError> {
    let words = words_of(alloc, words)?;
    let mut shelf = shelf(alloc, FILES, outside.1)?;
    let mut source = source_of(alloc, input, outside)?;
    status_of(
        rt,
        alloc,
        words.as_slice(),
        &mut shelf,
        &mut source,
        sink,
        errors,
    )
}

/// Whether the call comes to the status, output and line.
fn comes<R: Threads + Wait + Sync>(
    rt: &R,
    alloc: Global,
    words: &[&str],
    input: &[u8],
    outside: &Outside,
    status: u8,
    output: &[u8],
    line: &str,
) -> Result<bool, AllocError> {
    let mut sink = sink_of(alloc, outside.4, outside.3)?;
    let mut errors = sink_of(alloc, outside.5, &[])?;
    let ended = ends_with(rt, alloc, words, input, outside, &mut sink, &mut errors)?;
    Ok((ended == status) & (sink.taken() == output) & (errors.taken() == line.as_bytes()))
}

#[test]
fn each_answer_has_its_status_and_line(rt: HostRuntime) -> Result<(), Fail> {
    for (at, (words, status, output, line)) in CALLS.iter().enumerate() {
        let output = output.as_bytes();
        assert!(rt;
            comes(&rt, rt.alloc(), words, INPUT, &WELL, *status, output, line)?,
            "in call {at}"
        );
    }
    Ok(())
}

#[test]
fn each_failure_has_its_status(rt: HostRuntime) -> Result<(), Fail> {
    for (at, (outside, status, output, line)) in RUNS.iter().enumerate() {
        assert!(rt;
            comes(
                &rt,
                rt.alloc(),
                RELAY,
                INPUT,
                outside,
                *status,
                output,
                line
            )?,
            "in run {at}"
        );
    }
    Ok(())
}

#[test]
fn an_input_that_has_ended_is_not_read_again(rt: HostRuntime) -> Result<(), Fail> {
    for (at, (words, input, reads, output)) in ENDS.iter().enumerate() {
        let outside: Outside = (1, &[], *reads, &[], 99, 99);
        assert!(rt;
            comes(&rt, rt.alloc(), words, input, &outside, 0, output, "")?,
            "in call {at}"
        );
    }
    Ok(())
}

/// Whether the input with this byte is refused as the row says.
fn is_refused<R: Threads + Wait + Sync>(
    rt: &R,
    alloc: Global,
    words: &[&str],
    input: &[u8],
    row: &BrokenRow,
) -> Result<bool, AllocError> {
    let mut broken = Vec::from_slice(alloc, input)?;
    if let Some(byte) = broken.get_mut(row.at as usize) {
        *byte = row.byte;
    }
    let line = format!(in alloc; "ice: input refused at {}: {}\n", row.place, row.kind)?;
    comes(
        rt,
        alloc,
        words,
        broken.as_slice(),
        &WELL,
        4,
        b"",
        line.as_str(),
    )
}

/// The name of the first row whose input is not refused as it says.
fn first_taken<R: Threads + Wait + Sync, const N: usize>(
    rt: &R,
    alloc: Global,
    words: &[&str],
    input: &[u8],
    table: &BrokenTable<N>,
) -> Result<Option<&'static str>, AllocError> {
    for at in 0..N {
        let Some(row) = table.get(at) else {
            return Ok(Some("no row"));
        };
        if !is_refused(rt, alloc, words, input, row)? {
            return Ok(Some(row.name));
        }
    }
    Ok(None)
}

#[test]
fn a_byte_that_breaks_a_value_is_told(rt: HostRuntime) -> Result<(), Fail> {
    let (words, table): (&[&str], _) = (&["relay", "n.ice", "::M::N"], broken_values());
    assert!(rt;
        comes(&rt, rt.alloc(), words, RING, &WELL, 0, RING, "")?,
        "as it stands"
    );
    assert_eq!(rt; first_taken(&rt, rt.alloc(), words, RING, &table)?, None);
    Ok(())
}

#[test]
fn a_byte_that_breaks_a_message_is_told(rt: HostRuntime) -> Result<(), Fail> {
    let (words, table): (&[&str], _) = (&["messages"], broken_messages());
    let told = b"request 1 \"hello\" \"\" \"ice_ping\" 1 0 6\n";
    assert!(rt;
        comes(&rt, rt.alloc(), words, PING, &WELL, 0, told, "")?,
        "as it stands"
    );
    assert_eq!(rt; first_taken(&rt, rt.alloc(), words, PING, &table)?, None);
    Ok(())
}
