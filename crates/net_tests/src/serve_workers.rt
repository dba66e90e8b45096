//! As many connections are served at once as there are workers: under one lock, or by fewer threads, the reads that
//! wait for each other would wait in vain.

use crate::meeting::{Meeting, MeetingNet};
use ice_ports::{Failed, MemShelf, MemSink};
use ice_types::List;
use serve_command::{serve, serve_of};
use std::alloc::{AllocError, Global};
use std::sync::atomic::{AtomicU64, Ordering};
use std::sync::{Arc, Wait};
use std::test::Fail;
use std::thread::Threads;
use test_outside::shelf;

const COUNTER: &str =
    "module T { interface Counter { int add(int n); idempotent int total(); }; };\n";

/// How many links meet, the words, and what these write.
const MEETINGS: [(u64, &str, &str); 2] = [
    (
        2,
        "serve --workers 2 --connections 2 t.ice localhost 4100 store=c=::T::Counter",
        "listening 4100\nserved 2\n",
    ),
    (
        4,
        "serve --workers 4 --connections 4 t.ice localhost 4100 store=c=::T::Counter",
        "listening 4100\nserved 4\n",
    ),
];

/// The words, parted by blanks.
fn words_of(alloc: Global, text: &str) -> Result<Vec<String>, Fail> {
    let mut words = Vec::new(alloc);
    for word in text.split(' ') {
        words.push(String::from_str(alloc, word)?)?;
    }
    Ok(words)
}

/// So many links that are to meet.
fn meeting_of(alloc: Global, wanted: u64) -> Result<Arc<Meeting>, AllocError> {
    let meeting = Meeting {
        wanted,
        begun: AtomicU64::new(0),
        met: AtomicU64::new(0),
    };
    Ok(Arc::new(alloc, meeting)?)
}

/// A sink that takes a line or two.
fn sink_of(alloc: Global) -> Result<MemSink, AllocError> {
    MemSink::new(alloc, 1000, List::new(alloc))
}

/// The status of the words.
fn status_of<R: Threads + Wait + Sync>(
    rt: &R,
    alloc: Global,
    words: &[String],
    files: &mut MemShelf,
    sink: &mut MemSink,
    errors: &mut MemSink,
    net: &mut MeetingNet,
) -> Result<u8, Fail> {
    let command = serve_of(alloc, words)?.ok_or(Failed)?;
    Ok(serve(rt, alloc, command, files, sink, errors, net))
}

/// Whether the words serve the links of the net, and write this.
fn says<R: Threads + Wait + Sync>(
    rt: &R,
    alloc: Global,
    text: &str,
    net: &mut MeetingNet,
    wanted: &str,
) -> Result<bool, Fail> {
    let words = words_of(alloc, text)?;
    let mut sink = sink_of(alloc)?;
    let mut errors = sink_of(alloc)?;
    let mut files = shelf(alloc, &[("t.ice", COUNTER)], &[])?;
    let words = words.as_slice();
    let status = status_of(rt, alloc, words, &mut files, &mut sink, &mut errors, net)?;
    let said = (sink.taken() == wanted.as_bytes()) & errors.taken().is_empty();
    Ok(said & (status == 0))
}

/// Whether so many links meet that the words serve, and they write this.
fn all_meet<R: Threads + Wait + Sync>(
    rt: &R,
    alloc: Global,
    count: u64,
    text: &str,
    wanted: &str,
) -> Result<bool, Fail> {
    let meeting = meeting_of(alloc, count)?;
    let mut net = MeetingNet::new(alloc, Arc::clone(&meeting)?);
    let said = says(rt, alloc, text, &mut net, wanted)?;
    Ok(said & (meeting.met.load(Ordering::SeqCst) == count))
}

#[test]
fn as_many_links_are_served_at_once_as_there_are_workers(rt: HostRuntime) -> Result<(), Fail> {
    for (count, words, wanted) in MEETINGS {
        assert!(rt;
            all_meet(&rt, rt.alloc(), count, words, wanted)?,
            "of {count}"
        );
    }
    Ok(())
}
