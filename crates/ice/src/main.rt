//! The program: makes the real outside, and does what the words ask for.
#![tactic(auto)]

use ice_audit::MOST_BYTES;
use ice_node::{Outcome, node, report};
use ice_ports::{FolderShelf, StdSink, StdSource, TcpNet};
use std::alloc::AllocError;
use std::io::ErrorKind;
use std::process::ExitCode;
use std::{env, io};

/// One byte more than each end of a capture may have sent, which is more than a Slice text may have: a file that has
/// so many is refused, and no more of it is read.
const MOST_OF_A_FILE: u64 = MOST_BYTES as u64 + 1;

/// The words after the program's name. Words that are not UTF-8 are none of the listed forms, and
/// so are no words at all.
fn words(rt: &HostRuntime) -> Result<Vec<String>, AllocError> {
    match env::args(rt) {
        Ok(mut args) => {
            args.next();
            args.collect(rt.alloc())
        }
        Err(error) if error.kind() == ErrorKind::InvalidData => Ok(Vec::new(rt.alloc())),
        Err(_) => Err(AllocError),
    }
}

fn main(rt: HostRuntime) -> io::Result<ExitCode> {
    let mut errors = StdSink::error(&rt);
    let Ok(words) = words(&rt) else {
        return Ok(ExitCode::from(report(Outcome::Memory, &mut errors)));
    };
    let mut source = StdSource::input(&rt);
    let mut sink = StdSink::output(&rt);
    let alloc = rt.alloc();
    let mut net = TcpNet::new(&rt);
    let mut shelf = FolderShelf::new(&rt, MOST_OF_A_FILE);
    let status = node(
        &rt,
        alloc,
        words.as_slice(),
        &mut shelf,
        &mut source,
        &mut sink,
        &mut errors,
        &mut net,
    );
    Ok(ExitCode::from(status))
}
