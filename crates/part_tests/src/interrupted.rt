//! Calls of the system that are interrupted, which no case can bring about.
ghost use Rattle.std.specs.Prelude.{◌≤◌, IfOk};

use ice_ports::{Failed, read_once, write_once};
use std::io::{self, Error, ErrorKind, Read, Write};

/// Is interrupted twice, and then answers.
#[derive(Drop)]
struct Interrupted {
    times: u32,
    answer: Option<usize>,
}

impl Interrupted {
    fn answering(answer: Option<usize>) -> Interrupted {
        Interrupted { times: 2, answer }
    }

    fn outcome(&mut self, most: usize) -> io::Result<usize>
        ensures { IfOk result (λ n. n ≤ most) }
    {
        if self.times > 0 {
            self.times -= 1;
            return Err(Error::from(ErrorKind::Interrupted));
        }
        match self.answer {
            Some(count) => Ok(count.min(most)),
            None => Err(Error::from(ErrorKind::BrokenPipe)),
        }
    }
}

impl Read for Interrupted {
    fn read(&mut self, buf: &mut [u8]) -> io::Result<usize> {
        self.outcome(buf.len())
    }
}

impl Write for Interrupted {
    fn write(&mut self, buf: &[u8]) -> io::Result<usize> {
        self.outcome(buf.len())
    }

    fn flush(&mut self) -> io::Result<()> {
        Ok(())
    }
}

/// What the system answers at last, what a read comes to, and what a write of these bytes comes to.
type Calls = (
    Option<usize>,
    Result<usize, Failed>,
    &'static [u8],
    Result<usize, Failed>,
);

const CALLS: &[Calls] = &[
    (Some(2), Ok(2), b"abc", Ok(2)),
    (Some(0), Ok(0), b"abc", Err(Failed)),
    (Some(0), Ok(0), b"", Ok(0)),
    (None, Err(Failed), b"abc", Err(Failed)),
];

#[test]
fn only_what_was_interrupted_is_repeated(rt: HostRuntime) {
    for (answer, read, piece, written) in CALLS {
        assert!(rt; read_once(&mut Interrupted::answering(*answer), &mut [0; 4]) == *read);
        assert!(rt; write_once(&mut Interrupted::answering(*answer), piece) == *written);
    }
}
