//! Standard input, output and error, by calls of the system with no buffer between.
ghost use Rattle.std.specs.Prelude.{◌≡◌, ◌<◌, length, IfOk, is_err};
ghost use Rattle.std.specs.Io.{ReadsAtMost, WritesAtMost};
ghost use Rattle.std.specs.Io.KnownBytes.{ReadConsumes, WriteAppends};
ghost use Rattle.ice_ports.specs.Failures.{count_after};

use super::ports::{Failed, Sink, Source};
use std::io::{ErrorKind, Read, Write};
use std::marker::Model;
use std::rt::{HostRuntime, Stderr, Stdin, Stdout};

/// Standard input. A read of the system goes straight into the slice. Contracts see the reader,
/// which tells no bytes where it is the system's, and how many reads failed.
#[derive(Drop)]
pub struct StdSource<R> {
    input: R,
    failures: u64,
}

impl<R> Model for StdSource<R> {
    ghost use Rattle.ice_ports.specs.Streams.{Counted};

    ghost Value = { Counted R };

    ghost view = { λ s. record { stream = s.input; failures = s.failures } };
}

impl StdSource<Stdin> {
    /// The standard input of the program.
    pub fn input(rt: &HostRuntime) -> StdSource<Stdin>
        ensures { result.failures ≡ 0 }
    {
        StdSource {
            input: rt.stdin(),
            failures: 0,
        }
    }
}

impl<R> StdSource<R> {
    /// How many reads failed, as far as u64 counts.
    pub fn failures(&self) -> u64
        ensures { result ≡ self.now.failures }
    {
        self.failures
    }
}

impl<R: Read> Source for StdSource<R> {
    ghost left = { λ s. R.remaining s.stream };

    ghost failures = { λ s. s.failures };

    fn read(&mut self, into: &mut [u8]) -> Result<usize, Failed>
        ensures bound { ReadsAtMost result into.new }
        ensures bytes { ReadConsumes
            (R.remaining self.old.stream) (R.remaining self.new.stream) result into.new }
        ensures count { self.new.failures ≡ count_after self.old.failures (is_err result) }
    {
        let result = read_once(&mut self.input, into);
        if result.is_err() {
            self.failures = self.failures.saturating_add(1);
        }
        result
    }
}

/// Standard output or standard error. A write is one of the system, and keeps no bytes back.
/// Contracts see the writer, which tells no bytes where it is the system's, and how many writes
/// failed.
#[derive(Drop)]
pub struct StdSink<W> {
    output: W,
    failures: u64,
}

impl<W> Model for StdSink<W> {
    ghost use Rattle.ice_ports.specs.Streams.{Counted};

    ghost Value = { Counted W };

    ghost view = { λ s. record { stream = s.output; failures = s.failures } };
}

impl StdSink<Stdout> {
    /// The standard output of the program.
    pub fn output(rt: &HostRuntime) -> StdSink<Stdout>
        ensures { result.failures ≡ 0 }
    {
        StdSink {
            output: rt.stdout(),
            failures: 0,
        }
    }
}

impl StdSink<Stderr> {
    /// The standard error of the program.
    pub fn error(rt: &HostRuntime) -> StdSink<Stderr>
        ensures { result.failures ≡ 0 }
    {
        StdSink {
            output: rt.stderr(),
            failures: 0,
        }
    }
}

impl<W> StdSink<W> {
    /// How many writes failed, as far as u64 counts.
    pub fn failures(&self) -> u64
        ensures { result ≡ self.now.failures }
    {
        self.failures
    }
}

impl<W: Write> Sink for StdSink<W> {
    ghost taken = { λ s. W.contents s.stream };

    ghost failures = { λ s. s.failures };

    fn write(&mut self, piece: &[u8]) -> Result<usize, Failed>
        ensures bound { WritesAtMost result piece.now }
        ensures bytes { WriteAppends
            (W.contents self.old.stream) (W.contents self.new.stream) result piece.now }
        ensures progress { IfOk result (λ n. 0 < length piece.now → 0 < n) }
        ensures count { self.new.failures ≡ count_after self.old.failures (is_err result) }
    {
        let result = write_once(&mut self.output, piece);
        if result.is_err() {
            self.failures = self.failures.saturating_add(1);
        }
        result
    }
}

/// One read, repeated only where the system interrupted it. `Failed` where it fails in any other way, and then the
/// reader gave nothing.
pub fn read_once<R: Read>(reader: &mut R, into: &mut [u8]) -> Result<usize, Failed>
    ensures bound { ReadsAtMost result into.new }
    ensures bytes { ReadConsumes (R.remaining reader.old) (R.remaining reader.new) result into.new }
{
    for _ in 0..u64::MAX {
        match reader.read(into) {
            Ok(count) => return Ok(count),
            Err(error) => {
                if error.kind() != ErrorKind::Interrupted {
                    return Err(Failed);
                }
            }
        }
    }
    Err(Failed)
}

/// One write, repeated only where the system interrupted it. `Failed` where it fails in any other way or takes nothing
/// of a piece that has bytes, and then the writer took nothing.
pub fn write_once<W: Write>(writer: &mut W, piece: &[u8]) -> Result<usize, Failed>
    ensures bound { WritesAtMost result piece.now }
    ensures bytes { WriteAppends (W.contents writer.old) (W.contents writer.new) result piece.now }
    ensures progress { IfOk result (λ n. 0 < length piece.now → 0 < n) }
{
    for _ in 0..u64::MAX {
        match writer.write(piece) {
            Ok(0) if !piece.is_empty() => return Err(Failed),
            Ok(count) => return Ok(count),
            Err(error) => {
                if error.kind() != ErrorKind::Interrupted {
                    return Err(Failed);
                }
            }
        }
    }
    Err(Failed)
}
