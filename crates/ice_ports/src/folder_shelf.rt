//! The files of the system as a shelf.
ghost use Rattle.std.specs.Prelude.{◌≡◌, ◌↔◌, None, IfOk, IfErr, IfSome, IsTrue, take};
ghost use Rattle.std.specs.IoError.{error_kind};
ghost use Rattle.ice_ports.specs.Failures.{count_after};
ghost use Rattle.ice_ports.specs.Files.{Finds, IsMissing, IsNotOpened, IsPrefix, is_failed};

use super::ports::{PortFault, Shelf};
use ice_types::{Bytes, List};
use std::alloc::Global;
use std::fs::File;
use std::io::{self, Error, ErrorKind, Read};
use std::marker::Model;
use std::rt::Files;

/// Files by their paths, as the system takes them, from the folder that the program runs in.
/// A path that names no file, or that none can have, is not there; a folder, or a file that cannot
/// be read, is a failure. Contracts see the limit and how many loads failed.
#[derive(Drop)]
pub struct FolderShelf<R> {
    files: R,
    most: u64,
    failures: u64,
}

impl<R> Model for FolderShelf<R> {
    ghost use Rattle.ice_ports.specs.Streams.{Disk};

    ghost Value = { Disk };

    ghost view = { λ s. record { most = s.most; failures = s.failures } };
}

impl<R: Files> FolderShelf<R> {
    /// The files of this runtime. No more than `most` bytes of a file are read: a longer one is
    /// cut there.
    pub fn new(files: R, most: u64) -> FolderShelf<R>
        ensures { result ≡ record { most = most; failures = 0 } }
    {
        FolderShelf {
            files,
            most,
            failures: 0,
        }
    }

    /// How many loads failed, as far as u64 counts.
    pub fn failures(&self) -> u64
        ensures { result ≡ self.now.failures }
    {
        self.failures
    }
}

impl<R: Files> Shelf for FolderShelf<R> {
    ghost files = { λ _. None };

    ghost failures = { λ s. s.failures };

    fn load(&mut self, alloc: Global, name: &str) -> Result<Option<Bytes>, PortFault>
        ensures found { Finds None name.now result }
        ensures limit { self.new.most ≡ self.old.most }
        ensures count { self.new.failures ≡ count_after self.old.failures (is_failed result) }
    {
        let result = prefix_of(alloc, File::open(&self.files, name), self.most);
        if matches!(result, Err(PortFault::Failed)) {
            self.failures = self.failures.saturating_add(1);
        }
        result
    }
}

/// So many bytes of a file that was opened, or all of it. None where there is no such file.
fn prefix_of<F: Read + Drop>(
    alloc: Global,
    opened: io::Result<F>,
    most: u64,
) -> Result<Option<Bytes>, PortFault>
    ensures opened { IfOk opened (λ file. IsPrefix (F.remaining file) most result) }
    ensures unopened { IfErr opened (λ error. IsNotOpened (error_kind error) result) }
{
    let file = match opened {
        Ok(file) => file,
        Err(error) if is_missing(&error) => return Ok(None),
        Err(error) => return Err(fault_of(&error)),
    };
    Ok(Some(read_prefix(alloc, file, most)?))
}

/// So many bytes of what is left of an open file, or all of it.
fn read_prefix<F: Read + Drop>(alloc: Global, file: F, most: u64) -> Result<Bytes, PortFault>
    ensures { IfOk result (λ content.
        IfSome (F.remaining file) (λ known. content ≡ take most known)) }
{
    let mut bytes = Vec::new(alloc);
    match file.take(most).read_to_end(&mut bytes) {
        Ok(_) => Ok(List::from_vec(bytes)),
        Err(error) => Err(fault_of(&error)),
    }
}

/// Whether a path that cannot be opened names no file, or is one that none can have.
fn is_missing(error: &Error) -> bool
    ensures { IsTrue result ↔ IsMissing (error_kind error.now) }
{
    matches!(
        error.kind(),
        ErrorKind::NotFound
            | ErrorKind::NotADirectory
            | ErrorKind::InvalidFilename
            | ErrorKind::InvalidInput
    )
}

fn fault_of(error: &Error) -> PortFault
    ensures { result ≡ PortFault.Memory ↔ error_kind error.now ≡ ErrorKind.OutOfMemory }
{
    match error.kind() {
        ErrorKind::OutOfMemory => PortFault::Memory,
        _ => PortFault::Failed,
    }
}
