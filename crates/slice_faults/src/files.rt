//! Files, one after the other.

ghost use Rattle.std.specs.Prelude.{◌≡◌, ◌+◌, ◌^◌, List, None, Some, Err, IfOk, OnErr, OnOk, IfSome};
ghost use Rattle.slice_syntax.specs.declared.tree.File.{File};
ghost use Rattle.slice_syntax.specs.Places.{AreRegular, Each};
ghost use Rattle.slice_meaning.specs.Known.{nothing_known};
ghost use Rattle.slice_meaning.specs.Meaning.{next_file, undefined};
ghost use Rattle.slice_meaning.specs.Checking.{at_end, checked, checked_from, earlier};
ghost use Rattle.slice_faults.specs.Held.{known_of};
ghost use Rattle.slice_faults.specs.Kept.{IsKept};
ghost use Rattle.slice_faults.specs.Answer.{IsAnswer, answer_of};

use crate::fault::CheckFault;
use crate::items::declare_all;
use crate::known::Known;
use crate::undefined::first_undefined;
use ice_types::Schema;
use slice_meaning::{CheckKind, Fault, Scopes};
use slice_syntax::File;
use std::alloc::{AllocError, Global};

/// What Slice files mean, each after those that it includes, or their first fault.
pub fn check(alloc: Global, files: &[File]) -> Result<Schema, CheckFault>
    requires { Each AreRegular files.now }
    ensures { IsAnswer files.now result }
{
    let mut known = nothing_known(alloc);
    let found = first_fault(alloc, &mut known, files)?;
    let Known { rows, .. } = known;
    answer(rows, found)
}

/// The schema, or the fault where one was found.
fn answer(schema: Schema, found: Option<(u32, Fault)>) -> Result<Schema, CheckFault>
    ensures { (files : List File) → checked files ≡ answer_of schema found → IsAnswer files result }
{
    match found {
        None => Ok(schema),
        Some(found) => Err(CheckFault::At {
            file: found.0,
            place: found.1.place,
            kind: found.1.kind,
        }),
    }
}

/// The first fault with its file, where no file is checked yet.
fn first_fault<'a>(
    alloc: Global,
    known: &mut Known<'a>,
    files: &'a [File],
) -> Result<Option<(u32, Fault)>, AllocError>
    requires regular { Each AreRegular files.now }
    requires kept { IsKept (known_of known.old) }
    ensures { IfOk result (λ found. checked_from (known_of known.old) files.now
        ≡ answer_of (known_of known.new).tables found) }
{
    match declare_files(alloc, known, files)? {
        Some(found) => Ok(Some(found)),
        None => Ok(never_defined(known)),
    }
}

/// The first class that is never defined, as a fault with its file.
fn never_defined(known: &Known) -> Option<(u32, Fault)>
    ensures { at_end (known_of known.now).tables (earlier None (undefined (known_of known.now)))
        ≡ answer_of (known_of known.now).tables result }
{
    match first_undefined(known) {
        Some((file, place)) => Some((
            file,
            Fault {
                place,
                kind: CheckKind::Undefined,
            },
        )),
        None => None,
    }
}

/// What is known before the first file.
fn nothing_known<'a>(alloc: Global) -> Known<'a>
    ensures { known_of result ≡ nothing_known }
{
    Known {
        file: 0,
        scope: 0,
        names: Scopes::new(alloc),
        rows: Schema::new(alloc),
        enumerators: Vec::new(alloc),
    }
}

/// Declares what each file declares, or answers the first fault with its file.
fn declare_files<'a>(
    alloc: Global,
    known: &mut Known<'a>,
    files: &'a [File],
) -> Result<Option<(u32, Fault)>, AllocError>
    requires regular { Each AreRegular files.now }
    requires kept { IsKept (known_of known.old) }
    ensures fault { IfOk result (λ found. IfSome found (λ fault. checked_from (known_of known.old) files.now
        ≡ Err fault)) }
    ensures none { IfOk result (λ found. found ≡ None
        → checked_from (known_of known.old) files.now
        ≡ at_end (known_of known.new).tables (earlier None (undefined (known_of known.new)))) }
{
    for file in files {
        let at = known.file;
        if let Some(fault) = declare_all(alloc, known, file.items.as_slice())? {
            return Ok(Some((at, fault)));
        }
        next_file(known)?;
    }
    Ok(None)
}

/// Goes on to the next file, at the outermost scope.
fn next_file(known: &mut Known) -> Result<(), AllocError>
    ensures { OnOk result (known_of known.new ≡ next_file (known_of known.old)) }
{
    known.file = next_number(known.file)?;
    known.scope = 0;
    Ok(())
}

/// One more, or want of memory exactly where there are so many files that none can have a number.
fn next_number(file: u32) -> Result<u32, AllocError>
    ensures ok { IfOk result (λ next. next ≡ file + 1) }
    ensures full { OnErr result (file + 1 ≡ 2 ^ 32) }
{
    if file < u32::MAX {
        Ok(file + 1)
    } else {
        Err(AllocError)
    }
}
