//! An encapsulation from a source.

ghost use Rattle.std.specs.Prelude.{◌≡◌, ◌≤◌, ℕ, List, Option, Some, length, drop, IfOk, OnOk, OnErr, vec_len};
ghost use Rattle.ice_types.specs.declared.kind.TypeRef.{TypeRef};
ghost use Rattle.ice_types.specs.Tables.{Tables};
ghost use Rattle.ice_ports.specs.Failures.{count_after};
ghost use Rattle.ice_ports.specs.Files.{is_failed};
ghost use Rattle.ice_relay.specs.Relaying.{held};
ghost use Rattle.ice_relay.specs.Comparing.{two_held};
ghost use Rattle.ice_relay.specs.Streams.{ReadsUpTo, TakesUpTo, ReadsInput, ReadsTwo, TakesFrugally, TakesTwoFrugally};
ghost use Rattle.ice_relay.specs.Streams.{ClaimsMore};

use ice_encoding::{LARGEST, SIZE_BYTES};
use ice_ports::{MOST_OF_A_READ, PortFault, Source};
use ice_prims::Cursor;
use std::alloc::Global;

/// The input up to one byte after the encapsulation that it claims, or to its end. Where the size
/// is refused by itself, no more than the size is read. What was read of a source that fails is
/// lost; that was no more either. (Ice manual, "Encapsulations".)
pub fn read_input<S: Source>(alloc: Global, source: &mut S) -> Result<Vec<u8>, PortFault>
    ensures read { IfOk result (λ got.
        ReadsInput (S.left source.old) (S.left source.new) got.items) }
    ensures taken { TakesFrugally (S.left source.old) (S.left source.new) }
    ensures count { S.failures source.new ≡ count_after (S.failures source.old) (is_failed result) }
{
    let mut input = Vec::new(alloc);
    read_up_to(source, &mut input, SIZE_BYTES)?;
    let Some(size) = claimed_bytes(input.as_slice()) else {
        return Ok(input);
    };
    read_up_to(source, &mut input, size + 1)?;
    Ok(input)
}

/// What is read of an input decides it: the graph that it holds, or its first fault.
pub fn reading_decides()
    ensures { (t : Tables) (kind : TypeRef) (input got : List ℕ) (left : Option (List ℕ))
        → ReadsInput (Some input) left got
        → held t kind got ≡ held t kind input }
{}

/// The input up to one byte after the second of two encapsulations that follow each other, each as long as
/// it claims to be, or to its end. Where a size is refused by itself, no more than that size is read.
/// What was read of a source that fails is lost; that was no more either.
/// (Ice manual, "Encapsulations".)
pub fn read_two<S: Source>(alloc: Global, source: &mut S) -> Result<Vec<u8>, PortFault>
    ensures read { IfOk result (λ got.
        ReadsTwo (S.left source.old) (S.left source.new) got.items) }
    ensures taken { TakesTwoFrugally (S.left source.old) (S.left source.new) }
    ensures count { S.failures source.new ≡ count_after (S.failures source.old) (is_failed result) }
{
    let mut input = Vec::new(alloc);
    read_up_to(source, &mut input, SIZE_BYTES)?;
    let Some(first) = claimed_bytes(input.as_slice()) else {
        return Ok(input);
    };
    read_up_to(source, &mut input, first + SIZE_BYTES)?;
    let Some(second) = claimed_bytes(behind(input.as_slice(), first)) else {
        return Ok(input);
    };
    read_up_to(source, &mut input, first + second + 1)?;
    Ok(input)
}

/// What is read of an input of two decides it: the graphs that it holds, or its first fault.
pub fn two_decided()
    ensures { (t : Tables) (kind : TypeRef) (input got : List ℕ) (left : Option (List ℕ))
        → ReadsTwo (Some input) left got
        → two_held t kind got ≡ two_held t kind input }
{}

/// The bytes behind so many, none where there are fewer.
fn behind(bytes: &[u8], count: usize) -> &[u8]
    ensures { result.now ≡ drop count bytes.now }
{
    bytes.get(count..).unwrap_or(&[])
}

/// How many bytes these claim, with those after them; None where they are fewer than a size has,
/// and where they claim no more than that, or more than an encapsulation has.
fn claimed_bytes(bytes: &[u8]) -> Option<usize>
    requires { length bytes.now ≤ SIZE_BYTES }
    ensures { ClaimsMore bytes.now result }
{
    match Cursor::new(bytes).take_int() {
        Ok(size) if size > SIZE_BYTES as i32 && size <= LARGEST as i32 => Some(size as usize),
        _ => None,
    }
}

/// Reads after the bytes that are there until there are so many in all, or until the input ends.
/// After a fault no more than that was taken.
pub fn read_up_to<S: Source>(
    source: &mut S,
    bytes: &mut Vec<u8>,
    goal: usize,
) -> Result<(), PortFault>
    requires { vec_len bytes.old ≤ goal }
    ensures read { OnOk result (ReadsUpTo goal
        (S.left source.old) (S.left source.new) bytes.old.items bytes.new.items) }
    ensures taken { OnErr result (TakesUpTo goal
        (S.left source.old) (S.left source.new) bytes.old.items) }
    ensures count { S.failures source.new ≡ count_after (S.failures source.old) (is_failed result) }
{
    let mut buffer = [0; MOST_OF_A_READ];
    while bytes.len() < goal {
        let most = (goal - bytes.len()).min(MOST_OF_A_READ);
        let piece = &mut buffer[..most];
        let count = source.read(piece)?;
        if count == 0 {
            return Ok(());
        }
        bytes.extend_from_slice(&piece[..count])?;
    }
    Ok(())
}
