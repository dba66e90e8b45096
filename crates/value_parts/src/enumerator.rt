//! Numbers of enumerators.

ghost use Rattle.std.specs.Prelude.{◌≡◌, ◌≤◌, ◌↔◌, IsTrue, length};
ghost use Rattle.ice_encoding.specs.Enum.{HasNumber, has_number};

use ice_types::Entry;

/// Whether one of the entries has the number.
pub fn has_number(entries: &[Entry], number: u32) -> bool
    ensures value { result ≡ has_number entries.now number }
    ensures told { IsTrue result ↔ HasNumber entries.now number }
{
    if let Some(entry) = entries.get(likely_place(entries, number))
        && entry.number == number
    {
        return true;
    }
    entries.iter().any(|entry| entry.number == number)
}

/// Where the entry with the number stands, if numbers rise from entry to entry: the place of the number where none is
/// left out, else one that is found by halving. Where they do not rise, whoever asks has to look at all.
pub fn likely_place(entries: &[Entry], number: u32) -> usize
    ensures { result ≤ length entries.now }
{
    let place = number as usize;
    if let Some(entry) = entries.get(place)
        && entry.number == number
    {
        return place;
    }
    entries.partition_point(|entry| entry.number < number)
}
