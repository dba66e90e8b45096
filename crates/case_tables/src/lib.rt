//! Named codes: a table gives each of its names a code, which counts the rows from 0. And tables of bytes that break
//! an input, for tests.
//!
//! Forms, and why they are so:
//!
//! - `CaseTable` has no model and holds `&'static [&'static str]`, with its length tied to N by a ghost field:
//!   an array of references in a generic struct, and a model there, are not covered.
#![tactic(auto)]

ghost use Rattle.std.specs.Prelude.{◌≡◌, ◌≤◌, IsTrue, length};
ghost use Rattle.std.specs.List.{position};
ghost use Rattle.std.specs.Str.{bytes_eq};
ghost use Rattle.case_tables.specs.Tables.{names_seen, are_distinct};

/// A table of the names in this order.
macro_rules! case_table {
    ($($name:literal),* $(,)?) => {
        CaseTable { names: &[$($name),*] }
    };
}

mod broken;
mod broken_inputs;
mod flags;
mod protocol_words;
mod slice_words;

pub use broken::{BrokenRow, BrokenTable};
pub use broken_inputs::{broken_messages, broken_values, rows_apart};
pub use flags::flags_valid;
pub use protocol_words::{formats, message_types, operation_modes, proxy_modes, reply_statuses};
pub use slice_words::{codes_apart, keywords, symbols};

/// Names in the order of their codes, no two of which are equal, and at most 256.
#[derive(Clone, Copy)]
pub struct CaseTable<const N: usize> {
    names: &'static [&'static str],
    pub ghost distinct: { IsTrue (are_distinct (names_seen names.now)) },
    pub ghost count: { length (names_seen names.now) ≡ N },
    pub ghost few: { N ≤ 256 },
}

impl<const N: usize> CaseTable<N> {
    ghost use Rattle.std.specs.Prelude.{◌≡◌, ◌≤◌, MatchOption, length};
    ghost use Rattle.std.specs.List.{position};
    ghost use Rattle.std.specs.Str.{bytes_eq};
    ghost use Rattle.case_tables.specs.Rows.{HasNoRow, HasRow, names_of};

    /// The code of the name, None where no row has it.
    pub fn code_of(&self, name: &str) -> Option<u8>
        ensures row { MatchOption result (HasNoRow self.now name.now) (λ code. HasRow self.now code name.now) }
        ensures place { result ≡ position (bytes_eq name.now) (names_of self.now) }
    {
        match place_of(self.names, name) {
            Some(place) => Some(place as u8),
            None => None,
        }
    }

    /// The name of the code, None where no row has it.
    pub fn name_of(&self, code: u8) -> Option<&'static str>
        ensures { MatchOption result (length (names_of self.now) ≤ code) (λ name. HasRow self.now code name.now) }
    {
        self.names.get(usize::from(code)).copied()
    }
}

/// The place of the first of the names that is this one.
fn place_of(names: &[&str], name: &str) -> Option<usize>
    ensures { result ≡ position (λ other. bytes_eq name.now other.now) names.now }
{
    names.iter().position(|other| name == *other)
}
