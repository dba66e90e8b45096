//! What the program's work came to.

ghost use Rattle.std.specs.Prelude.{◌≡◌, ◌++◌, ℕ, List, codes};
ghost use Rattle.std.specs.List.{flat_map};
ghost use Rattle.ice_prims.specs.Kinds.{kind_name};
ghost use Rattle.graph_json.specs.Texts.{kind_name as json_kind_name};
ghost use Rattle.node_commands.specs.Answers.{status, error_line};
ghost use Rattle.node_commands.specs.Outcomes.{answer_of};

use graph_json::JsonKind;
use ice_ports::PortFault;
use ice_prims::{Fault, Kind, ReadFault};
use ice_proxy::TextFault;
use ice_relay::{DrillFault, DumpFault, RelayFault};
use ice_types::Name;
use itoa::Buffer;
use message_dump::Dump;
use slice_check::LoadFault;
use std::alloc::AllocError;

/// What the program's work came to.
#[derive(Drop)]
pub enum Outcome<'a> {
    /// The answer was written.
    Done,
    /// The answer was written, and it is no.
    Different,
    /// The words are none of the listed forms.
    Usage,
    /// The word names no type, or no file.
    NoSuchName(&'a str),
    /// The Slice file, or one that it includes, has this fault: the file by its name on the shelf,
    /// the place of the fault in its text, and the name of its kind.
    SliceRefused { file: Name, place: u32, kind: Name },
    /// The input is no encapsulation of a value of the type: its first fault.
    InputRefused(Fault),
    /// The text is the notation of no graph of the type, or is not read, for this reason.
    JsonRefused(JsonKind),
    /// An instance has an unknown slice, which compact format cannot carry.
    NeedsSliced,
    /// The bytes to be written are so many, which is more than the limit.
    TooLong(u64),
    /// The text is that of no proxy: the place of the first word that cannot stand.
    TextRefused(u32),
    /// A read of a file or of the input failed.
    ReadFailed,
    /// A write of the answer failed.
    WriteFailed,
    /// Out of memory.
    Memory,
    /// Messages of the input were told, and this fault follows them.
    RefusedAfter(Fault),
    /// Messages of the input were told, and then a read of it failed.
    ReadFailedAfter,
    /// The beginning of the answer was written, and then memory ran out.
    MemoryAfter,
}

/// A line in pieces, so that it takes no memory.
pub type Line<'a> = [&'a str; 7];

impl<'a> Outcome<'a> {
    /// The status that the program ends with.
    pub fn status(&self) -> u8
        ensures { (bytes : List ℕ) → result ≡ status (answer_of self.now bytes) }
    {
        match self {
            Outcome::Done => 0,
            Outcome::Different => 1,
            Outcome::Usage | Outcome::NoSuchName(_) => 2,
            Outcome::SliceRefused { .. } => 3,
            Outcome::InputRefused(_)
            | Outcome::JsonRefused(_)
            | Outcome::NeedsSliced
            | Outcome::TooLong(_)
            | Outcome::TextRefused(_)
            | Outcome::RefusedAfter(_) => 4,
            Outcome::ReadFailed | Outcome::ReadFailedAfter => 5,
            Outcome::WriteFailed => 6,
            Outcome::Memory | Outcome::MemoryAfter => 9,
        }
    }

    /// The line on the sink of errors. The digits of a place are put into the buffer.
    pub fn line(&'a self, digits: &'a mut Buffer) -> Line<'a>
        ensures { (bytes : List ℕ)
            → flat_map (λ piece. piece.now) result ≡ error_line (answer_of self.now bytes) }
    {
        match self {
            Outcome::Done | Outcome::Different => one(""),
            Outcome::Usage => one("ice: usage\n"),
            Outcome::NoSuchName(word) => of_word("ice: no such name ", word),
            Outcome::SliceRefused { file, place, kind } => {
                let place = digits.format(*place);
                [
                    "ice: ",
                    file.as_str(),
                    ":",
                    place,
                    ": ",
                    kind.as_str(),
                    "\n",
                ]
            }
            Outcome::InputRefused(fault) | Outcome::RefusedAfter(fault) => {
                let place = digits.format(fault.place);
                let kind = word_of(fault.kind);
                ["ice: input refused at ", place, ": ", kind, "\n", "", ""]
            }
            Outcome::JsonRefused(why) => of_word("ice: text refused: ", reason_of(*why)),
            Outcome::NeedsSliced => one("ice: kept slice needs sliced format\n"),
            Outcome::TooLong(length) => {
                let length = digits.format(*length);
                ["ice: answer too long: ", length, "\n", "", "", "", ""]
            }
            Outcome::TextRefused(place) => {
                let place = digits.format(*place);
                ["ice: text refused at ", place, "\n", "", "", "", ""]
            }
            Outcome::ReadFailed | Outcome::ReadFailedAfter => one("ice: read failed\n"),
            Outcome::WriteFailed => one("ice: write failed\n"),
            Outcome::Memory | Outcome::MemoryAfter => one("ice: no memory\n"),
        }
    }
}

/// A line of one piece.
fn one(line: &str) -> Line<'_>
    ensures { flat_map (λ piece. piece.now) result ≡ line.now }
{
    [line, "", "", "", "", "", ""]
}

/// A line that ends with a word.
fn of_word<'a>(why: &'a str, word: &'a str) -> Line<'a>
    ensures { flat_map (λ piece. piece.now) result ≡ why.now ++ (word.now ++ codes "\n") }
{
    [why, word, "\n", "", "", "", ""]
}

/// The kind's word, for a line.
fn word_of<'a>(kind: Kind) -> &'a str
    ensures { result.now ≡ kind_name kind }
{
    kind.name()
}

/// The reason's word, for a line.
fn reason_of<'a>(why: JsonKind) -> &'a str
    ensures { result.now ≡ json_kind_name why }
{
    why.name()
}

impl From<PortFault> for Outcome<'_> {
    ghost use Rattle.std.specs.Prelude.{◌≡◌};
    ghost use Rattle.node_commands.specs.Outcomes.{of_port};

    ghost from_gives = { λ fault outcome. outcome ≡ of_port fault };

    fn from(fault: PortFault) -> Self {
        match fault {
            PortFault::Failed => Outcome::ReadFailed,
            PortFault::Memory => Outcome::Memory,
        }
    }
}

impl From<LoadFault> for Outcome<'_> {
    ghost use Rattle.std.specs.Prelude.{◌≡◌};
    ghost use Rattle.node_commands.specs.Outcomes.{of_load};

    ghost from_gives = { λ fault outcome. outcome ≡ of_load fault };

    fn from(fault: LoadFault) -> Self {
        match fault {
            LoadFault::Text { file, place, kind } => Outcome::SliceRefused { file, place, kind },
            LoadFault::Shelf => Outcome::ReadFailed,
            LoadFault::Memory => Outcome::Memory,
        }
    }
}

impl From<ReadFault> for Outcome<'_> {
    ghost use Rattle.std.specs.Prelude.{◌≡◌};
    ghost use Rattle.node_commands.specs.Outcomes.{of_read};

    ghost from_gives = { λ fault outcome. outcome ≡ of_read fault };

    fn from(fault: ReadFault) -> Self {
        match fault {
            ReadFault::Broken(fault) => Outcome::InputRefused(fault),
            ReadFault::Memory => Outcome::Memory,
        }
    }
}

impl From<RelayFault> for Outcome<'_> {
    ghost use Rattle.std.specs.Prelude.{◌≡◌};
    ghost use Rattle.node_commands.specs.Outcomes.{of_relay};

    ghost from_gives = { λ fault outcome. outcome ≡ of_relay fault };

    fn from(fault: RelayFault) -> Self {
        match fault {
            RelayFault::Broken(fault) => Outcome::InputRefused(fault),
            RelayFault::TextRefused(why) => Outcome::JsonRefused(why),
            RelayFault::NeedsSliced => Outcome::NeedsSliced,
            RelayFault::TooLong(length) => Outcome::TooLong(length),
            RelayFault::Memory => Outcome::Memory,
        }
    }
}

impl From<DumpFault> for Outcome<'_> {
    ghost use Rattle.std.specs.Prelude.{◌≡◌};
    ghost use Rattle.node_commands.specs.Outcomes.{of_line};

    ghost from_gives = { λ fault outcome. outcome ≡ of_line fault };

    fn from(fault: DumpFault) -> Self {
        match fault {
            DumpFault::Broken(fault) => Outcome::InputRefused(fault),
            DumpFault::WriteFailed => Outcome::WriteFailed,
            DumpFault::Memory => Outcome::Memory,
            DumpFault::MemoryAfter => Outcome::MemoryAfter,
        }
    }
}

impl From<DrillFault> for Outcome<'_> {
    ghost use Rattle.std.specs.Prelude.{◌≡◌};
    ghost use Rattle.node_commands.specs.Outcomes.{of_drill};

    ghost from_gives = { λ fault outcome. outcome ≡ of_drill fault };

    fn from(fault: DrillFault) -> Self {
        match fault {
            DrillFault::TooLong(length) => Outcome::TooLong(length),
            DrillFault::Memory => Outcome::Memory,
        }
    }
}

impl From<TextFault> for Outcome<'_> {
    ghost use Rattle.std.specs.Prelude.{◌≡◌};
    ghost use Rattle.node_commands.specs.Outcomes.{of_text};

    ghost from_gives = { λ fault outcome. outcome ≡ of_text fault };

    fn from(fault: TextFault) -> Self {
        match fault {
            TextFault::Broken { place } => Outcome::TextRefused(place),
            TextFault::Memory => Outcome::Memory,
        }
    }
}

impl From<Dump> for Outcome<'_> {
    ghost use Rattle.std.specs.Prelude.{◌≡◌};
    ghost use Rattle.node_commands.specs.Outcomes.{of_dump};

    ghost from_gives = { λ dump outcome. outcome ≡ of_dump dump };

    fn from(dump: Dump) -> Self {
        match dump {
            Dump::Finished => Outcome::Done,
            Dump::Refused(fault) => Outcome::RefusedAfter(fault),
            Dump::ReadFailed => Outcome::ReadFailedAfter,
            Dump::WriteFailed => Outcome::WriteFailed,
            Dump::Memory => Outcome::MemoryAfter,
        }
    }
}

impl From<AllocError> for Outcome<'_> {
    ghost use Rattle.std.specs.Prelude.{◌≡◌};
    ghost use Rattle.node_commands.specs.declared.outcome.Outcome.TheVariants as outcomes;

    ghost from_gives = { λ _ outcome. outcome ≡ outcomes.Memory };

    fn from(_error: AllocError) -> Self {
        Outcome::Memory
    }
}
