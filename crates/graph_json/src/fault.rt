//! Why a text gives no graph.

ghost use Rattle.std.specs.Prelude.{◌≡◌};
ghost use Rattle.graph_json.specs.Texts.{kind_name};
ghost use Rattle.graph_json.specs.declared.fault.JsonFault.TheVariants as faults;

use std::alloc::AllocError;

/// Why a text is refused. The earlier one decides.
#[derive(Clone, Copy)]
pub enum JsonKind {
    /// It has more than 16,777,216 bytes.
    TooLong,
    /// It is no JSON, or nests more than 127 deep.
    NotJson,
    /// It lists more than 100,000 instances.
    TooMany,
    /// It is the notation of no graph of the type.
    Misfit,
}

impl JsonKind {
    /// The kind's word, for a line.
    pub fn name(self) -> &'static str
        ensures { result.now ≡ kind_name self }
    {
        match self {
            JsonKind::TooLong => "TooLong",
            JsonKind::NotJson => "NotJson",
            JsonKind::TooMany => "TooMany",
            JsonKind::Misfit => "Misfit",
        }
    }
}

/// Why a text gives no graph.
#[derive(Clone, Copy)]
pub enum JsonFault {
    /// It is refused.
    Refused(JsonKind),
    /// Out of memory, which may come in place of any other answer.
    Memory,
}

impl From<JsonKind> for JsonFault {
    ghost from_gives = { λ kind e. e ≡ faults.Refused kind };

    fn from(kind: JsonKind) -> JsonFault {
        JsonFault::Refused(kind)
    }
}

impl From<AllocError> for JsonFault {
    ghost from_gives = { λ _ e. e ≡ faults.Memory };

    fn from(_error: AllocError) -> JsonFault {
        JsonFault::Memory
    }
}
