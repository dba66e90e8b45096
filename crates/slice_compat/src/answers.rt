//! The answers to pairs of rows that were asked for already.

ghost use Rattle.std.specs.Prelude.{◌≡◌, ◌↔◌, IsTrue, OnOk, slice_get};
ghost use Rattle.ice_types.specs.Lacking.{BothAre};
ghost use Rattle.ice_types.specs.Tables.{Tables};
ghost use Rattle.ice_types.specs.declared.kind.TypeRef.TheVariants as kinds;
ghost use Rattle.slice_compat.specs.Answers.{AreAnswers, answer_in};
ghost use Rattle.slice_compat.specs.Reading.{Reads, ReadsEnum};

use std::alloc::{AllocError, Global};
use std::collections::BTreeMap;

/// Whether a row of the old schema can be read as one of the new one, by their places. Without it, fifty
/// structs of two members of the struct before would take 2^50 steps.
#[derive(Drop)]
pub(crate) struct Answers {
    pub structs: BTreeMap<(u32, u32), bool>,
    pub enums: BTreeMap<(u32, u32), bool>,
}

impl Answers {
    /// No answers, which take no memory.
    pub fn new(alloc: Global) -> Answers
        ensures { (t u : Tables) → AreAnswers t u result }
    {
        Answers {
            structs: BTreeMap::new(alloc),
            enums: BTreeMap::new(alloc),
        }
    }

    /// The answer to two structs.
    pub fn of_structs(&self, old: u32, new: u32) -> Option<bool>
        ensures { result ≡ answer_in self.now.structs old new }
    {
        self.structs.get(&(old, new)).copied()
    }

    /// The answer to two enums.
    pub fn of_enums(&self, old: u32, new: u32) -> Option<bool>
        ensures { result ≡ answer_in self.now.enums old new }
    {
        self.enums.get(&(old, new)).copied()
    }

    /// Remembers the answer to two structs.
    pub fn put_structs(&mut self, old: u32, new: u32, yes: bool) -> Result<(), AllocError>
        ensures { (t u : Tables) → AreAnswers t u self.old
            → (IsTrue yes ↔ Reads t u (kinds.Struct old) (kinds.Struct new)) → OnOk result (AreAnswers t u self.new) }
    {
        self.structs.insert((old, new), yes)?;
        Ok(())
    }

    /// Remembers the answer to two enums.
    pub fn put_enums(&mut self, old: u32, new: u32, yes: bool) -> Result<(), AllocError>
        ensures { (t u : Tables) → AreAnswers t u self.old
            → (IsTrue yes ↔ BothAre ReadsEnum (slice_get t.enums old) (slice_get u.enums new))
            → OnOk result (AreAnswers t u self.new) }
    {
        self.enums.insert((old, new), yes)?;
        Ok(())
    }
}
