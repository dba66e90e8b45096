//! The files that are complete.

use crate::fault::{LoadFault, text_fault};
use ice_types::{List, Name};
use slice_meaning::CheckKind;
use slice_syntax::File;
use std::alloc::{AllocError, Global};

/// Files with their trees, each after those that it includes.
#[derive(Drop)]
pub(crate) struct Files {
    pub(crate) names: List<Name>,
    pub(crate) trees: List<File>,
}

impl Files {
    ghost use Rattle.std.specs.Prelude.{◌≡◌, ◌<◌, [], ◌∷◌, ◌++◌, OnOk, Some, length, slice_get};
    ghost use Rattle.slice_meaning.specs.Names.{Name};
    ghost use Rattle.slice_meaning.specs.Printed.{broken_at, row_name};
    ghost use Rattle.slice_check.specs.Answers.{IsFault};

    /// No files.
    pub(crate) fn new(alloc: Global) -> Files
        ensures names { result.names ≡ [] }
        ensures trees { result.trees ≡ [] }
    {
        Files {
            names: List::new(alloc),
            trees: List::new(alloc),
        }
    }

    /// Puts a file last.
    pub(crate) fn push(&mut self, name: Name, tree: File) -> Result<(), AllocError>
        ensures names { OnOk result (self.new.names ≡ self.old.names ++ name ∷ []) }
        ensures trees { OnOk result (self.new.trees ≡ self.old.trees ++ tree ∷ []) }
    {
        self.names.push(name)?;
        self.trees.push(tree)
    }

    /// A fault in the file at a place among them.
    pub(crate) fn fault(&self, alloc: Global, at: u32, place: u32, kind: CheckKind) -> LoadFault
        requires { at < length self.now.names }
        ensures { (name : Name) → slice_get self.now.names at ≡ Some name
            → IsFault (broken_at name place (row_name kind)) result }
    {
        let name = &self.names.as_slice()[at as usize];
        text_fault(alloc, name.as_str(), place, kind.name())
    }
}
