//! Instances that have begun and wait for others, in as little memory as what is left of them wants.

ghost use Rattle.std.specs.Prelude.{◌≡◌, IfOk};
ghost use Rattle.instance_reading.specs.Stacked.{WaitsFor, resumed};
ghost use Rattle.instance_reading.specs.Unfinished.{begun};

use crate::slice::Stage;
use crate::unfinished::Unfinished;
use graph_arena::Slice;
use ice_prims::Cursor;
use ice_types::List;
use slice_heads::Before;
use std::alloc::{AllocError, Global};

/// An instance that has begun and waits. In a chain of a hundred thousand instances as many wait at once.
#[derive(Drop)]
pub(crate) enum Waiting<'a> {
    /// Nothing is read of it.
    Begun { name: u32, steps: usize },
    /// All is read of it, and it waits for an instance that begins in it.
    Whole { name: u32, slices: List<Slice> },
    /// Some is left of it, and it waits for an instance that begins in it.
    Open(Box<Unfinished<'a>>),
}

impl<'a> Waiting<'a> {
    /// The instance of this name begins here.
    pub(crate) fn begun(name: u32, cursor: &Cursor<'_>) -> Waiting<'a>
        ensures { resumed result ≡ begun name cursor.now }
    {
        Waiting::Begun {
            name,
            steps: cursor.left(),
        }
    }

    /// An instance begins in this one.
    pub(crate) fn of(alloc: Global, unfinished: Unfinished<'a>) -> Result<Waiting<'a>, AllocError>
        ensures { IfOk result (WaitsFor unfinished.entry) }
    {
        let Unfinished {
            name,
            steps,
            slices,
            stage,
        } = unfinished;
        match stage {
            Stage::Over => Ok(Waiting::Whole { name, slices }),
            stage => {
                let open = Unfinished {
                    name,
                    steps,
                    slices,
                    stage,
                };
                Ok(Waiting::Open(Box::new(alloc, open)?))
            }
        }
    }

    /// The instance, to be read on.
    pub(crate) fn resume(self, alloc: Global) -> Unfinished<'a>
        ensures { result ≡ resumed self.entry }
    {
        match self {
            Waiting::Begun { name, steps } => Unfinished {
                name,
                steps,
                slices: List::new(alloc),
                stage: Stage::Next(Before::First),
            },
            Waiting::Whole { name, slices } => Unfinished {
                name,
                steps: 0,
                slices,
                stage: Stage::Over,
            },
            Waiting::Open(unfinished) => Box::into_inner(unfinished),
        }
    }
}
