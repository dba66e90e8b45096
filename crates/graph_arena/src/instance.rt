//! Instances of classes, and the values of their members.

ghost use Rattle.std.specs.Prelude.{◌≡◌};
ghost use Rattle.ice_encoding.specs.Instances as graphs;
ghost use Rattle.graph_arena.specs.Seen.{view_slices};

use crate::thin_list::ThinList;
use crate::value::Value;
use ice_types::{Bytes, List, Name};

/// The values of the required members in order, and of the optional ones that are present, by rising
/// tag. (Ice manual, "Data Encoding for Class and Exception Types".)
#[derive(Drop)]
pub struct Members {
    pub required: List<Value>,
    pub optional: ThinList<(u32, Value)>,
}

/// What one class adds to an instance.
#[derive(Drop)]
pub enum Slice {
    /// A class by its place in the schema's table, and the values of its own members.
    Known { class: u32, members: Members },
    /// A class that the schema lacks.
    Unknown(Box<UnknownSlice>),
}

/// What is kept of a slice of a class that the schema lacks.
#[derive(Drop)]
pub struct UnknownSlice {
    /// The type id of the class.
    pub id: Name,
    /// The bytes of its members, without the end marker of optional ones.
    pub bytes: Bytes,
    /// Whether that marker stood behind them.
    pub optionals: bool,
    /// The names in the slice's table.
    pub table: List<u32>,
}

/// An instance of a class.
#[derive(Drop)]
pub struct Instance {
    /// From the most derived class on.
    pub slices: List<Slice>,
}

/// The class of an instance with these slices: that of the first one whose class is known, None where
/// there is none, which is `Object`. (Ice manual, "Class Inheritance".)
pub fn class_of(slices: &[Slice]) -> Option<u32>
    ensures { result ≡ graphs.class_of (view_slices slices.now) }
{
    for slice in slices {
        if let Slice::Known { class, .. } = slice {
            return Some(*class);
        }
    }
    None
}
