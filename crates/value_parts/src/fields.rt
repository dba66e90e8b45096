//! Members that are handed over to be read.

ghost use Rattle.std.specs.Prelude.{◌≡◌};
ghost use Rattle.value_parts.specs.Shapes as spec;

use ice_types::Member;

/// The members of a shape by where they are declared: those that are always there, in order, and the
/// optional ones, in any order. A class or an exception hands over its own members as both: those with
/// a tag are none of the required ones, and those without a tag none of the optional ones.
#[derive(Clone, Copy)]
pub struct DeclaredMembers<'a> {
    pub required: &'a [Member],
    pub optional: &'a [Member],
}

/// Where the optional members stand.
#[derive(Clone, Copy, PartialEq, Eq)]
pub enum Optionals {
    /// Nowhere: a slice whose flag says that there are none.
    Absent,
    /// Up to their marker, the byte 255: a slice whose flag says that there are some.
    Marked,
    /// Up to the end of the bound: a whole content.
    ToEnd,
}

impl Optionals {
    /// Whether a marker ends them.
    pub fn is_marked(self) -> bool
        ensures { result ≡ spec.is_marked self }
    {
        match self {
            Optionals::Marked => true,
            Optionals::Absent | Optionals::ToEnd => false,
        }
    }
}
