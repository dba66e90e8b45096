//! Which parts of a value are still to be read.

ghost use Rattle.ice_values.specs.Frames.{Splits};

use ice_types::{Schema, TypeRef};

/// The types of the parts that are left.
#[derive(Clone, Copy)]
pub enum Left {
    /// So many of one type.
    Items(TypeRef, u32),
    /// The members of the struct at this place from this one on.
    Members(u32, usize),
}

impl Left {
    /// The first of them, and those behind it.
    pub(crate) fn split(self, schema: &Schema) -> Option<(TypeRef, Left)>
        ensures { Splits schema.now self result }
    {
        match self {
            Left::Items(kind, count) => {
                if count == 0 {
                    return None;
                }
                Some((kind, Left::Items(kind, count - 1)))
            }
            Left::Members(at, next) => {
                let decl = schema.structs().get(at as usize)?;
                if next >= decl.members.len() {
                    return None;
                }
                let member = decl.members.get(next)?;
                Some((member.kind, Left::Members(at, next + 1)))
            }
        }
    }
}
