//! What is gone through on the way to the classes that a type reaches.

ghost use Rattle.std.specs.Prelude.{◌≡◌};
ghost use Rattle.slice_compat.specs.Nodes.{node_of};

use ice_types::TypeRef;

/// A row of a type, a class place, or a class that is reached.
#[derive(Clone, Copy, PartialEq, Eq)]
pub(crate) enum Node {
    Seq(u32),
    Dict(u32),
    Struct(u32),
    /// A place where this class is declared.
    Place(u32),
    /// A place where any class may stand.
    Anywhere,
    /// A class of which an instance, or one derived from it, may stand somewhere.
    Class(u32),
}

impl Node {
    /// Where a type leads, None for one in which no class place stands.
    pub fn of(kind: TypeRef) -> Option<Node>
        ensures { result ≡ node_of kind }
    {
        match kind {
            TypeRef::Seq(at) => Some(Node::Seq(at)),
            TypeRef::Dict(at) => Some(Node::Dict(at)),
            TypeRef::Struct(at) => Some(Node::Struct(at)),
            TypeRef::Class(Some(declared)) => Some(Node::Place(declared)),
            TypeRef::Class(None) => Some(Node::Anywhere),
            TypeRef::Bool
            | TypeRef::Byte
            | TypeRef::Short
            | TypeRef::Int
            | TypeRef::Long
            | TypeRef::Text
            | TypeRef::Enum(_)
            | TypeRef::Proxy(_) => None,
        }
    }
}
