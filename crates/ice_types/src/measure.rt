//! What a schema says of each of its types.

ghost use Rattle.std.specs.Prelude.{◌≡◌, ◌+◌, ◌<◌, ◌^◌};
ghost use Rattle.ice_types.specs.Measures.{built_in, container, enumeration, no_members, proxy, reference, structure};
ghost use Rattle.ice_types.specs.Measures.{with_member};

/// What a schema says of a type.
#[derive(Clone, Copy, PartialEq, Eq)]
pub struct Measure {
    /// How deep the type nests: 1 for a built-in type, an enum, a proxy and a class, one more than its
    /// element for a sequence, two more than the deeper of its parts for a dictionary, one more than its
    /// deepest member for a struct.
    pub depth: u32,
    /// The length in bytes of its smallest spelling.
    pub smallest: u32,
    /// Whether each of its spellings is as long as the smallest.
    pub is_fixed: bool,
    /// Whether its values may be keys of a dictionary.
    pub is_key: bool,
    /// Whether it is made of types whose values the node carries: no class is in it.
    pub is_built: bool,
}

impl Measure {
    /// Of a built-in type, whose smallest spelling has so many bytes.
    pub(crate) fn built_in(smallest: u32, is_fixed: bool) -> Measure
        ensures { result ≡ built_in smallest is_fixed }
    {
        Measure {
            depth: 1,
            smallest,
            is_fixed,
            is_key: true,
            is_built: true,
        }
    }

    /// Of a sequence or dictionary that nests so deep, by whether the node carries its parts.
    pub(crate) fn container(depth: u32, is_built: bool) -> Measure
        ensures { result ≡ container depth is_built }
    {
        Measure {
            depth,
            smallest: 1,
            is_fixed: false,
            is_key: false,
            is_built,
        }
    }

    /// Of an enum.
    pub(crate) fn enumeration() -> Measure
        ensures { result ≡ enumeration }
    {
        Measure {
            depth: 1,
            smallest: 1,
            is_fixed: false,
            is_key: true,
            is_built: true,
        }
    }

    /// Of a proxy, which may be null.
    pub(crate) fn proxy() -> Measure
        ensures { result ≡ proxy }
    {
        Measure {
            depth: 1,
            smallest: 2,
            is_fixed: false,
            is_key: false,
            is_built: true,
        }
    }

    /// Of a reference to a class instance, which may be null.
    pub(crate) fn reference() -> Measure
        ensures { result ≡ reference }
    {
        Measure {
            depth: 1,
            smallest: 1,
            is_fixed: false,
            is_key: false,
            is_built: false,
        }
    }

    /// Of no members together.
    pub(crate) fn no_members() -> Measure
        ensures { result ≡ no_members }
    {
        Measure {
            depth: 0,
            smallest: 0,
            is_fixed: true,
            is_key: true,
            is_built: true,
        }
    }

    /// Of these members and one more together.
    pub(crate) fn with_member(self, member: Measure) -> Measure
        requires { self.smallest + member.smallest < 2 ^ 32 }
        ensures { result ≡ with_member self member }
    {
        Measure {
            depth: self.depth.max(member.depth),
            smallest: self.smallest + member.smallest,
            is_fixed: self.is_fixed && member.is_fixed,
            is_key: self.is_key && member.is_key,
            is_built: self.is_built && member.is_built,
        }
    }

    /// Of a struct of these members.
    pub(crate) fn structure(self) -> Measure
        requires { self.depth + 1 < 2 ^ 32 }
        ensures { result ≡ structure self }
    {
        Measure {
            depth: self.depth + 1,
            smallest: self.smallest,
            is_fixed: self.is_fixed,
            is_key: self.is_key,
            is_built: self.is_built,
        }
    }
}
