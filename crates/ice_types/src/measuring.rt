//! What a schema says of types.

ghost use Rattle.std.specs.Prelude.{◌≡◌, ◌-◌, ◌<◌, ◌≤◌, ◌↔◌, IfSome, IsTrue, []};
ghost use Rattle.ice_types.specs.Measures.{measure, sequence_of, dictionary_of, struct_of, of_any, fixed_size, IsBuilt};
ghost use Rattle.ice_types.specs.Fits.{small_members, names_of, AreRequired, SeqFits, DictFits, StructFits};
ghost use Rattle.ice_types.specs.Names.{AreNew};

use crate::declarations::Member;
use crate::kind::TypeRef;
use crate::list::List;
use crate::measure::Measure;
use crate::schema::{MOST_DEPTH, MOST_SMALLEST, Schema};

impl Schema {
    /// What the schema says of the type, None where it is of another schema.
    fn measure(&self, kind: TypeRef) -> Option<Measure>
        ensures { result ≡ measure self.now MOST_DEPTH kind }
    {
        match kind {
            TypeRef::Bool | TypeRef::Byte => Some(Measure::built_in(1, true)),
            TypeRef::Short => Some(Measure::built_in(2, true)),
            TypeRef::Int => Some(Measure::built_in(4, true)),
            TypeRef::Long => Some(Measure::built_in(8, true)),
            TypeRef::Text => Some(Measure::built_in(1, false)),
            TypeRef::Seq(at) => self.rows.seqs.beside.get(at as usize).copied(),
            TypeRef::Dict(at) => self.rows.dicts.beside.get(at as usize).copied(),
            TypeRef::Struct(at) => self.rows.structs.beside.get(at as usize).copied(),
            TypeRef::Enum(at) => self.rows.enums.beside.get(at as usize).copied(),
            TypeRef::Proxy(at) => of_any(&self.rows.interfaces.decls, at, Measure::proxy()),
            TypeRef::Class(at) => of_any(&self.rows.classes.decls, at, Measure::reference()),
        }
    }

    /// The same, None also where the type nests deeper than so many levels.
    pub fn measure_within(&self, levels: u32, kind: TypeRef) -> Option<Measure>
        requires { levels ≤ MOST_DEPTH }
        ensures found { result ≡ measure self.now levels kind }
        ensures depth { IfSome result (λ m. m.depth ≤ levels) }
    {
        let found = self.measure(kind)?;
        if found.depth <= levels {
            Some(found)
        } else {
            None
        }
    }

    /// What the schema would say of a sequence of this element, None where it does not fit.
    pub(crate) fn measure_seq(&self, element: TypeRef) -> Option<Measure>
        ensures { result ≡ sequence_of (measure self.now (MOST_DEPTH - 1) element) }
    {
        let element = self.measure_within(MOST_DEPTH - 1, element)?;
        Some(Measure::container(element.depth + 1, element.is_built))
    }

    /// What the schema would say of a dictionary of these parts, None where it nests too deep.
    pub(crate) fn measure_dict(&self, key: TypeRef, value: TypeRef) -> Option<Measure>
        ensures { result ≡
            dictionary_of (measure self.now (MOST_DEPTH - 2) key) (measure self.now (MOST_DEPTH - 2) value) }
    {
        let key = self.measure_within(MOST_DEPTH - 2, key)?;
        let value = self.measure_within(MOST_DEPTH - 2, value)?;
        Some(Measure::container(
            key.depth.max(value.depth) + 2,
            key.is_built && value.is_built,
        ))
    }

    /// What the schema would say of a struct of these members, None where it does not fit.
    pub(crate) fn measure_struct(&self, members: &[Member]) -> Option<Measure>
        ensures { result ≡ struct_of (small_members self.now members.now) }
    {
        let together = self.measure_members(members)?;
        Some(together.structure())
    }

    /// What the schema says of these members together, None where a struct may not have them.
    fn measure_members(&self, members: &[Member]) -> Option<Measure>
        ensures found { result ≡ small_members self.now members.now }
        ensures depth { IfSome result (λ m. m.depth < MOST_DEPTH) }
    {
        let mut together = Measure::no_members();
        for member in members {
            let found = self.measure_within(MOST_DEPTH - 1, member.kind)?;
            if found.smallest > MOST_SMALLEST - together.smallest {
                return None;
            }
            together = together.with_member(found);
        }
        Some(together)
    }

    /// The length in bytes of each spelling of the type, None where they differ.
    pub fn fixed_size(&self, kind: TypeRef) -> Option<u32>
        ensures { result ≡ fixed_size self.now kind }
    {
        let found = self.measure(kind)?;
        if found.is_fixed {
            Some(found.smallest)
        } else {
            None
        }
    }

    /// Whether the type is made of types whose values the node carries: no enum, proxy or class is in it.
    pub fn is_built(&self, kind: TypeRef) -> bool
        ensures { IsTrue result ↔ IsBuilt self.now kind }
    {
        match self.measure(kind) {
            Some(found) => found.is_built,
            None => false,
        }
    }

    /// Whether a sequence of this element may be added: its type nests at most so deep as a type may.
    pub fn fits_seq(&self, element: TypeRef) -> bool
        ensures { IsTrue result ↔ SeqFits self.now element }
    {
        self.measure_seq(element).is_some()
    }

    /// Whether a dictionary of these parts may be added: its key may be one, and its type nests at
    /// most so deep as a type may.
    pub fn fits_dict(&self, key: TypeRef, value: TypeRef) -> bool
        ensures { IsTrue result ↔ DictFits self.now key value }
    {
        match self.measure_within(MOST_DEPTH - 2, key) {
            Some(found) => found.is_key && self.measure_within(MOST_DEPTH - 2, value).is_some(),
            None => false,
        }
    }

    /// Whether a struct of these members, each with a name of its own, may be added: there is at
    /// least one, it nests at most so deep as a type may, and its smallest spelling has at most
    /// 1,048,576 bytes. `have_own_names` tests the names.
    pub fn fits_struct(&self, members: &List<Member>) -> bool
        requires names { AreNew [] (names_of members.now) }
        requires required { AreRequired members.now }
        ensures { IsTrue result ↔ StructFits self.now members.now }
    {
        !members.is_empty() && self.measure_struct(members.as_slice()).is_some()
    }
}

/// What is said of a proxy or a reference, of any or of the row at a place.
fn of_any<T>(rows: &List<T>, at: Option<u32>, measure: Measure) -> Option<Measure>
    ensures { result ≡ of_any rows.now at measure }
{
    let Some(at) = at else {
        return Some(measure);
    };
    rows.get(at as usize)?;
    Some(measure)
}
