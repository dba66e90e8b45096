//! Whether rows of two schemas are the same.

ghost use Rattle.std.specs.Prelude.{◌↔◌, IsTrue, MatchOption, List, ℕ, slice_get};
ghost use Rattle.ice_types.specs.Tables.{HasRowId};
ghost use Rattle.ice_types.specs.Lacking.{AreSame, BothAre, SameBase, SameClass, SameDict, SameEntry, SameEnum};
ghost use Rattle.ice_types.specs.Lacking.{SameException, SameId, SameInterface, SameInterfaceBase, SameKind};
ghost use Rattle.ice_types.specs.Lacking.{SameMember, SameOp, SameRow, SameSeq, SameShape, SameStruct, SameThrow};
ghost use Rattle.ice_types.specs.declared.kind.RowRef.TheVariants as rows;

use ice_types::{Entry, Member, OpDecl, RowRef, Schema, Shape, TypeRef};

/// The id of a row, None where no such row is.
fn id_of(schema: &Schema, row: RowRef) -> Option<&str>
    ensures { MatchOption result
        ((id : List ℕ) → HasRowId schema.now id row → ⊥) (λ id. HasRowId schema.now id.now row) }
{
    Some(match row {
        RowRef::Seq(at) => schema.seqs().get(at as usize)?.id.as_str(),
        RowRef::Dict(at) => schema.dicts().get(at as usize)?.id.as_str(),
        RowRef::Struct(at) => schema.structs().get(at as usize)?.id.as_str(),
        RowRef::Enum(at) => schema.enums().get(at as usize)?.id.as_str(),
        RowRef::Class(at) => schema.classes().get(at as usize)?.id.as_str(),
        RowRef::Exception(at) => schema.exceptions().get(at as usize)?.id.as_str(),
        RowRef::Interface(at) => schema.interfaces().get(at as usize)?.id.as_str(),
    })
}

/// Whether a row has this id.
fn has_id(schema: &Schema, row: RowRef, id: &str) -> bool
    ensures { IsTrue result ↔ HasRowId schema.now id.now row }
{
    match id_of(schema, row) {
        Some(own) => own == id,
        None => false,
    }
}

/// Whether two rows have one id.
fn have_one_id(one: &Schema, other: &Schema, own: RowRef, row: RowRef) -> bool
    ensures { IsTrue result ↔ SameId one.now other.now own row }
{
    match id_of(one, own) {
        Some(id) => has_id(other, row, id),
        None => false,
    }
}

/// Whether two types are of one sort, and of one id where they are rows.
fn is_same_kind(one: &Schema, other: &Schema, own: TypeRef, kind: TypeRef) -> bool
    ensures { IsTrue result ↔ SameKind one.now other.now own kind }
{
    match own {
        TypeRef::Bool => matches!(kind, TypeRef::Bool),
        TypeRef::Byte => matches!(kind, TypeRef::Byte),
        TypeRef::Short => matches!(kind, TypeRef::Short),
        TypeRef::Int => matches!(kind, TypeRef::Int),
        TypeRef::Long => matches!(kind, TypeRef::Long),
        TypeRef::Text => matches!(kind, TypeRef::Text),
        TypeRef::Seq(a) => {
            matches!(kind, TypeRef::Seq(b) if have_one_id(one, other, RowRef::Seq(a), RowRef::Seq(b)))
        }
        TypeRef::Dict(a) => {
            matches!(kind, TypeRef::Dict(b) if have_one_id(one, other, RowRef::Dict(a), RowRef::Dict(b)))
        }
        TypeRef::Struct(a) => {
            matches!(kind, TypeRef::Struct(b) if have_one_id(one, other, RowRef::Struct(a), RowRef::Struct(b)))
        }
        TypeRef::Enum(a) => {
            matches!(kind, TypeRef::Enum(b) if have_one_id(one, other, RowRef::Enum(a), RowRef::Enum(b)))
        }
        TypeRef::Proxy(None) => matches!(kind, TypeRef::Proxy(None)),
        TypeRef::Proxy(Some(a)) => {
            matches!(kind, TypeRef::Proxy(Some(b))
                if have_one_id(one, other, RowRef::Interface(a), RowRef::Interface(b)))
        }
        TypeRef::Class(None) => matches!(kind, TypeRef::Class(None)),
        TypeRef::Class(Some(a)) => {
            matches!(kind, TypeRef::Class(Some(b)) if have_one_id(one, other, RowRef::Class(a), RowRef::Class(b)))
        }
    }
}

/// Whether two members have one name, one tag and the same type.
fn is_same_member(one: &Schema, other: &Schema, own: &Member, member: &Member) -> bool
    ensures { IsTrue result ↔ SameMember one.now other.now own.now member.now }
{
    own.name.as_str() == member.name.as_str()
        && is_same_kind(one, other, own.kind, member.kind)
        && own.tag == member.tag
}

/// Whether the members are the same, one after the other.
fn are_same_members(one: &Schema, other: &Schema, own: &[Member], members: &[Member]) -> bool
    ensures { IsTrue result ↔ AreSame (SameMember one.now other.now) own.now members.now }
{
    for (at, first) in own.iter().enumerate() {
        let Some(second) = members.get(at) else {
            return false;
        };
        if !is_same_member(one, other, first, second) {
            return false;
        }
    }
    own.len() == members.len()
}

/// Whether required and optional members are the same.
fn is_same_shape(one: &Schema, other: &Schema, own: &Shape, shape: &Shape) -> bool
    ensures { IsTrue result ↔ SameShape one.now other.now own.now shape.now }
{
    are_same_members(
        one,
        other,
        own.required.as_slice(),
        shape.required.as_slice(),
    ) && are_same_members(
        one,
        other,
        own.optional.as_slice(),
        shape.optional.as_slice(),
    )
}

/// Whether the places are those of exceptions of the same ids.
fn are_same_throws(one: &Schema, other: &Schema, own: &[u32], throws: &[u32]) -> bool
    ensures { IsTrue result ↔ AreSame (SameThrow one.now other.now) own.now throws.now }
{
    for (at, first) in own.iter().enumerate() {
        let Some(second) = throws.get(at) else {
            return false;
        };
        if !have_one_id(
            one,
            other,
            RowRef::Exception(*first),
            RowRef::Exception(*second),
        ) {
            return false;
        }
    }
    own.len() == throws.len()
}

/// Whether two operations are the same.
fn is_same_op(one: &Schema, other: &Schema, own: &OpDecl, op: &OpDecl) -> bool
    ensures { IsTrue result ↔ SameOp one.now other.now own.now op.now }
{
    own.name.as_str() == op.name.as_str()
        && own.idempotent == op.idempotent
        && is_same_shape(one, other, &own.arguments, &op.arguments)
        && is_same_shape(one, other, &own.results, &op.results)
        && are_same_throws(one, other, own.throws.as_slice(), op.throws.as_slice())
}

/// Whether the operations are the same, one after the other.
fn are_same_ops(one: &Schema, other: &Schema, own: &[OpDecl], ops: &[OpDecl]) -> bool
    ensures { IsTrue result ↔ AreSame (SameOp one.now other.now) own.now ops.now }
{
    for (at, first) in own.iter().enumerate() {
        let Some(second) = ops.get(at) else {
            return false;
        };
        if !is_same_op(one, other, first, second) {
            return false;
        }
    }
    own.len() == ops.len()
}

/// Whether the places are those of interfaces of the same ids.
fn are_same_bases(one: &Schema, other: &Schema, own: &[u32], bases: &[u32]) -> bool
    ensures { IsTrue result ↔ AreSame (SameInterfaceBase one.now other.now) own.now bases.now }
{
    for (at, first) in own.iter().enumerate() {
        let Some(second) = bases.get(at) else {
            return false;
        };
        if !have_one_id(
            one,
            other,
            RowRef::Interface(*first),
            RowRef::Interface(*second),
        ) {
            return false;
        }
    }
    own.len() == bases.len()
}

/// Whether two entries have one name and one number.
fn is_same_entry(own: &Entry, entry: &Entry) -> bool
    ensures { IsTrue result ↔ SameEntry own.now entry.now }
{
    own.name.as_str() == entry.name.as_str() && own.number == entry.number
}

/// Whether the entries are the same, one after the other.
fn are_same_entries(own: &[Entry], entries: &[Entry]) -> bool
    ensures { IsTrue result ↔ AreSame SameEntry own.now entries.now }
{
    for (at, first) in own.iter().enumerate() {
        let Some(second) = entries.get(at) else {
            return false;
        };
        if !is_same_entry(first, second) {
            return false;
        }
    }
    own.len() == entries.len()
}

/// Whether the classes have no base, or bases of one id.
pub(crate) fn is_same_class_base(
    one: &Schema,
    other: &Schema,
    own: Option<u32>,
    base: Option<u32>,
) -> bool
    ensures { IsTrue result ↔ SameBase one.now other.now rows.Class own base }
{
    match own {
        Some(a) => {
            matches!(base, Some(b) if have_one_id(one, other, RowRef::Class(a), RowRef::Class(b)))
        }
        None => base.is_none(),
    }
}

/// Whether the exceptions have no base, or bases of one id.
fn is_same_exception_base(one: &Schema, other: &Schema, own: Option<u32>, base: Option<u32>) -> bool
    ensures { IsTrue result ↔ SameBase one.now other.now rows.Exception own base }
{
    match own {
        Some(a) => {
            matches!(base, Some(b) if have_one_id(one, other, RowRef::Exception(a), RowRef::Exception(b)))
        }
        None => base.is_none(),
    }
}

/// Whether sequences stand at both places, and are the same.
fn are_same_seqs(one: &Schema, other: &Schema, own: u32, place: u32) -> bool
    ensures { IsTrue result ↔
        BothAre (SameSeq one.now other.now) (slice_get one.now.seqs own) (slice_get other.now.seqs place) }
{
    let Some(own) = one.seqs().get(own as usize) else {
        return false;
    };
    let Some(decl) = other.seqs().get(place as usize) else {
        return false;
    };
    is_same_kind(one, other, own.element, decl.element)
}

/// Whether dictionaries stand at both places, and are the same.
fn are_same_dicts(one: &Schema, other: &Schema, own: u32, place: u32) -> bool
    ensures { IsTrue result ↔
        BothAre (SameDict one.now other.now) (slice_get one.now.dicts own) (slice_get other.now.dicts place) }
{
    let Some(own) = one.dicts().get(own as usize) else {
        return false;
    };
    let Some(decl) = other.dicts().get(place as usize) else {
        return false;
    };
    is_same_kind(one, other, own.key, decl.key) && is_same_kind(one, other, own.value, decl.value)
}

/// Whether structs stand at both places, and are the same.
fn are_same_structs(one: &Schema, other: &Schema, own: u32, place: u32) -> bool
    ensures { IsTrue result ↔
        BothAre (SameStruct one.now other.now) (slice_get one.now.structs own) (slice_get other.now.structs place) }
{
    let Some(own) = one.structs().get(own as usize) else {
        return false;
    };
    let Some(decl) = other.structs().get(place as usize) else {
        return false;
    };
    are_same_members(one, other, own.members.as_slice(), decl.members.as_slice())
}

/// Whether enums stand at both places, and are the same.
fn are_same_enums(one: &Schema, other: &Schema, own: u32, place: u32) -> bool
    ensures { IsTrue result ↔
        BothAre (SameEnum one.now other.now) (slice_get one.now.enums own) (slice_get other.now.enums place) }
{
    let Some(own) = one.enums().get(own as usize) else {
        return false;
    };
    let Some(decl) = other.enums().get(place as usize) else {
        return false;
    };
    are_same_entries(own.entries.as_slice(), decl.entries.as_slice())
}

/// Whether classes stand at both places, and are the same.
fn are_same_classes(one: &Schema, other: &Schema, own: u32, place: u32) -> bool
    ensures { IsTrue result ↔
        BothAre (SameClass one.now other.now) (slice_get one.now.classes own) (slice_get other.now.classes place) }
{
    let Some(own) = one.classes().get(own as usize) else {
        return false;
    };
    let Some(decl) = other.classes().get(place as usize) else {
        return false;
    };
    is_same_class_base(one, other, own.base, decl.base)
        && are_same_members(one, other, own.members.as_slice(), decl.members.as_slice())
        && own.compact == decl.compact
}

/// Whether exceptions stand at both places, and are the same.
fn are_same_exceptions(one: &Schema, other: &Schema, own: u32, place: u32) -> bool
    ensures { IsTrue result ↔
        BothAre (SameException one.now other.now)
        (slice_get one.now.exceptions own) (slice_get other.now.exceptions place) }
{
    let Some(own) = one.exceptions().get(own as usize) else {
        return false;
    };
    let Some(decl) = other.exceptions().get(place as usize) else {
        return false;
    };
    is_same_exception_base(one, other, own.base, decl.base)
        && are_same_members(one, other, own.members.as_slice(), decl.members.as_slice())
}

/// Whether interfaces stand at both places, and are the same.
fn are_same_interfaces(one: &Schema, other: &Schema, own: u32, place: u32) -> bool
    ensures { IsTrue result ↔
        BothAre (SameInterface one.now other.now)
        (slice_get one.now.interfaces own) (slice_get other.now.interfaces place) }
{
    let Some(own) = one.interfaces().get(own as usize) else {
        return false;
    };
    let Some(decl) = other.interfaces().get(place as usize) else {
        return false;
    };
    are_same_bases(one, other, own.bases.as_slice(), decl.bases.as_slice())
        && are_same_ops(one, other, own.ops.as_slice(), decl.ops.as_slice())
}

/// Whether two rows are of one sort and the same.
pub(crate) fn is_same_row(one: &Schema, other: &Schema, own: RowRef, row: RowRef) -> bool
    ensures { IsTrue result ↔ SameRow one.now other.now own row }
{
    match own {
        RowRef::Seq(a) => matches!(row, RowRef::Seq(b) if are_same_seqs(one, other, a, b)),
        RowRef::Dict(a) => matches!(row, RowRef::Dict(b) if are_same_dicts(one, other, a, b)),
        RowRef::Struct(a) => matches!(row, RowRef::Struct(b) if are_same_structs(one, other, a, b)),
        RowRef::Enum(a) => matches!(row, RowRef::Enum(b) if are_same_enums(one, other, a, b)),
        RowRef::Class(a) => matches!(row, RowRef::Class(b) if are_same_classes(one, other, a, b)),
        RowRef::Exception(a) => {
            matches!(row, RowRef::Exception(b) if are_same_exceptions(one, other, a, b))
        }
        RowRef::Interface(a) => {
            matches!(row, RowRef::Interface(b) if are_same_interfaces(one, other, a, b))
        }
    }
}
