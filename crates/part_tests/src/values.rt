use graph_arena::{Members, Value};
use ice_prims::{Cursor, Kind, ReadFault};
use ice_types::{Member, Name, Schema, TypeRef};
use ice_values::read_members;
use std::alloc::{AllocError, Global};
use value_checks::fits;
use value_parts::{DeclaredMembers, Numbers, Optionals};

/// Where the optional members stand, the bytes, and how many optional ones are read.
const READ: &[(Optionals, &[u8], usize)] = &[
    (Optionals::Absent, b"\x07\0\0\0", 0),
    (Optionals::ToEnd, b"\x07\0\0\0", 0),
    (Optionals::Marked, b"\x07\0\0\0\xff", 0),
    (
        Optionals::Marked,
        b"\x07\0\0\0\x0d\x02hi\x17\x05\x18\x01\xff",
        2,
    ),
    (Optionals::ToEnd, b"\x07\0\0\0\x0d\x02hi\x12wxyz", 1),
];

/// The same with the place and the kind of the first fault.
const REFUSED: &[(Optionals, &[u8], u64, Kind)] = &[
    (Optionals::Absent, b"\x07\0\0", 0, Kind::Short),
    (Optionals::Marked, b"\x07\0\0\0", 4, Kind::Short),
    (Optionals::ToEnd, b"\x07\0\0\0\xff", 4, Kind::BadTag),
    (Optionals::Marked, b"\x07\0\0\0\x0c\x02", 4, Kind::BadFormat),
    (
        Optionals::Marked,
        b"\x07\0\0\0\x18\x01\x0d\x02hi",
        6,
        Kind::BadTag,
    ),
    (Optionals::Marked, b"\x07\0\0\0\x0d\x03hi", 5, Kind::Short),
];

/// A member.
fn member(
    alloc: Global,
    name: &str,
    kind: TypeRef,
    tag: Option<u32>,
) -> Result<Member, AllocError> {
    let name = Name::of(alloc, name)?;
    Ok(Member { name, kind, tag })
}

/// An int that is required, and a text of tag 1 and a bool of tag 3 that are optional.
fn declared(alloc: Global) -> Result<[Member; 3], AllocError> {
    let text = member(alloc, "t", TypeRef::Text, Some(1))?;
    let number = member(alloc, "n", TypeRef::Int, None)?;
    Ok([text, number, member(alloc, "b", TypeRef::Bool, Some(3))?])
}

/// The members of the bytes.
fn read_by(
    alloc: Global,
    schema: &Schema,
    members: &[Member],
    optionals: Optionals,
    bytes: &[u8],
) -> Result<Members, ReadFault> {
    let fields = DeclaredMembers {
        required: members,
        optional: members,
    };
    let mut cursor = Cursor::new(bytes);
    read_members(alloc, schema, fields, optionals, &mut cursor, &mut Numbers)
}

/// The same, where those are declared.
fn read(alloc: Global, optionals: Optionals, bytes: &[u8]) -> Result<Members, ReadFault> {
    let members = declared(alloc)?;
    let schema = Schema::new(alloc);
    read_by(alloc, &schema, &members, optionals, bytes)
}

/// Whether the one required member is 7, and so many optional ones are there.
fn are(members: &Members, options: usize) -> bool {
    match members.required.as_slice() {
        [Value::Int(number)] => *number == 7 && members.optional.as_slice().len() == options,
        _ => false,
    }
}

fn is_read(alloc: Global, optionals: Optionals, bytes: &[u8], options: usize) -> bool {
    match read(alloc, optionals, bytes) {
        Ok(members) => are(&members, options),
        Err(_) => false,
    }
}

fn is_fault(found: &ReadFault, place: u64, kind: Kind) -> bool {
    match found {
        ReadFault::Broken(fault) => fault.place == place && fault.kind == kind,
        _ => false,
    }
}

fn is_refused(alloc: Global, optionals: Optionals, bytes: &[u8], place: u64, kind: Kind) -> bool {
    match read(alloc, optionals, bytes) {
        Ok(_) => false,
        Err(found) => is_fault(&found, place, kind),
    }
}

#[test]
fn members_by_their_bytes(rt: HostRuntime) {
    for (at, (optionals, bytes, options)) in READ.iter().enumerate() {
        assert!(rt;
            is_read(rt.alloc(), *optionals, bytes, *options),
            "in row {at}"
        );
    }
    for (at, (optionals, bytes, place, kind)) in REFUSED.iter().enumerate() {
        let refused = is_refused(rt.alloc(), *optionals, bytes, *place, *kind);
        assert!(rt; refused, "in fault {at}");
    }
}

/// Whether a number is a value of the type.
fn fits_seven(schema: &Schema, kind: TypeRef) -> bool {
    fits(schema, kind, &Value::Int(7))
}

#[test]
fn forms(rt: HostRuntime) {
    let schema = Schema::new(rt.alloc());
    assert!(rt; fits_seven(&schema, TypeRef::Int));
    assert!(rt; !fits_seven(&schema, TypeRef::Long));
}
