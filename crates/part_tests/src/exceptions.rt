//! Unknown slices read as those of a class, which `reopen` does: no program calls it.

ghost use Rattle.std.specs.Prelude.{IfOk};
ghost use Rattle.graph_arena.specs.Seen.{view_slice};
ghost use Rattle.preserved.specs.Unknown.{IsUnknown};

use graph_arena::{Slice, UnknownSlice, Value};
use ice_prims::{Fault, Kind, ReadFault};
use ice_types::{List, Name, Schema};
use instance_reading::reopen;
use slice_check::load;
use std::alloc::{AllocError, Global};
use std::test::Fail;
use test_outside::{bytes, shelf};

const TEXT: &str = "module M { class B { int b; }; class D extends B { string x; B other; }; };";

/// The bytes of an unknown slice, whether an end marker stood behind them, its table, and what comes of it as a
/// slice of `::M::D`: the text and the reference, or the fault.
type Row = (
    &'static [u8],
    bool,
    &'static [u32],
    Result<(&'static str, Option<u32>), Fault>,
);

const ROWS: &[Row] = &[
    (&[1, 0x78, 1], false, &[1], Ok(("x", Some(1)))),
    (&[1, 0x78, 0], false, &[1], Ok(("x", None))),
    (&[1, 0x78, 0], true, &[], Ok(("x", None))),
    (&[1, 0x78, 2], false, &[7, 5], Ok(("x", Some(5)))),
    (&[1, 0x78, 1], false, &[], Err(BAD_REFERENCE)),
    (&[1, 0x78, 2], false, &[1], Err(BAD_REFERENCE)),
];

const BAD_REFERENCE: Fault = Fault {
    place: 2,
    kind: Kind::BadReference,
};

fn schema(alloc: Global) -> Result<Schema, Fail> {
    let mut shelf = shelf(alloc, &[("s.ice", TEXT)], &[])?;
    match load(alloc, &mut shelf, "s.ice") {
        Ok(schema) => Ok(schema),
        Err(_) => Err(Fail::from("no schema")),
    }
}

fn unknown(alloc: Global, data: &[u8], optionals: bool, table: &[u32]) -> Result<Slice, AllocError>
    ensures { IfOk result (λ slice. IsUnknown (view_slice slice)) }
{
    let kept = UnknownSlice {
        id: Name::of(alloc, "::M::D")?,
        bytes: bytes(alloc, data)?,
        optionals,
        table: List::from_vec(Vec::from_slice(alloc, table)?),
    };
    Ok(Slice::Unknown(Box::new(alloc, kept)?))
}

/// Whether the slice is one of the class with this text and this reference.
fn is_of(slice: &Slice, class: u32, text: &str, other: Option<u32>) -> bool {
    let Slice::Known {
        class: found,
        members,
    } = slice
    else {
        return false;
    };
    let [Value::Text(x), Value::Reference(reference)] = members.required.as_slice() else {
        return false;
    };
    *found == class
        && x.as_str() == text
        && *reference == other
        && members.optional.as_slice().is_empty()
}

/// Whether the slice of the row is reopened as it says.
fn comes(alloc: Global, schema: &Schema, class: u32, row: &Row) -> Result<bool, AllocError> {
    let (data, optionals, table, wanted) = row;
    let slice = unknown(alloc, data, *optionals, table)?;
    Ok(match (reopen(alloc, schema, class, &slice), wanted) {
        (Ok(found), Ok((text, other))) => is_of(&found, class, text, *other),
        (Err(ReadFault::Broken(fault)), Err(wanted)) => fault == *wanted,
        _ => false,
    })
}

/// The first row that does not come so.
fn other_row(alloc: Global, schema: &Schema) -> Result<Option<usize>, Fail> {
    let Some(class) = schema.class("::M::D") else {
        return Err(Fail::from("no class"));
    };
    for (at, row) in ROWS.iter().enumerate() {
        if !comes(alloc, schema, class, row)? {
            return Ok(Some(at));
        }
    }
    Ok(None)
}

/// The same, by the schema of the text.
fn first_other(alloc: Global) -> Result<Option<usize>, Fail> {
    let schema = schema(alloc)?;
    other_row(alloc, &schema)
}

#[test]
fn unknown_slices_are_reopened(rt: HostRuntime) -> Result<(), Fail> {
    assert_eq!(rt; first_other(rt.alloc())?, None);
    Ok(())
}
