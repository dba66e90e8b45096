//! What operations become.

ghost use Rattle.std.specs.Prelude.{◌≡◌, ◌++◌, [], map, cond, IfOk, OnOk};
ghost use Rattle.slice_meaning.specs.Uses.{type_of, exception_of};
ghost use Rattle.slice_meaning.specs.Members.{with_field, members_of, returned, named, with_meaning, op_of};
ghost use Rattle.slice_faults.specs.Held.{known_of};
ghost use Rattle.slice_faults.specs.Sides.{side, side_members};

use crate::known::Known;
use crate::members::{add_member, tag_of};
use crate::shapes::shape;
use crate::uses::{exception_of, type_of};
use ice_types::{List, Member, Name, OpDecl};
use slice_syntax::{OpTree, Param, Path};
use std::alloc::{AllocError, Global};

/// The name of what an operation returns, among its results.
const RETURNED: &str = "$return";

/// The rows of operations.
pub(crate) fn operations_of(
    alloc: Global,
    known: &Known,
    ops: &[OpTree],
) -> Result<List<OpDecl>, AllocError>
    ensures { IfOk result (λ rows. rows ≡ map (op_of (known_of known.now)) ops.now) }
{
    let mut rows = List::new(alloc);
    for op in ops {
        rows.push(operation_of(alloc, known, op)?)?;
    }
    Ok(rows)
}

/// The row of an operation.
fn operation_of(alloc: Global, known: &Known, op: &OpTree) -> Result<OpDecl, AllocError>
    ensures { IfOk result (λ row. row ≡ op_of (known_of known.now) op.now) }
{
    let params = op.params.as_slice();
    let arguments = members_of_side(alloc, known, params, false)?;
    let mut results = members_of_side(alloc, known, params, true)?;
    add_returned(alloc, known, op, &mut results)?;
    Ok(OpDecl {
        name: Name::of(alloc, op.word.name.as_str())?,
        idempotent: op.idempotent,
        arguments: shape(alloc, arguments)?,
        results: shape(alloc, results)?,
        throws: thrown(alloc, known, op.throws.as_slice())?,
    })
}

/// The parameters of one side whose types have no fault.
fn members_of_side(
    alloc: Global,
    known: &Known,
    params: &[Param],
    out: bool,
) -> Result<List<Member>, AllocError>
    ensures { IfOk result (λ members. members ≡ members_of (known_of known.now) (side out params.now)) }
{
    let mut members = List::new(alloc);
    for param in params {
        add_of_side(alloc, known, param, out, &mut members)?;
    }
    Ok(members)
}

/// Puts a parameter last, where it is of this side and its type has no fault.
fn add_of_side(
    alloc: Global,
    known: &Known,
    param: &Param,
    out: bool,
    members: &mut List<Member>,
) -> Result<(), AllocError>
    ensures { OnOk result (members.new ≡ members.old ++ side_members (known_of known.now) out param.now) }
{
    if param.out == out {
        add_member(alloc, known, &param.field, members)
    } else {
        Ok(())
    }
}

/// Puts what is returned last, where it is something and its type has no fault.
fn add_returned(
    alloc: Global,
    known: &Known,
    op: &OpTree,
    members: &mut List<Member>,
) -> Result<(), AllocError>
    ensures { OnOk result (members.new ≡ members.old ++ returned (known_of known.now) op.now.tag op.now.result) }
{
    let Some(word) = &op.result else {
        return Ok(());
    };
    if let Ok(kind) = type_of(known, word) {
        let name = Name::of(alloc, RETURNED)?;
        let tag = tag_of(known, &op.tag);
        members.push(Member { name, kind, tag })?;
    }
    Ok(())
}

/// The exceptions that names mean.
fn thrown(alloc: Global, known: &Known, paths: &[Path]) -> Result<List<u32>, AllocError>
    ensures { IfOk result (λ places. places ≡ named (exception_of (known_of known.now)) paths.now) }
{
    let mut places = List::new(alloc);
    for path in paths {
        add_thrown(known, path, &mut places)?;
    }
    Ok(places)
}

/// Puts the exception that a name means last, where it means one.
fn add_thrown(known: &Known, path: &Path, places: &mut List<u32>) -> Result<(), AllocError>
    ensures { OnOk result (places.new ≡ places.old ++ with_meaning (exception_of (known_of known.now) path.now) []) }
{
    match exception_of(known, path) {
        Ok(at) => places.push(at),
        Err(_) => Ok(()),
    }
}
