//! What a message came to, as a line or as a reason.

ghost use Rattle.std.specs.Prelude.{◌≡◌, ◌++◌, IfOk, List, Ok, codes, slice_get, ℕ};
ghost use Rattle.ice_types.specs.Fits.{ShapeFits};
ghost use Rattle.ice_prims.specs.Rest.{whole};
ghost use Rattle.ice_encoding.specs.Exceptions.{exception_at};
ghost use Rattle.ice_encoding.specs.Flags.{all_slices};
ghost use Rattle.value_parts.specs.Shapes.{shape_seen};
ghost use Rattle.graph_arena.specs.Seen.{view_slices};
ghost use Rattle.graph_json.specs.Texts.{graph_text};
ghost use Rattle.class_slices.specs.Seen.{view_user_exception};
ghost use Rattle.ice_client.specs.declared.outcome.Outcome.TheVariants as outcomes;
ghost use Rattle.call_command.specs.Messages as spec;
ghost use Rattle.call_command.specs.Planning.{expected_of, of_locator, seen};
ghost use Rattle.call_command.specs.Replies as replies;
ghost use Rattle.call_command.specs.Steps.{IsInVain, LacksLine, StopsOrMemory, Tells, TellsBody, TellsOutcome, of_read};

use crate::preparing::{Expected, Plan};
use crate::stop::{Reason, Stop};
use class_slices::{UserException, decode, read_exception};
use graph_arena::{Graph, Slice};
use graph_json::to_text;
use ice_client::Outcome;
use ice_messages::Answer;
use ice_prims::ReadFault;
use ice_proxy::quote;
use ice_types::{Name, Schema};
use itoa::Buffer;
use locator::Through;
use locator_types::locator_schema;
use std::alloc::{AllocError, Global};
use value_parts::DeclaredMembers;

/// The line on a message that succeeded, or what stops the call.
pub(crate) fn line_of(alloc: Global, plan: &Plan<'_>, through: &Through) -> Result<Vec<u8>, Stop>
    requires fits { ShapeFits plan.now.expected.schema.now plan.now.expected.results.now }
    requires in_vain { IsInVain through.now }
    ensures { Tells (seen plan.now) through.now result }
{
    match through {
        Through::Invoked(invoked) => outcome_line(alloc, plan.expected, &invoked.outcome),
        Through::NotLocated => Err(Stop::Ended(Reason::NotLocated)),
        Through::LocatorFailed(invoked) => Err(locator_stop(alloc, &invoked.outcome)),
    }
}

/// What stops a call for which a locator was asked in vain, by what that came to.
fn locator_stop(alloc: Global, outcome: &Outcome) -> Stop
    requires { (line : List ℕ) → replies.IsLine of_locator outcome.now line → ⊥ }
    ensures { LacksLine of_locator outcome.now result }
{
    match locator_line(alloc, outcome) {
        Ok(_) => unreachable!(),
        Err(stop) => stop,
    }
}

/// The line on what a question to a locator came to, if it was a success. Both operations of a locator have the same
/// results.
fn locator_line(alloc: Global, outcome: &Outcome) -> Result<Vec<u8>, Stop>
    ensures { TellsOutcome of_locator outcome.now result }
{
    let schema = locator_schema(alloc)?;
    schema.rules();
    let Some(operation) = schema.operation(0, "findObjectById") else {
        unreachable!()
    };
    let expected = Expected {
        schema: &schema,
        results: &operation.results,
        calls: 1,
    };
    let line = outcome_line(alloc, expected, outcome);
    drop(schema);
    line
}

/// The line on an outcome that is a success, or what stops the call.
fn outcome_line(alloc: Global, expected: Expected<'_>, outcome: &Outcome) -> Result<Vec<u8>, Stop>
    requires { ShapeFits expected.schema.now expected.results.now }
    ensures { TellsOutcome (expected_of expected.entry) outcome.now result }
{
    match outcome {
        Outcome::Replied(answer) => answer_line(alloc, expected, answer),
        Outcome::Sent => Ok(sent_line(alloc, expected.calls)?),
        Outcome::NetFailed => Err(Stop::NetFailed),
        Outcome::Ended => Err(Stop::Ended(Reason::Ended)),
        Outcome::Closed => Err(Stop::Ended(Reason::Closed)),
        Outcome::Broke(fault) => Err(Stop::Ended(Reason::Broke(*fault))),
        Outcome::NoEndpoint => Err(Stop::Ended(Reason::NoEndpoint)),
    }
}

/// `sent N`
fn sent_line(alloc: Global, calls: u32) -> Result<Vec<u8>, AllocError>
    ensures { IfOk result (λ line. line.items ≡ spec.sent_line calls) }
{
    let mut digits = Buffer::new();
    let mut line = Vec::new(alloc);
    line.extend_from_slice("sent ".as_bytes())?;
    line.extend_from_slice(digits.format(calls).as_bytes())?;
    line.extend_from_slice("\n".as_bytes())?;
    Ok(line)
}

/// The line on an answer, or what stops the call.
fn answer_line(alloc: Global, expected: Expected<'_>, answer: &Answer) -> Result<Vec<u8>, Stop>
    requires { ShapeFits expected.schema.now expected.results.now }
    ensures { TellsOutcome (expected_of expected.entry) (outcomes.Replied answer.now) result }
{
    match answer {
        Answer::Done(body) => results_line(alloc, expected, body.as_slice()),
        Answer::Raised(body) => Err(raised(alloc, expected.schema, body.as_slice())),
        Answer::Missing { status, .. } => Err(Stop::Ended(Reason::Missing(*status))),
        Answer::Unknown { status, text } => {
            let text = quote(alloc, text.as_str())?;
            Err(Stop::Ended(Reason::Unknown {
                status: *status,
                text,
            }))
        }
    }
}

/// The results in JSON, on a line, or what stops the call.
fn results_line(alloc: Global, expected: Expected<'_>, body: &[u8]) -> Result<Vec<u8>, Stop>
    requires { ShapeFits expected.schema.now expected.results.now }
    ensures { TellsBody (expected_of expected.entry) body.now result }
{
    let fields = DeclaredMembers {
        required: expected.results.required.as_slice(),
        optional: expected.results.optional.as_slice(),
    };
    match decode(alloc, expected.schema, fields, body) {
        Ok(graph) => Ok(graph_line(alloc, expected.schema, fields, graph)?),
        Err(fault) => Err(unread(fault)),
    }
}

/// The graph in JSON, on a line.
fn graph_line(
    alloc: Global,
    schema: &Schema,
    fields: DeclaredMembers<'_>,
    graph: Graph,
) -> Result<Vec<u8>, AllocError>
    ensures { IfOk result (λ line. line.items ≡ graph_text schema.now (shape_seen fields.entry) graph ++ codes "\n") }
{
    let mut line = to_text(alloc, schema, fields, graph)?.into_bytes();
    line.push(b'\n')?;
    Ok(line)
}

/// What stops a call whose answer is an exception.
fn raised(alloc: Global, schema: &Schema, body: &[u8]) -> Stop
    ensures { StopsOrMemory (replies.raised schema.now (exception_at schema.now all_slices (whole body.now))) result }
{
    match read_exception(alloc, schema, body) {
        Ok(exception) => of_exception(alloc, schema, &exception),
        Err(fault) => unread(fault),
    }
}

fn of_exception(alloc: Global, schema: &Schema, exception: &UserException) -> Stop
    ensures { StopsOrMemory (replies.raised schema.now (Ok (view_user_exception exception.now))) result }
{
    match Name::of(alloc, first_id(schema, exception.slices.as_slice())) {
        Ok(id) => Stop::Ended(Reason::Raised(id)),
        Err(AllocError) => Stop::Memory,
    }
}

/// The type id of the first slice.
fn first_id<'a>(schema: &'a Schema, slices: &'a [Slice]) -> &'a str
    ensures { result.now ≡ replies.first_id schema.now (view_slices slices.now) }
{
    match slices {
        [] => "",
        [Slice::Known { class, .. }, ..] => id_at(schema, *class),
        [Slice::Unknown(kept), ..] => kept.id.as_str(),
    }
}

/// The type id of the exception at a place, and nothing where none is.
fn id_at(schema: &Schema, at: u32) -> &str
    ensures { result.now ≡ replies.id_in (slice_get schema.now.exceptions at) }
{
    match schema.exceptions().get(at as usize) {
        Some(decl) => decl.id.as_str(),
        None => "",
    }
}

/// What stops a call whose answer is no encapsulation of what is due.
fn unread(fault: ReadFault) -> Stop
    ensures { result ≡ of_read fault }
{
    match fault {
        ReadFault::Broken(fault) => Stop::Ended(Reason::Broke(fault)),
        ReadFault::Memory => Stop::Memory,
    }
}
