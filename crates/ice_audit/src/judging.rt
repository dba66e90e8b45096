//! Both ends of a connection.

ghost use Rattle.std.specs.Prelude.{◌≡◌, ◌<◌, ◌⊎◌, IfOk, IsTrue, Ok, true, false, length};
ghost use Rattle.ice_audit.specs.declared.verdict.Verdict.TheVariants as verdicts;
ghost use Rattle.ice_audit.specs.Readings.{ReadsClient};
ghost use Rattle.ice_audit.specs.Stops.{is_fresh};
ghost use Rattle.ice_audit.specs.Verdicts.{AreShort, Judges};

use crate::client::{Asked, read_client};
use crate::drawing::lines;
use crate::server::read_server;
use crate::stop::{Halt, Stage, Stop};
use crate::verdict::{MOST_BYTES, Side, Verdict, Why};
use ice_prims::Kind;
use ice_types::List;
use std::alloc::{AllocError, Global};

/// What both directions of one connection tell, from its beginning on: these bytes the client sent, and these the
/// server. `No` comes exactly where an end sent more than 16,777,216 bytes, or the capture is no good: an end sent
/// broken bytes, a message of the other end or one behind its close message; or the server did not begin with a
/// validate message; or the replies are not, in order, to the first of the requests that ask for one. What stands in
/// the client's bytes comes first, then what stands in the server's. `Yes` comes exactly elsewhere: then there is a run
/// of the protocol that shows the capture, and in each such run a call is dispatched as often as its line says. (Ice
/// manual, "The Ice Protocol".)
pub fn audit(alloc: Global, client: &[u8], server: &[u8]) -> Result<Verdict, AllocError>
    ensures { IfOk result (Judges client.now server.now) }
{
    let too_long = Stop {
        place: 0,
        why: Why::TooLong,
    };
    if client.len() > MOST_BYTES {
        return Ok(refused(Side::Client, too_long));
    }
    if server.len() > MOST_BYTES {
        return Ok(refused(Side::Server, too_long));
    }
    match read_client(alloc, client) {
        Ok(asked) => judge(alloc, client, server, &asked),
        Err(Halt::Found(stop)) => Ok(refused(Side::Client, stop)),
        Err(Halt::Memory) => Err(AllocError),
    }
}

/// Where nothing is wrong with the client's bytes alone.
fn judge(alloc: Global, client: &[u8], server: &[u8], asked: &Asked) -> Result<Verdict, AllocError>
    requires short { AreShort client.now server.now }
    requires asked { ReadsClient client.now (Ok asked.now) }
    ensures { IfOk result (Judges client.now server.now) }
{
    let answered = match read_server(alloc, server, asked.due.as_slice()) {
        Ok(answered) => answered,
        Err(Halt::Found(stop)) => return Ok(refused(Side::Server, stop)),
        Err(Halt::Memory) => return Err(AllocError),
    };
    if is_silent(answered.stage, client) {
        return Ok(refused(
            Side::Client,
            Stop {
                place: 0,
                why: Why::Bytes(Kind::NotValidated),
            },
        ));
    }
    let closed = answered.stage.is_closed();
    let lines = lines(
        alloc,
        asked.posed.as_slice(),
        answered.statuses.as_slice(),
        closed,
    )?;
    Ok(Verdict::Yes(List::from_vec(lines)))
}

/// Whether the server has sent no message, though the client has sent something.
fn is_silent(stage: Stage, client: &[u8]) -> bool
    ensures silent { IsTrue result → (is_fresh stage ≡ true) × (0 < length client.now) }
    ensures heard { (is_fresh stage ≡ false) ⊎ (length client.now ≡ 0) ⊎ IsTrue result }
{
    stage.is_fresh() && client.len() > 0
}

/// What is wrong with the bytes of this end.
fn refused(side: Side, stop: Stop) -> Verdict
    ensures { result ≡ verdicts.No side stop.place stop.why }
{
    Verdict::No {
        side,
        place: stop.place,
        why: stop.why,
    }
}
