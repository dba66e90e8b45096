use Attempt::{Closed, Lost, NotConnected, NotWhole, Replied, Sent, Stale};
use ClientAction::{AwaitReply, AwaitValidate, Connect, Finish, Send};
use ClientEvent::{CloseRead, ConnectFailed, Connected, Refused2, ReplyRead, Taken, Validated};
use retry_core::{Attempt, Client, ClientAction, ClientEvent, Server, ServerAction, ServerEvent};
use std::test::Fail;

/// What comes, and what the client does then.
type Steps = &'static [(ClientEvent, ClientAction)];

/// Calls of `add`, which is not idempotent, and of `total`, which is, with a request of 38 bytes: whether it
/// is idempotent, its retries, what comes, and the attempts.
const CALLS: &[(bool, u32, Steps, &[Attempt])] = &[
    // The first link takes 37 bytes and fails, the second all of them and gives the reply.
    (
        false,
        1,
        &[
            (Connected, AwaitValidate),
            (Validated, Send),
            (Taken(37), Send),
            (ClientEvent::Lost, Connect),
            (Connected, AwaitValidate),
            (Validated, Send),
            (Taken(38), AwaitReply),
            (ReplyRead, Finish(Replied)),
        ],
        &[NotWhole, Replied],
    ),
    // The link takes 38 bytes and fails its read.
    (
        false,
        2,
        &[
            (Connected, AwaitValidate),
            (Validated, Send),
            (Taken(38), AwaitReply),
            (ClientEvent::Lost, Finish(Lost)),
        ],
        &[Lost],
    ),
    // Three links do so, and the call is idempotent.
    (
        true,
        2,
        &[
            (Connected, AwaitValidate),
            (Validated, Send),
            (Taken(38), AwaitReply),
            (ClientEvent::Lost, Connect),
            (Connected, AwaitValidate),
            (Validated, Send),
            (Taken(38), AwaitReply),
            (ClientEvent::Lost, Connect),
            (Connected, AwaitValidate),
            (Validated, Send),
            (Taken(38), AwaitReply),
            (ClientEvent::Lost, Finish(Lost)),
        ],
        &[Lost, Lost, Lost],
    ),
    // The first link gives a close, the second the reply.
    (
        false,
        1,
        &[
            (Connected, AwaitValidate),
            (Validated, Send),
            (Taken(38), AwaitReply),
            (CloseRead, Connect),
            (Connected, AwaitValidate),
            (Validated, Send),
            (Taken(20), Send),
            (Taken(18), AwaitReply),
            (Validated, AwaitReply),
            (ReplyRead, Finish(Replied)),
        ],
        &[Closed, Replied],
    ),
    // The same with no retry.
    (
        false,
        0,
        &[
            (Connected, AwaitValidate),
            (Validated, Send),
            (Taken(38), AwaitReply),
            (CloseRead, Finish(Closed)),
        ],
        &[Closed],
    ),
    // A connect that fails, and a cached place without the object.
    (
        false,
        2,
        &[
            (ConnectFailed, Connect),
            (Connected, AwaitValidate),
            (Validated, Send),
            (Taken(38), AwaitReply),
            (Refused2 { cached: true }, Connect),
            (Connected, AwaitValidate),
            (Validated, Send),
            (Taken(38), AwaitReply),
            (Refused2 { cached: false }, Finish(Replied)),
        ],
        &[NotConnected, Stale, Replied],
    ),
];

/// Whether the event can come, and the client does this then.
fn does(client: &mut Client, event: ClientEvent, action: ClientAction) -> bool {
    client.accepts(event) && client.step(event) == action
}

/// The first step that cannot come, or at which the client does something else.
fn other_step(client: &mut Client, steps: &[(ClientEvent, ClientAction)]) -> Option<usize> {
    for (at, (event, action)) in steps.iter().enumerate() {
        if !does(client, *event, *action) {
            return Some(at);
        }
    }
    None
}

#[test]
fn clients(rt: HostRuntime) -> Result<(), Fail> {
    for (at, &(idempotent, retries, steps, attempts)) in CALLS.iter().enumerate() {
        let mut client = Client::new(rt.alloc(), idempotent, true, 38, retries)?;
        assert_eq!(rt; other_step(&mut client, steps), None, "in call {at}");
        assert_eq!(rt; client.attempts(), attempts, "after call {at}");
    }
    Ok(())
}

/// A call that asks for no reply, of 36 bytes: 35 of them are taken, and then all.
#[test]
fn oneways(rt: HostRuntime) -> Result<(), Fail> {
    let steps = [
        (Connected, AwaitValidate),
        (Validated, Send),
        (Taken(35), Send),
        (ClientEvent::Lost, Connect),
        (Connected, AwaitValidate),
        (Validated, Send),
        (Taken(36), Finish(Sent)),
    ];
    let mut client = Client::new(rt.alloc(), false, false, 36, 1)?;
    assert_eq!(rt; other_step(&mut client, &steps), None);
    assert_eq!(rt;
        client.into_attempts().as_slice(),
        [NotWhole, Sent].as_slice()
    );
    Ok(())
}

/// One call that asks for a reply, as it is read.
const REQUEST: ServerEvent = ServerEvent::Request {
    calls: 1,
    reply: true,
};

/// No call, and two, that ask for none.
const BATCH_OF_NONE: ServerEvent = ServerEvent::Request {
    calls: 0,
    reply: false,
};

const BATCH_OF_TWO: ServerEvent = ServerEvent::Request {
    calls: 2,
    reply: false,
};

/// Connections, each up to where the server leaves: what comes, and what the server does then.
const CONNECTIONS: &[&[(ServerEvent, ServerAction)]] = &[
    &[
        (ServerEvent::Opened, ServerAction::SendValidate),
        (REQUEST, ServerAction::Dispatch),
        (ServerEvent::Answered, ServerAction::SendReply),
        (ServerEvent::Heartbeat, ServerAction::Read),
        (ServerEvent::EnoughRead, ServerAction::SendClose),
    ],
    &[
        (ServerEvent::Opened, ServerAction::SendValidate),
        (REQUEST, ServerAction::Dispatch),
        (ServerEvent::Lost, ServerAction::Leave),
    ],
    &[
        (ServerEvent::Opened, ServerAction::SendValidate),
        (ServerEvent::CloseRead, ServerAction::Leave),
    ],
    &[
        (ServerEvent::Opened, ServerAction::SendValidate),
        (BATCH_OF_NONE, ServerAction::Read),
        (BATCH_OF_TWO, ServerAction::Dispatch),
        (ServerEvent::Answered, ServerAction::Dispatch),
        (ServerEvent::Answered, ServerAction::Read),
        (ServerEvent::EnoughRead, ServerAction::SendClose),
    ],
];

/// The first step that cannot come, or at which the server does something else.
fn other_turn(server: &mut Server, steps: &[(ServerEvent, ServerAction)]) -> Option<usize> {
    for (at, (event, action)) in steps.iter().enumerate() {
        if !server.accepts(*event) || server.step(*event) != *action {
            return Some(at);
        }
    }
    None
}

#[test]
fn servers(rt: HostRuntime) {
    for (at, &steps) in CONNECTIONS.iter().enumerate() {
        let mut server = Server::new();
        assert_eq!(rt; other_turn(&mut server, steps), None, "in connection {at}");
        assert!(rt; !server.accepts(ServerEvent::Lost) && !server.accepts(REQUEST));
    }
}

#[test]
fn what_cannot_come(rt: HostRuntime) -> Result<(), Fail> {
    let mut client = Client::new(rt.alloc(), false, true, 38, 0)?;
    assert!(rt; !client.accepts(ReplyRead) && !client.accepts(ClientEvent::Lost));
    client.step(Connected);
    client.step(Validated);
    assert!(rt; client.accepts(Taken(38)) && !client.accepts(Taken(39)));
    assert!(rt; !client.accepts(ReplyRead) && !client.accepts(Taken(u64::MAX)));
    assert!(rt; !Server::new().accepts(REQUEST));
    Ok(())
}
