//! The world that is played: calls, each with its client, and connections, each with its server.

ghost use Rattle.std.specs.Prelude.{◌≡◌, OnErr};

use crate::event::{Event, Form};
use crate::refusal::Refusal;
use crate::told::Told;
use ice_types::List;
use retry_core::{Client, ClientAction, ClientEvent, Server, ServerAction, ServerEvent};
use std::alloc::Global;
use std::marker::Model;

/// A message that a server sent.
#[derive(Clone, Copy)]
pub enum Message {
    Validate,
    Reply,
    NoObject,
    Close,
}

/// One invocation.
#[derive(Drop)]
pub struct Call {
    pub client: Client,
    pub length: u64,
    pub form: Form,
    /// How often calls of its message were dispatched.
    pub dispatches: u64,
    /// The connection that its client is at.
    pub connection: Option<usize>,
}

/// The connection of one attempt.
#[derive(Drop)]
pub struct Connection {
    pub call: usize,
    /// Its place came from a cache.
    pub is_cached: bool,
    pub server: Server,
    pub handed: u64,
    pub arrived: u64,
    /// The message had its turn.
    pub had_turn: bool,
    /// The reply that the server sends then, where one is asked.
    pub reply: Option<Message>,
    pub sent: List<Message>,
    /// How many of these the client has read.
    pub read: usize,
}

impl Connection {
    /// What the server sends where this comes.
    fn message_at(&self, event: ServerEvent) -> Option<Message> {
        match event {
            ServerEvent::Opened => Some(Message::Validate),
            ServerEvent::Answered => self.reply,
            ServerEvent::EnoughRead => Some(Message::Close),
            _ => None,
        }
    }
}

/// Calls and connections, by their numbers.
#[derive(Drop)]
pub struct World {
    calls: Vec<Call>,
    connections: Vec<Connection>,
}

impl Model for World {
    ghost use Rattle.workbench.specs.Played.{Played};

    ghost Value = { Played };

    ghost view = { λ w. record { calls = w.calls.items; connections = w.connections.items } };
}

impl World {
    /// The world before the first event.
    pub fn new(alloc: Global) -> World {
        World {
            calls: Vec::new(alloc),
            connections: Vec::new(alloc),
        }
    }

    /// The calls, by their numbers.
    pub fn calls(&self) -> &[Call]
        ensures { result.now ≡ self.now.calls }
    {
        self.calls.as_slice()
    }

    /// The event happens. Where it cannot, the world stays as it was.
    pub fn play(&mut self, alloc: Global, event: Event) -> Result<Told, Refusal>
        ensures { OnErr result (self.new ≡ self.old) }
    {
        match event {
            Event::Call {
                length,
                retries,
                form,
            } => self.begin(alloc, length, retries, form),
            Event::Connect { call, is_cached } => self.connect(alloc, call, is_cached),
            Event::Fail(call) => self.tell(call, ClientEvent::ConnectFailed),
            Event::Hand(connection, bytes) => self.hand(connection, bytes),
            Event::Arrive(connection, bytes) => self.arrive(connection, bytes),
            Event::Read(connection) => self.read(connection),
            Event::Lose(connection) => {
                let call = self.client_at(connection)?;
                self.tell(call, ClientEvent::Lost)
            }
            Event::Dispatch(connection) => self.dispatch(connection),
            Event::Refuse(connection) => self.refuse(connection),
            Event::Validate(connection) => self.serve(connection, ServerEvent::Opened),
            Event::Answer(connection) => self.serve(connection, ServerEvent::Answered),
            Event::Close(connection) => self.serve(connection, ServerEvent::EnoughRead),
            Event::Leave(connection) => self.serve(connection, ServerEvent::Lost),
        }
    }

    fn begin(
        &mut self,
        alloc: Global,
        length: u64,
        retries: u32,
        form: Form,
    ) -> Result<Told, Refusal>
        ensures { OnErr result (self.new ≡ self.old) }
    {
        let call = self.calls.len();
        self.calls.push(Call {
            client: Client::new(alloc, form.is_idempotent, form.replies, length, retries)?,
            length,
            form,
            dispatches: 0,
            connection: None,
        })?;
        Ok(Told::Begun { call })
    }

    fn connect(&mut self, alloc: Global, number: usize, is_cached: bool) -> Result<Told, Refusal>
        ensures { OnErr result (self.new ≡ self.old) }
    {
        let connection = self.connections.len();
        let Some(call) = self.calls.get_mut(number) else {
            return Err(Refusal::NoCall(number));
        };
        if !call.client.accepts(ClientEvent::Connected) {
            return Err(Refusal::NotToClient(number));
        }
        self.connections.push(Connection {
            call: number,
            is_cached,
            server: Server::new(),
            handed: 0,
            arrived: 0,
            had_turn: false,
            reply: None,
            sent: List::new(alloc),
            read: 0,
        })?;
        call.client.step(ClientEvent::Connected);
        call.connection = Some(connection);
        Ok(Told::Connected {
            call: number,
            connection,
        })
    }

    /// The call whose client is at this connection.
    fn client_at(&self, number: usize) -> Result<usize, Refusal> {
        let Some(connection) = self.connections.get(number) else {
            return Err(Refusal::NoConnection(number));
        };
        match self.calls.get(connection.call) {
            Some(call) if call.connection == Some(number) => Ok(connection.call),
            _ => Err(Refusal::ClientLeft(number)),
        }
    }

    /// The client of a call is told what came. Where its attempt ends by that, it leaves its connection.
    fn tell(&mut self, number: usize, event: ClientEvent) -> Result<Told, Refusal>
        ensures { OnErr result (self.new ≡ self.old) }
    {
        let Some(call) = self.calls.get_mut(number) else {
            return Err(Refusal::NoCall(number));
        };
        if !call.client.accepts(event) {
            return Err(Refusal::NotToClient(number));
        }
        let action = call.client.step(event);
        match (action, call.client.attempts().last().copied()) {
            (ClientAction::Connect | ClientAction::Finish(_), Some(attempt)) => {
                call.connection = None;
                Ok(Told::Ended {
                    call: number,
                    attempt,
                    action,
                })
            }
            _ => Ok(Told::Client {
                call: number,
                action,
            }),
        }
    }

    /// The connection takes so many bytes more from its client.
    fn hand(&mut self, number: usize, bytes: u64) -> Result<Told, Refusal>
        ensures { OnErr result (self.new ≡ self.old) }
    {
        let call = self.client_at(number)?;
        let told = self.tell(call, ClientEvent::Taken(bytes))?;
        if let Some(connection) = self.connections.get_mut(number) {
            connection.handed = connection.handed.saturating_add(bytes);
        }
        Ok(told)
    }

    /// So many bytes more of those handed over reach the server.
    fn arrive(&mut self, number: usize, bytes: u64) -> Result<Told, Refusal>
        ensures { OnErr result (self.new ≡ self.old) }
    {
        let Some(connection) = self.connections.get_mut(number) else {
            return Err(Refusal::NoConnection(number));
        };
        if !connection.server.accepts(ServerEvent::Lost) {
            return Err(Refusal::NotToServer(number));
        }
        let arrived = connection.arrived.saturating_add(bytes);
        if arrived > connection.handed {
            return Err(Refusal::NotHanded {
                handed: connection.handed,
                arrived: connection.arrived,
            });
        }
        connection.arrived = arrived;
        Ok(Told::Arrived {
            connection: number,
            bytes: arrived,
        })
    }

    /// The message that the client of a connection reads next, as its client is told of it.
    fn unread(&self, number: usize) -> Result<ClientEvent, Refusal> {
        let Some(connection) = self.connections.get(number) else {
            return Err(Refusal::NoConnection(number));
        };
        match connection.sent.get(connection.read) {
            Some(Message::Validate) => Ok(ClientEvent::Validated),
            Some(Message::Reply) => Ok(ClientEvent::ReplyRead),
            Some(Message::NoObject) => Ok(ClientEvent::Refused2 {
                cached: connection.is_cached,
            }),
            Some(Message::Close) => Ok(ClientEvent::CloseRead),
            None => Err(Refusal::NothingSent(number)),
        }
    }

    /// The client reads the next message of its connection.
    fn read(&mut self, number: usize) -> Result<Told, Refusal>
        ensures { OnErr result (self.new ≡ self.old) }
    {
        let call = self.client_at(number)?;
        let event = self.unread(number)?;
        let told = self.tell(call, event)?;
        if let Some(connection) = self.connections.get_mut(number) {
            connection.read = connection.read.saturating_add(1);
        }
        Ok(told)
    }

    /// The server reads the message, which has arrived whole, and will answer it so, where it asks for a reply.
    /// Returns its call.
    fn take_turn(&mut self, number: usize, reply: Message) -> Result<usize, Refusal>
        ensures { OnErr result (self.new ≡ self.old) }
    {
        let Some(connection) = self.connections.get_mut(number) else {
            return Err(Refusal::NoConnection(number));
        };
        let (length, form) = match self.calls.get(connection.call) {
            Some(call) => (call.length, call.form),
            None => return Err(Refusal::NoCall(connection.call)),
        };
        if connection.had_turn {
            return Err(Refusal::HadItsTurn(number));
        }
        if connection.arrived < length {
            return Err(Refusal::NotWhole {
                length,
                arrived: connection.arrived,
            });
        }
        let event = ServerEvent::Request {
            calls: form.calls,
            reply: form.replies,
        };
        if !connection.server.accepts(event) {
            return Err(Refusal::NotToServer(number));
        }
        connection.server.step(event);
        connection.had_turn = true;
        connection.reply = if form.replies { Some(reply) } else { None };
        Ok(connection.call)
    }

    fn dispatch(&mut self, number: usize) -> Result<Told, Refusal>
        ensures { OnErr result (self.new ≡ self.old) }
    {
        let call = self.take_turn(number, Message::Reply)?;
        self.count_dispatch(call);
        Ok(Told::Dispatched {
            call,
            connection: number,
        })
    }

    fn count_dispatch(&mut self, call: usize) {
        if let Some(it) = self.calls.get_mut(call) {
            it.dispatches = it.dispatches.saturating_add(1);
        }
    }

    fn refuse(&mut self, number: usize) -> Result<Told, Refusal>
        ensures { OnErr result (self.new ≡ self.old) }
    {
        let call = self.take_turn(number, Message::NoObject)?;
        Ok(Told::NoObject {
            call,
            connection: number,
        })
    }

    /// The server of a connection is told what came, and sends what it then sends.
    fn serve(&mut self, number: usize, event: ServerEvent) -> Result<Told, Refusal>
        ensures { OnErr result (self.new ≡ self.old) }
    {
        let Some(connection) = self.connections.get_mut(number) else {
            return Err(Refusal::NoConnection(number));
        };
        if !connection.server.accepts(event) {
            return Err(Refusal::NotToServer(number));
        }
        if let Some(message) = connection.message_at(event) {
            connection.sent.push(message)?;
        }
        let action = connection.server.step(event);
        let call = connection.call;
        if action == ServerAction::Dispatch {
            self.count_dispatch(call);
        }
        Ok(Told::Server {
            connection: number,
            action,
        })
    }
}
