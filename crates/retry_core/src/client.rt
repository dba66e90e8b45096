//! The client's end of one message.

ghost use Rattle.std.specs.Prelude.{◌≡◌, IfOk, IsTrue, Some, ◌↔◌};
ghost use Rattle.retry_core.specs.Client.{began, running, ended, row_of, MayCome, next_of, action_of};

use crate::attempt::Attempt;
use crate::client_table::{ClientAction, ClientEvent, ClientNext, ClientState, next};
use std::alloc::{AllocError, Global};
use std::marker::Model;

/// The client's end of one message, a call or several that ask for no reply: told what came, it answers what to
/// do next, and lists how each attempt ended. (Ice manual, "Automatic Retries".)
#[derive(Drop)]
pub struct Client {
    idempotent: bool,
    replies: bool,
    length: u64,
    retries: u32,
    state: ClientState,
    attempts: Vec<Attempt>,
}

impl Model for Client {
    ghost use Rattle.std.specs.Prelude.{◌+◌, ◌≤◌, vec_len, vec_capacity};
    ghost use Rattle.retry_core.specs.Client.{Invoking, running};

    ghost Value = { Invoking };

    ghost view = { λ c. record {
      idempotent = c.idempotent;
      replies = c.replies;
      length = c.length;
      retries = c.retries;
      state = c.state;
      attempts = c.attempts.items;
    } };

    ghost invariant = { λ c. vec_len c.attempts + c.retries + running c.state ≤ vec_capacity c.attempts };
}

impl Client {
    /// The client of a message of `length` bytes, which asks for a reply or not and may be tried again `retries`
    /// times. Its first action is `ClientAction::Connect`. Takes room for every attempt: one byte for each.
    pub fn new(
        alloc: Global,
        idempotent: bool,
        replies: bool,
        length: u64,
        retries: u32,
    ) -> Result<Client, AllocError>
        ensures { IfOk result (λ c. c ≡ began idempotent replies length retries) }
    {
        let attempts = Vec::with_capacity(alloc, retries as usize + 1)?;
        Ok(Client {
            idempotent,
            replies,
            length,
            retries,
            state: ClientState::Connecting,
            attempts,
        })
    }

    /// Whether the event can come now.
    pub fn accepts(&self, event: ClientEvent) -> bool
        ensures { IsTrue result ↔ MayCome self.now event }
    {
        next(self.state, self.replies, self.length, event).is_some()
    }

    /// What to do next, now that this has come. Takes no memory.
    pub fn step(&mut self, event: ClientEvent) -> ClientAction
        requires { MayCome self.old event }
        ensures state { self.new ≡ next_of self.old (row_of self.old event) }
        ensures action { result ≡ action_of self.old (row_of self.old event) }
    {
        match next(self.state, self.replies, self.length, event) {
            Some(ClientNext::Goes(state, action)) => {
                self.state = state;
                action
            }
            Some(ClientNext::Ends(attempt)) => self.end(attempt),
            None => unreachable!(),
        }
    }

    /// The attempt is over: another follows where the rules allow it and a retry is left.
    fn end(&mut self, attempt: Attempt) -> ClientAction
        requires { running self.old.state ≡ 1 }
        ensures state { self.new ≡ ended self.old attempt }
        ensures action { result ≡ action_of self.old (Some (ClientNext.Ends attempt)) }
    {
        self.attempts.push_reserved(attempt);
        if attempt.may_be_followed(self.idempotent) && self.retries > 0 {
            self.retries -= 1;
            self.state = ClientState::Connecting;
            ClientAction::Connect
        } else {
            self.state = ClientState::Finished;
            ClientAction::Finish(attempt)
        }
    }

    /// How each attempt ended, in order, but for one that is under way.
    pub fn attempts(&self) -> &[Attempt]
        ensures { result.now ≡ self.now.attempts }
    {
        self.attempts.as_slice()
    }

    /// How each attempt ended, in order, but for one that is under way. Takes no memory.
    pub fn into_attempts(self) -> Vec<Attempt>
        ensures { result.items ≡ self.attempts }
    {
        self.attempts
    }
}
