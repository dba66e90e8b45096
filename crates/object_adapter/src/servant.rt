//! An object of a server.

ghost use Rattle.std.specs.Prelude.{◌≡◌, ◌<◌, IfOk, OnErr, length};
ghost use Rattle.std.specs.Arc.{arc_value};
ghost use Rattle.object_adapter.specs.Refusals.{Outcome};
ghost use Rattle.object_adapter.specs.Replies.{CanReply, IsReply};
ghost use Rattle.object_adapter.specs.Servants.{Acts, Answered, IsNewEcho, IsNewLocator, IsNewStore, Refuses};
ghost use Rattle.object_adapter.specs.Servants.{interface_of, tables_of};

use crate::echo::Echo;
use crate::locator::Locator;
use crate::own::{act_own, own_of};
use crate::places::Places;
use crate::refusal::Unanswered;
use crate::store::Store;
use crate::telling::tell;
use ice_messages::{Answer, Call};
use ice_types::Schema;
use std::alloc::{AllocError, Global};
use std::sync::Arc;

/// An object of a server, by what it does.
pub enum Servant {
    Store(Store),
    Echo(Echo),
    Locator(Locator),
}

impl Drop for Servant {
    fn drop(self) {
        match self {
            Servant::Store(store) => drop(store),
            Servant::Echo(echo) => drop(echo),
            Servant::Locator(locator) => drop(locator),
        }
    }
}

impl Servant {
    /// A store of the interface at this place, which keeps the number 0 and the value of zeros.
    pub fn store(alloc: Global, schema: Arc<Schema>, interface: u32) -> Result<Servant, AllocError>
        ensures { IfOk result (IsNewStore (arc_value schema) interface) }
    {
        Ok(Servant::Store(Store::new(alloc, schema, interface)?))
    }

    /// An echo of the interface at this place. It takes no memory.
    pub fn echo(schema: Arc<Schema>, interface: u32) -> Servant
        ensures { IsNewEcho (arc_value schema) interface result }
    {
        Servant::Echo(Echo { schema, interface })
    }

    /// A locator that knows these places.
    pub fn locator(alloc: Global, places: Places) -> Result<Servant, AllocError>
        ensures { IfOk result (IsNewLocator places) }
    {
        Ok(Servant::Locator(Locator::new(alloc, places)?))
    }

    /// What the object answers to a call. A reply with the answer is no longer than a message may be, where the call
    /// came in a message. Out of memory changes nothing.
    #[tactic(auto, using(crate::proofs::Short::replies))]
    pub fn answer(&mut self, alloc: Global, call: &Call) -> Result<Answer, AllocError>
        ensures ok { IfOk result (λ answer. Answered self.old call.now answer self.new) }
        ensures writable { IfOk result (CanReply call.now) }
        ensures err { OnErr result (self.new ≡ self.old) }
    {
        match self.act(alloc, call) {
            Ok(answer) => Ok(answer),
            Err(Unanswered::Refused(refusal)) => tell(alloc, call, refusal),
            Err(Unanswered::Memory) => Err(AllocError),
        }
    }

    /// What the operation of a call gives, or why the call is refused. A refusal changes nothing.
    fn act(&mut self, alloc: Global, call: &Call) -> Result<Answer, Unanswered>
        ensures acts { Outcome (λ answer. Acts self.old call.now answer self.new) (Refuses self.old call.now) result }
        ensures writable { IfOk result IsReply }
        ensures err { OnErr result (self.new ≡ self.old) }
    {
        if let Some(own) = own_of(call.operation.as_str()) {
            let results = act_own(alloc, self.schema(), self.interface(), own, call)?;
            return Ok(results.done());
        }
        match self {
            Servant::Store(store) => Ok(store.act(alloc, call)?.done()),
            Servant::Echo(echo) => Ok(echo.act(alloc, call)?.done()),
            Servant::Locator(locator) => locator.act(alloc, call),
        }
    }

    /// The schema of its interface.
    fn schema(&self) -> &Schema
        ensures { result.now ≡ tables_of self.now }
    {
        match self {
            Servant::Store(store) => &store.schema,
            Servant::Echo(echo) => &echo.schema,
            Servant::Locator(locator) => &locator.schema,
        }
    }

    /// The place of its interface.
    fn interface(&self) -> u32
        ensures { result ≡ interface_of self.now }
    {
        match self {
            Servant::Store(store) => store.interface,
            Servant::Echo(echo) => echo.interface,
            Servant::Locator(_) => 0,
        }
    }
}
