//! A locator: an object that tells where objects and adapters are. (Ice manual, "Locators".)

ghost use Rattle.std.specs.Prelude.{◌≡◌};
ghost use Rattle.locator_types.specs.Locator.{locator_tables};

use crate::admitting::admit;
use crate::arguments::{sole_identity, sole_text};
use crate::places::Places;
use crate::refusal::{Refusal, Unanswered};
use crate::seeking::{Sought, not_found_answer, proxy_answer, sought_of, sought_shape};
use graph_arena::Graph;
use ice_messages::{Answer, Call};
use ice_types::{Proxy, Schema, Shape};
use locator_types::locator_schema;
use std::alloc::{AllocError, Global};

/// An object that tells where objects and adapters are.
#[derive(Drop)]
pub struct Locator {
    pub schema: Schema,
    pub places: Places,
    pub ghost declared: { schema ≡ locator_tables },
}

impl Locator {
    ghost use Rattle.std.specs.Prelude.{IfOk, MatchOption, Some};
    ghost use Rattle.ice_types.specs.declared.proxy.Proxy as proxies;
    ghost use Rattle.ice_encoding.specs.Proxy.{HasProxySizes};
    ghost use Rattle.ice_encoding.specs.TypedGraph.{OfType};
    ghost use Rattle.value_parts.specs.Shapes.{told_apart};
    ghost use Rattle.object_adapter.specs.Refusals.{Outcome};
    ghost use Rattle.object_adapter.specs.Replies.{IsReply};
    ghost use Rattle.object_adapter.specs.Locators.{Acts, Gives, IsNamed, IsSought, Overflows, Refuses};
    ghost use Rattle.object_adapter.specs.Locators.{sought_shape};

    /// A locator that knows these places.
    pub fn new(alloc: Global, places: Places) -> Result<Locator, AllocError>
        ensures { IfOk result (λ locator. locator.places ≡ places) }
    {
        match locator_schema(alloc) {
            Ok(schema) => Ok(Locator { schema, places }),
            Err(error) => {
                drop(places);
                Err(error)
            }
        }
    }

    /// What a locator gives at a call, or why the call is refused.
    pub(crate) fn act(&self, alloc: Global, call: &Call) -> Result<Answer, Unanswered>
        ensures acts { Outcome (Acts self.now.places call.now) (Refuses self.now.places call.now) result }
        ensures writable { IfOk result IsReply }
    {
        let Some(sought) = sought_of(call.operation.as_str()) else {
            return Err(Unanswered::Refused(Refusal::NoOperation));
        };
        let shape = sought_shape(alloc, sought)?;
        let answer = self.find(alloc, sought, &shape, call);
        drop(shape);
        answer
    }

    /// What a locator gives at a call that seeks this, or why the call is refused.
    fn find(
        &self,
        alloc: Global,
        sought: Sought,
        shape: &Shape,
        call: &Call,
    ) -> Result<Answer, Unanswered>
        requires named { IsNamed call.now.operation sought }
        requires shape { shape.now ≡ sought_shape sought }
        ensures acts { Outcome (Acts self.now.places call.now) (Refuses self.now.places call.now) result }
        ensures writable { IfOk result IsReply }
    {
        let arguments = admit(alloc, &self.schema, true, shape, call)?;
        let answer = self.give(alloc, sought, &arguments);
        drop(arguments);
        answer
    }

    /// The proxy of what these arguments seek, or the exception that says that its place is not known.
    fn give(&self, alloc: Global, sought: Sought, arguments: &Graph) -> Result<Answer, Unanswered>
        requires { OfType locator_tables (told_apart (sought_shape sought)) arguments.now }
        ensures gives { Outcome (Gives self.now.places sought arguments.now)
            (Overflows self.now.places sought arguments.now) result }
        ensures writable { IfOk result IsReply }
    {
        match self.place_of(alloc, sought, arguments)? {
            Some(proxy) => proxy_answer(alloc, proxy),
            None => not_found_answer(alloc, &self.schema, sought),
        }
    }

    /// The proxy of what these arguments seek.
    fn place_of(
        &self,
        alloc: Global,
        sought: Sought,
        arguments: &Graph,
    ) -> Result<Option<&Proxy>, AllocError>
        requires { OfType locator_tables (told_apart (sought_shape sought)) arguments.now }
        ensures { IfOk result (λ found. MatchOption found
            ((p : proxies.Proxy) → IsSought self.now.places sought arguments.now p → ⊥)
            (λ p. IsSought self.now.places sought arguments.now p.now × HasProxySizes (Some p.now))) }
    {
        match sought {
            Sought::Object => {
                let identity = sole_identity(alloc, arguments)?;
                Ok(self.places.object(&identity))
            }
            Sought::Adapter => Ok(self.places.adapter(sole_text(arguments))),
        }
    }
}
