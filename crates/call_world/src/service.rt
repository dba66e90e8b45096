//! What the laws ask of calls, replies and objects.

ghost use Rattle.call_world.specs.Service.{Rules};

/// Calls, their replies and the objects that answer them, with the rules by which these objects do so.
/// A reply to a dispatched call never has a status of a refusal (2: no such object, 3: no such facet), and
/// a refusal always has one. (Ice manual, "The Ice Protocol", "Reply Status".)
pub trait Service {
    type Call;

    type Reply;

    type Objects;

    ghost rules: { Rules Self.Call Self.Reply Self.Objects };
}
