use call_world::{
    Service, at_most_once, calls_can_succeed, connections_sound, dead_for_good, dispatches_logged,
    idempotent_calls_can_repeat, own_replies, seats_placed,
};

/// Objects that may answer anything: a call is its operation's number, and a reply is its status.
struct Free;

impl Service for Free {
    ghost use Rattle.std.specs.Prelude.{ℕ};
    ghost use Rattle.call_world.specs.Service.{free_rules};

    type Call = u32;

    type Reply = u8;

    type Objects = ();

    ghost rules = { free_rules (λ (status : ℕ). status) };
}

/// The laws are proved from the bound alone; here are a type that meets it, and the law on statuses.
#[test]
fn laws_of_free_objects(_rt: HostRuntime) {
    at_most_once::<Free>();
    own_replies::<Free>();
    dead_for_good::<Free>();
    dispatches_logged::<Free>();
    connections_sound::<Free>();
    seats_placed::<Free>();
    calls_can_succeed::<Free>();
    idempotent_calls_can_repeat::<Free>();
}
