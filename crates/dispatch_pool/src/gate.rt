//! What stands round the answer of an object.

use ice_messages::Call;
use turnstile::Around;

/// What is called inside a turn, round the answer of the object.
pub trait Gate: Sync {
    /// The object has its turn, and has not answered yet.
    fn before(&self, call: &Call);

    /// The object has answered, and its turn is not passed on yet.
    fn after(&self, call: &Call);
}

/// A gate that does nothing.
#[derive(Clone, Copy, Drop)]
pub struct OpenGate;

impl Gate for OpenGate {
    fn before(&self, _call: &Call) {}

    fn after(&self, _call: &Call) {}
}

/// A gate, as what stands round a turn.
#[derive(Drop)]
pub(crate) struct AtGate<'a, G: Gate> {
    pub(crate) gate: &'a G,
}

impl<G: Gate> Around<Call> for AtGate<'_, G> {
    fn before(&self, call: &Call) {
        self.gate.before(call);
    }

    fn after(&self, call: &Call) {
        self.gate.after(call);
    }
}
