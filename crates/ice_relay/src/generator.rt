//! Numbers that are drawn, the same from the same start.

ghost use Rattle.std.specs.Prelude.{◌≡◌, ◌<◌};
ghost use Rattle.ice_relay.specs.Drawn.{after, draw, given, next};

/// A linear congruential generator, by the number that it stands at.
#[derive(Clone, Copy)]
pub(crate) struct Generator {
    pub(crate) number: u32,
}

impl Generator {
    /// Goes one step on, and answers what the number there gives.
    fn step(&mut self) -> u32
        ensures answer { result ≡ given (next self.old.number) }
        ensures number { self.new.number ≡ next self.old.number }
    {
        let number = self.number as u64 * 1_103_515_245 + 12_345;
        self.number = (number % 2_147_483_648) as u32;
        self.number / 65_536
    }

    /// A number below the bound, by two steps.
    pub(crate) fn draw(&mut self, bound: u32) -> u32
        requires { 0 < bound }
        ensures answer { result ≡ draw self.old.number bound }
        ensures below { result < bound }
        ensures number { self.new.number ≡ after self.old.number 2 }
    {
        let high = self.step();
        let low = self.step();
        (high * 32_768 + low) % bound
    }
}
