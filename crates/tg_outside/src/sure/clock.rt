ghost use Rattle.std.specs.Prelude.{◌≡◌, Some};

use crate::clock::Clock;

/// A clock that stands.
#[derive(Clone, Copy, Debug)]
pub struct FixedClock {
    moment: u64,
}

impl FixedClock {
    /// It stands at this moment.
    pub fn new(moment: u64) -> FixedClock
        ensures { ⟦<FixedClock as Clock>⟧.moment result ≡ Some moment }
    {
        FixedClock { moment }
    }
}

impl Clock for FixedClock {
    ghost moment = { λ it. Some it.moment };

    fn now(&mut self) -> u64 {
        self.moment
    }
}
