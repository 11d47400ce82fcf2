ghost use Rattle.std.specs.Prelude.{None};

use crate::clock::Clock;
use std::rt;
use std::time::SystemTime;

/// The clock of the system, whose moment isn't known. It says 0 where the system says no time, or one before 1970.
#[derive(Clone, Copy)]
pub struct RealClock<'a, R: rt::Clock> {
    rt: &'a R,
}

impl<'a, R: rt::Clock> RealClock<'a, R> {
    pub fn new(rt: &'a R) -> RealClock<'a, R> {
        RealClock { rt }
    }
}

impl<R: rt::Clock> Clock for RealClock<'_, R> {
    ghost moment = { λ _. None };

    // The whole seconds since the beginning of 1970.
    fn now(&mut self) -> u64 {
        let Ok(now) = SystemTime::now(self.rt) else {
            return 0;
        };
        match now.duration_since(SystemTime::UNIX_EPOCH) {
            Ok(since) => since.as_secs(),
            Err(_) => 0,
        }
    }
}
