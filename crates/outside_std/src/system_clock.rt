ghost use Rattle.std.specs.Prelude.{true};

use outside_core::{Clock, MemErr};
use std::time;
use std::time::SystemTime;

/// The system's clock. One that can't be read, or that stands before 1970, tells 0; one past the
/// year 2106 the last second.
#[derive(Drop)]
pub struct SystemClock<R: time::Clock + Clone + Drop> {
    rt: R,
}

impl<R: time::Clock + Clone + Drop> SystemClock<R> {
    pub fn new(rt: R) -> SystemClock<R> {
        SystemClock { rt }
    }
}

impl<R: time::Clock + Clone + Drop> Clock for SystemClock<R> {
    ghost may = { λ _ _. true };

    fn now(&mut self) -> u32 {
        let Ok(time) = SystemTime::now(&self.rt) else {
            return 0;
        };
        match time.duration_since(SystemTime::UNIX_EPOCH) {
            Ok(since) => u32::try_from(since.as_secs()).unwrap_or(u32::MAX),
            Err(_) => 0,
        }
    }

    fn fork(&mut self) -> Result<Self, MemErr> {
        match self.rt.clone() {
            Ok(rt) => Ok(SystemClock { rt }),
            Err(_) => Err(MemErr::Memory),
        }
    }
}
