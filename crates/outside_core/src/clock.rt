ghost use Rattle.std.specs.Prelude.{◌≡◌, ℕ, Bool, IsTrue, IsOk, IfOk};
ghost use Rattle.outside_core.specs.Clock.{tells_only};

use crate::memory_error::MemErr;

/// What tells the wall time.
pub trait Clock: Sized {
    /// Whether it may tell this moment, in seconds since the start of 1970.
    ghost may: { Self → ℕ → Bool };

    /// The wall time in seconds. It can't fail.
    fn now(&mut self) -> u32
        ensures told { IsTrue (may self.old result) }
        ensures same { may self.new ≡ may self.old };

    /// A clock for another thread, which may tell the same moments.
    fn fork(&mut self) -> Result<Self, MemErr>
        ensures fork { IfOk result (λ clock. may clock ≡ may self.old) }
        ensures same { may self.new ≡ may self.old };
}

/// A clock that always tells one moment.
#[derive(Clone, Copy)]
pub struct MemClock {
    secs: u32,
}

impl MemClock {
    /// A clock that always tells this moment.
    pub fn at(secs: u32) -> MemClock
        ensures { result.secs ≡ secs }
    {
        MemClock { secs }
    }
}

impl Clock for MemClock {
    ghost may = { λ clock. tells_only clock.secs };

    fn now(&mut self) -> u32 {
        self.secs
    }

    fn fork(&mut self) -> Result<MemClock, MemErr>
        ensures fork { IfOk result (λ clock. tells_only clock.secs ≡ tells_only self.old.secs) }
        ensures same { tells_only self.new.secs ≡ tells_only self.old.secs }
        // It never lacks memory.
        ensures ok { IsOk result }
    {
        Ok(*self)
    }
}
