ghost use Rattle.std.specs.Prelude.{◌≡◌};

use machine::Machine;
use std::alloc::{AllocError, Global};

/// What the machine is asked.
#[derive(Clone, Copy, Drop)]
pub enum Ask {
    /// Whether the flag is set.
    Wait,
    /// To set the flag.
    Set,
}

/// What the machine answers.
#[derive(Clone, Copy, Drop)]
pub enum Told {
    /// The flag isn't set.
    Held,
    /// The flag is set.
    Passed,
}

/// A machine of one flag.
#[derive(Drop)]
pub struct Flag {
    set: bool,
}

impl Flag {
    pub fn new() -> Flag {
        Flag { set: false }
    }
}

impl Machine for Flag {
    ghost use Rattle.std.specs.Prelude.{◌≡◌};
    ghost use Rattle.lock_tests.specs.Flag.{flag_after, told_of};

    type Event = Ask;

    type Answer = Told;

    ghost takes = { λ old ask told new. (new.set ≡ flag_after old.set ask) × (told ≡ told_of new.set) };

    fn take(&mut self, ask: &Ask) -> Told {
        match *ask {
            Ask::Set => self.set = true,
            Ask::Wait => {}
        }
        if self.set { Told::Passed } else { Told::Held }
    }

    fn copy_event(_alloc: Global, ask: &Ask) -> Result<Ask, AllocError> {
        Ok(*ask)
    }
}
