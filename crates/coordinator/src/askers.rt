//! The routers that wait for a decision.
ghost use Rattle.std.specs.Prelude.{◌≡◌, ◌<◌, [], ℕ, filter, nat_eq};
ghost use Rattle.std.specs.List.{list_any};
ghost use Rattle.txn_types.specs.Numbers.{put_number};
ghost use Rattle.coordinator.specs.Askers.{routers};

use std::marker::Model;

/// The routers that wait, of the eight that a cluster may have. Contracts see their numbers,
/// rising.
#[derive(Drop)]
pub struct Askers {
    waits: [bool; 8],
}

impl Model for Askers {
    ghost use Rattle.std.specs.Prelude.{List, ℕ};
    ghost use Rattle.coordinator.specs.Askers.{numbers_from};

    ghost Value = { List ℕ };

    ghost view = { λ a. numbers_from 0 a.waits };
}

impl Askers {
    pub fn new() -> Askers
        ensures { result ≡ [] }
    {
        Askers { waits: [false; 8] }
    }

    pub fn add(&mut self, router: u16)
        requires { router < 8 }
        ensures { self.new ≡ put_number router self.old }
    {
        self.waits[usize::from(router)] = true;
    }

    pub fn contains(&self, router: u16) -> bool
        ensures asker { result ≡ list_any (nat_eq router) self.now }
        ensures all { self.now ≡ filter (λ r. list_any (nat_eq r) self.now) routers }
    {
        let place = usize::from(router);
        place < self.waits.len() && self.waits[place]
    }
}
