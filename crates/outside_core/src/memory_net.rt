ghost use Rattle.std.specs.Prelude.{◌≡◌, ◌≤◌, ◌+◌, ◌^◌, ◌%◌, ◌∷◌, [], OnOk, OnErr, IsOk, IfOk, IsErr};
ghost use Rattle.outcomes.specs.Causes.{FailsOnly, Rose};

use crate::net::{Net, NetErr};
use crate::pipe_link::PipeLink;
use std::collections::VecDeque;
use std::marker::Model;

/// A net in memory: the links that peers ask for lie ready.
#[derive(Drop)]
pub struct MemNet {
    links: VecDeque<PipeLink>,
    faults: u64,
    accepted: u64,
}

impl Model for MemNet {
    ghost use Rattle.outside_core.specs.MemNet.{Peers};

    ghost Value = { Peers };

    ghost view = { λ n. record { links = n.links.items; faults = n.faults; accepted = n.accepted } };
}

impl MemNet {
    /// A net whose peers ask for these links, front to back.
    pub fn of(links: Vec<PipeLink>) -> MemNet
        ensures { result ≡ record { links = links.items; faults = 0; accepted = 0 } }
    {
        MemNet {
            links: VecDeque::from_vec(links),
            faults: 0,
            accepted: 0,
        }
    }

    // Counts a fault.
    fn fail(&mut self) -> NetErr
        ensures later { self.old.faults ≤ self.new.faults }
        ensures rose { Rose self.old.faults self.new.faults }
        ensures links { self.new.links ≡ self.old.links }
        ensures accepted { self.new.accepted ≡ self.old.accepted }
    {
        self.faults = self.faults.saturating_add(1);
        NetErr::Failed
    }
}

impl Net for MemNet {
    type L = PipeLink;

    ghost fault_count = { λ n. n.faults };

    ghost accept_count = { λ n. n.accepted };

    fn listen(&mut self, _at: &str) -> Result<(), NetErr>
        ensures accepted { self.new.accepted ≡ self.old.accepted }
        ensures faults { FailsOnly NetErr.Failed self.old.faults self.new.faults result }
        // It never fails, and changes nothing.
        ensures ok { IsOk result }
        ensures same { self.new ≡ self.old }
    {
        Ok(())
    }

    fn accept(&mut self) -> Result<PipeLink, NetErr>
        ensures accepted { OnOk result (self.new.accepted ≡ (self.old.accepted + 1) % 2 ^ 64) }
        ensures refused { OnErr result (self.new.accepted ≡ self.old.accepted) }
        ensures faults { FailsOnly NetErr.Failed self.old.faults self.new.faults result }
        // It gives the links front to back, and fails where none is left.
        ensures link { IfOk result (λ link. self.old.links ≡ link ∷ self.new.links) }
        ensures none { OnErr result ((self.old.links ≡ []) × (self.new.links ≡ [])) }
    {
        match self.links.pop_front() {
            Some(link) => {
                self.accepted = self.accepted.wrapping_add(1);
                Ok(link)
            }
            None => Err(self.fail()),
        }
    }

    fn connect(&mut self, _at: &str) -> Result<PipeLink, NetErr>
        ensures accepted { self.new.accepted ≡ self.old.accepted }
        ensures faults { FailsOnly NetErr.Failed self.old.faults self.new.faults result }
        // It always fails.
        ensures none { IsErr result }
        ensures same { self.new.links ≡ self.old.links }
    {
        Err(self.fail())
    }

    fn faults(&self) -> u64 {
        self.faults
    }

    fn accepted(&self) -> u64 {
        self.accepted
    }
}
