ghost use Rattle.std.specs.Prelude.{◌≡◌, ◌+◌, ◌^◌, ◌%◌, ℕ, OnOk, OnErr};
ghost use Rattle.outcomes.specs.Causes.{FailsOnly};

use crate::link::Link;

/// Why there is no link.
#[derive(Clone, Copy, Debug, PartialEq, Eq)]
pub enum NetErr {
    /// The net failed; its count of faults has risen.
    Failed,
}

/// What makes links: those that peers ask for at an address of ours, and those that we ask for. No
/// call takes memory.
pub trait Net {
    /// A link that it makes.
    type L: Link;

    /// How often a call has failed.
    ghost fault_count: { Self → ℕ };

    /// How many links it has accepted, modulo 2^64.
    ghost accept_count: { Self → ℕ };

    /// Takes an address, as `127.0.0.1:27017`, at which peers may ask for links.
    fn listen(&mut self, at: &str) -> Result<(), NetErr>
        ensures accepted { accept_count self.new ≡ accept_count self.old }
        ensures faults { FailsOnly NetErr.Failed (fault_count self.old) (fault_count self.new) result };

    /// The next link that a peer asks for.
    fn accept(&mut self) -> Result<Self::L, NetErr>
        ensures accepted { OnOk result
            (accept_count self.new ≡ (accept_count self.old + 1) % 2 ^ 64) }
        ensures refused { OnErr result (accept_count self.new ≡ accept_count self.old) }
        ensures faults { FailsOnly NetErr.Failed (fault_count self.old) (fault_count self.new) result };

    /// A link to the peer at an address.
    fn connect(&mut self, at: &str) -> Result<Self::L, NetErr>
        ensures accepted { accept_count self.new ≡ accept_count self.old }
        ensures faults { FailsOnly NetErr.Failed (fault_count self.old) (fault_count self.new) result };

    /// How often a call has failed; it stands still at 2^64 - 1.
    fn faults(&self) -> u64
        ensures { result ≡ fault_count self.now };

    /// How many links it has accepted, modulo 2^64.
    fn accepted(&self) -> u64
        ensures { result ≡ accept_count self.now };
}
