ghost use Rattle.std.specs.Prelude.{◌≡◌, ◌≤◌, ℕ, List, Option, OnOk};
ghost use Rattle.outcomes.specs.Causes.{FailsOnly};
ghost use Rattle.outside_core.specs.Bytes.{ReadsBytes, TakesBytes, Went, WentInPart};
ghost use Rattle.outside_core.specs.Link.{EndsOnly};

/// Why no bytes came or went.
#[derive(Clone, Copy, Debug, PartialEq, Eq)]
pub enum LinkErr {
    /// The link failed; its count of faults has risen.
    Failed,
    /// There was no memory for the bytes.
    Memory,
}

/// A connection to a peer, which bytes come from and go to.
pub trait Link {
    /// The bytes still to come, where the link can tell.
    ghost left: { Self → Option (List ℕ) };

    /// The bytes that it took, where the link can tell.
    ghost held: { Self → Option (List ℕ) };

    /// How often a call has failed.
    ghost fault_count: { Self → ℕ };

    /// How often a call found that the peer sends no more.
    ghost end_count: { Self → ℕ };

    /// Appends at most `max` bytes to `out` and answers how many; 0 for a `max` above 0 is the end,
    /// which is counted.
    fn receive(&mut self, max: usize, out: &mut Vec<u8>) -> Result<usize, LinkErr>
        ensures bytes { ReadsBytes max (left self.old) (left self.new) out.old.items
            out.new.items result }
        ensures held { held self.new ≡ held self.old }
        ensures faults { FailsOnly LinkErr.Failed (fault_count self.old)
            (fault_count self.new) result }
        ensures ends { EndsOnly max (end_count self.old) (end_count self.new) result };

    /// Takes a front of the bytes, which isn't empty where they aren't, and answers its length.
    fn send(&mut self, bytes: &[u8]) -> Result<usize, LinkErr>
        ensures bytes { TakesBytes (held self.old) (held self.new) bytes.now result }
        ensures left { left self.new ≡ left self.old }
        ensures faults { FailsOnly LinkErr.Failed (fault_count self.old)
            (fault_count self.new) result }
        ensures ends { end_count self.old ≤ end_count self.new };

    /// How often a call has failed; it stands still at 2^64 - 1.
    fn faults(&self) -> u64
        ensures { result ≡ fault_count self.now };

    /// How often the end was met; it stands still at 2^64 - 1.
    fn ends(&self) -> u64
        ensures { result ≡ end_count self.now };

    /// Closes a real link for the peer. It takes no memory.
    fn shut(&mut self)
        ensures bytes { (left self.new ≡ left self.old) × (held self.new ≡ held self.old) }
        ensures counts { (fault_count self.new ≡ fault_count self.old) × (end_count self.new ≡ end_count self.old) };
}

/// Sends all of the bytes, in as many calls as the link wants. After an `Err` a front of them was
/// taken.
pub fn send_all<L: Link>(link: &mut L, bytes: &[u8]) -> Result<(), LinkErr>
    ensures whole { OnOk result (Went (L.held link.old) (L.held link.new) bytes.now) }
    ensures part { WentInPart (L.held link.old) (L.held link.new) bytes.now }
    ensures left { L.left link.new ≡ L.left link.old }
    ensures faults { FailsOnly LinkErr.Failed (L.fault_count link.old)
        (L.fault_count link.new) result }
    ensures ends { L.end_count link.old ≤ L.end_count link.new }
{
    let mut rest = bytes;
    while !rest.is_empty() {
        let count = link.send(rest)?;
        let (_, after) = rest.split_at(count);
        rest = after;
    }
    Ok(())
}
