//! Where a node's records are kept.
ghost use Rattle.std.specs.Prelude.{◌≡◌, ◌⊎◌, ◌≤◌, ◌<◌, ◌+◌, ◌++◌, [], ◌∷◌, ℕ, Bool, List, false, is_err, drop, OnOk, OnErr};
ghost use Rattle.outcomes.specs.Causes.{FailsOnly};
ghost use Rattle.journal_rec.specs.Spelling.{body_bytes};
ghost use Rattle.journal_rec.specs.declared.record.Rec.{Rec as Record};

use crate::payload::Payload;
use journal_rec::Rec;
use outside_core::DiskErr;
use std::alloc::AllocError;

/// A list of records that grows at its end. An append that fails is the last.
pub trait RecordLog {
    /// The records.
    ghost kept: { Self → List Record };

    /// The record that an append which failed had in hand.
    ghost lost: { Self → List Record };

    /// Whether an append has failed.
    ghost is_closed: { Self → Bool };

    /// For how many records more there is memory.
    ghost room: { Self → ℕ };

    /// How often its disk has failed.
    ghost fault_count: { Self → ℕ };

    /// The records, in their order.
    fn records(&self) -> &[Rec]
        ensures { result.now ≡ kept self.now };

    /// How often its disk has failed; 0 where there is none.
    fn faults(&self) -> u64
        ensures { result ≡ fault_count self.now };

    /// Takes the memory for so many records more.
    fn reserve(&mut self, additional: usize) -> Result<(), AllocError>
        ensures room { OnOk result (additional ≤ room self.new) }
        ensures records { kept self.new ≡ kept self.old }
        ensures lost { lost self.new ≡ lost self.old }
        ensures closed { is_closed self.new ≡ is_closed self.old }
        ensures faults { fault_count self.new ≡ fault_count self.old };

    /// Adds a record, whose bytes after its front are in the payload. It takes no memory.
    fn append(&mut self, rec: Rec, payload: &mut Payload) -> Result<(), DiskErr>
        requires open { is_closed self.old ≡ false }
        requires room { 0 < room self.old }
        requires carries { (body_bytes rec ≡ []) ⊎ (body_bytes rec ≡ drop 64 payload.old) }
        ensures ok { OnOk result ((kept self.new ≡ kept self.old ++ rec ∷ [])
            × (lost self.new ≡ lost self.old) × (room self.old ≡ room self.new + 1)) }
        ensures err { OnErr result ((kept self.new ≡ kept self.old) × (lost self.new ≡ rec ∷ [])) }
        ensures closed { is_closed self.new ≡ is_err result }
        ensures faults { FailsOnly DiskErr.Failed (fault_count self.old)
            (fault_count self.new) result }
        ensures payload { drop 64 payload.new ≡ drop 64 payload.old };
}
