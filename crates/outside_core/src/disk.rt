ghost use Rattle.std.specs.Prelude.{◌≡◌, ◌<◌, ◌≤◌, ◌+◌, ◌-◌, ◌^◌, ◌++◌, ℕ, List, Bool, IsTrue, IfOk, OnOk, length, min, take, drop};
ghost use Rattle.outcomes.specs.Causes.{FailsOnly};
ghost use Rattle.outside_core.specs.Crash.{Holds, Torn, CutShort, Same, Only, Passes};

/// Why a disk did nothing, or not all.
#[derive(Clone, Copy, Debug, PartialEq, Eq)]
pub enum DiskErr {
    /// The disk failed; its count of faults has risen.
    Failed,
}

/// One file on a disk, whose bytes are read and written at places. No call takes memory.
///
/// What it holds, and what a crash may leave of it, is said where the disk can tell. Between two
/// syncs each range written, and the part past the old length, may hold any bytes after a crash,
/// and the length is any between those that the calls went through; all other bytes stay. A call
/// that fails may have been done in part: a crash then leaves what it may leave in the midst of it.
pub trait Disk {
    /// Whether it tells what it holds. A file of the system doesn't, and then nothing is said of
    /// its bytes.
    ghost tells: { Self → Bool };

    /// What a read gives.
    ghost seen: { Self → List ℕ };

    /// The images that a crash at this moment may leave.
    ghost may_leave: { Self → List ℕ → Type 0 };

    /// The moment, as a number that doesn't fall.
    ghost moment: { Self → ℕ };

    /// The images that a crash since that moment might have left, in a call or between two.
    ghost left_since: { Self → ℕ → List ℕ → Type 0 };

    /// How often a call has failed.
    ghost fault_count: { Self → ℕ };

    /// How many bytes it holds.
    fn len(&mut self) -> Result<u64, DiskErr>
        ensures tells { tells self.new ≡ tells self.old }
        ensures length { IsTrue (tells self.old) → IfOk result (λ n. n ≡ length (seen self.old)) }
        ensures seen { IsTrue (tells self.old) → seen self.new ≡ seen self.old }
        ensures crash { IsTrue (tells self.old)
            → Passes may_leave moment left_since Same self.old self.new }
        ensures faults { FailsOnly DiskErr.Failed
            (fault_count self.old) (fault_count self.new) result };

    /// Fills `out` from this place on, as far as the disk holds bytes, and answers how many these
    /// are. Fewer are a failed call, and `out` may then hold anything.
    fn read_at(&mut self, at: u64, out: &mut [u8]) -> Result<usize, DiskErr>
        ensures tells { tells self.new ≡ tells self.old }
        ensures within { IfOk result (λ n. n ≤ length out.old) }
        ensures count { IsTrue (tells self.old)
            → IfOk result (λ n. n ≡ min (length out.old) (length (seen self.old) - at)) }
        ensures bytes { IsTrue (tells self.old)
            → IfOk result (λ n. out.new ≡ take n (drop at (seen self.old)) ++ drop n out.old) }
        ensures seen { IsTrue (tells self.old) → seen self.new ≡ seen self.old }
        ensures crash { IsTrue (tells self.old)
            → Passes may_leave moment left_since Same self.old self.new }
        ensures faults { FailsOnly DiskErr.Failed
            (fault_count self.old) (fault_count self.new) result };

    /// Writes over what is there, and past the end. Until a sync a crash may leave any bytes in the
    /// range.
    fn write_at(&mut self, at: u64, bytes: &[u8]) -> Result<(), DiskErr>
        requires { IsTrue (tells self.old) → at ≤ length (seen self.old) }
        ensures tells { tells self.new ≡ tells self.old }
        // A disk's length is a `u64`.
        ensures fits { OnOk result (at + length bytes.now < 2 ^ 64) }
        ensures written { IsTrue (tells self.old)
            → OnOk result (Holds (seen self.old) at bytes.now (seen self.new)) }
        ensures crash { IsTrue (tells self.old)
            → Passes may_leave moment left_since (Torn at (length bytes.now)) self.old self.new }
        ensures faults { FailsOnly DiskErr.Failed
            (fault_count self.old) (fault_count self.new) result };

    /// Cuts the file to a length.
    fn cut(&mut self, len: u64) -> Result<(), DiskErr>
        requires { IsTrue (tells self.old) → len ≤ length (seen self.old) }
        ensures tells { tells self.new ≡ tells self.old }
        ensures shorter { IsTrue (tells self.old)
            → OnOk result (seen self.new ≡ take len (seen self.old)) }
        ensures crash { IsTrue (tells self.old)
            → Passes may_leave moment left_since (CutShort len) self.old self.new }
        ensures faults { FailsOnly DiskErr.Failed
            (fault_count self.old) (fault_count self.new) result };

    /// After it a crash leaves what a read gives.
    fn sync(&mut self) -> Result<(), DiskErr>
        ensures tells { tells self.new ≡ tells self.old }
        ensures seen { IsTrue (tells self.old) → OnOk result (seen self.new ≡ seen self.old) }
        ensures durable { IsTrue (tells self.old)
            → OnOk result (Only (seen self.new) (may_leave self.new)) }
        ensures crash { IsTrue (tells self.old)
            → Passes may_leave moment left_since Same self.old self.new }
        ensures faults { FailsOnly DiskErr.Failed
            (fault_count self.old) (fault_count self.new) result };

    /// How often a call has failed; it stands still at 2^64 - 1.
    fn faults(&self) -> u64
        ensures { result ≡ fault_count self.now };

    /// What a read gives is one of the images.
    ghost shown: { (disk : Self) → IsTrue (tells disk) → may_leave disk (seen disk) };

    /// This moment is one of those since an earlier one.
    ghost counts_now: { (disk : Self) (t : ℕ) (c : List ℕ)
        → IsTrue (tells disk) → t ≤ moment disk → may_leave disk c → left_since disk t c };

    /// Since this moment there is no other.
    ghost only_now: { (disk : Self) (c : List ℕ)
        → IsTrue (tells disk) → left_since disk (moment disk) c → may_leave disk c };
}
