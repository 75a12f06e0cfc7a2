// The steps of a start that write: a new file, and the end of one that a crash may have left.
ghost use Rattle.std.specs.Prelude.{◌≡◌, ◌<◌, ◌≤◌, ◌+◌, ◌^◌, ◌++◌, [], ◌∷◌, List, ℕ, IsTrue, OnOk, length};
ghost use Rattle.outcomes.specs.Causes.{FailsOnly};
ghost use Rattle.outside_core.specs.Crash.{Only, LeavesOnly};
ghost use Rattle.journal_core.specs.Frames.{at_rest};
ghost use Rattle.journal_core.specs.Starts.{Turned, CutBehind};

use crate::append::put_gate;
use outside_core::{Disk, DiskErr};

/// Header and a gate 00.
const NEW_FILE: [u8; 17] = *b"MTX JOURNAL 0001\0";

/// Writes header and gate over a file of at most 17 bytes.
pub fn make_new<D: Disk>(disk: &mut D) -> Result<(), DiskErr>
    requires { IsTrue (D.tells disk.old) → length (D.seen disk.old) ≤ 17 }
    ensures tells { D.tells disk.new ≡ D.tells disk.old }
    ensures written { IsTrue (D.tells disk.old) → OnOk result (D.seen disk.new ≡ at_rest []) }
    ensures durable { IsTrue (D.tells disk.old)
        → OnOk result (Only (D.seen disk.new) (D.may_leave disk.new)) }
    // A crash at any moment leaves a file that is still new.
    ensures any_moment { IsTrue (D.tells disk.old) → Only (D.seen disk.old) (D.may_leave disk.old)
        → LeavesOnly D.moment D.left_since disk.old disk.new (λ c. length c ≤ 17) }
    ensures faults { FailsOnly DiskErr.Failed
        (D.fault_count disk.old) (D.fault_count disk.new) result }
{
    disk.write_at(0, &NEW_FILE)?;
    disk.sync()
}

/// Writes 00 over another end gate.
pub fn shut_gate<D: Disk>(disk: &mut D, end: u64, gate: u8) -> Result<(), DiskErr>
    requires { IsTrue (D.tells disk.old) → end < length (D.seen disk.old) }
    ensures tells { D.tells disk.new ≡ D.tells disk.old }
    ensures written { IsTrue (D.tells disk.old)
        → (front rest : List ℕ) → end ≡ length front → D.seen disk.old ≡ front ++ gate ∷ rest
        → OnOk result (D.seen disk.new ≡ front ++ 0 ∷ rest) }
    ensures durable { IsTrue (D.tells disk.old) → Only (D.seen disk.old) (D.may_leave disk.old)
        → OnOk result (Only (D.seen disk.new) (D.may_leave disk.new)) }
    ensures any_moment { IsTrue (D.tells disk.old) → Only (D.seen disk.old) (D.may_leave disk.old)
        → (front rest : List ℕ) → end ≡ length front → D.seen disk.old ≡ front ++ gate ∷ rest
        → LeavesOnly D.moment D.left_since disk.old disk.new (Turned front gate rest) }
    ensures faults { FailsOnly DiskErr.Failed
        (D.fault_count disk.old) (D.fault_count disk.new) result }
{
    if gate == 0 {
        return Ok(());
    }
    put_gate(disk, end, 0)
}

/// Cuts off what follows the gate 00 at `end`, in a file of this length.
pub fn cut_behind<D: Disk>(disk: &mut D, end: u64, len: u64) -> Result<(), DiskErr>
    requires place { end + 1 < 2 ^ 64 }
    requires length { IsTrue (D.tells disk.old) → length (D.seen disk.old) ≡ len }
    requires gate { IsTrue (D.tells disk.old) → end < len }
    ensures tells { D.tells disk.new ≡ D.tells disk.old }
    ensures written { IsTrue (D.tells disk.old)
        → (front rest : List ℕ) → end ≡ length front → D.seen disk.old ≡ front ++ 0 ∷ rest
        → OnOk result (D.seen disk.new ≡ front ++ 0 ∷ []) }
    ensures durable { IsTrue (D.tells disk.old) → Only (D.seen disk.old) (D.may_leave disk.old)
        → OnOk result (Only (D.seen disk.new) (D.may_leave disk.new)) }
    ensures any_moment { IsTrue (D.tells disk.old) → Only (D.seen disk.old) (D.may_leave disk.old)
        → (front rest : List ℕ) → end ≡ length front → D.seen disk.old ≡ front ++ 0 ∷ rest
        → LeavesOnly D.moment D.left_since disk.old disk.new (CutBehind front rest) }
    ensures faults { FailsOnly DiskErr.Failed
        (D.fault_count disk.old) (D.fault_count disk.new) result }
{
    if len <= end + 1 {
        return Ok(());
    }
    disk.cut(end + 1)?;
    disk.sync()
}
