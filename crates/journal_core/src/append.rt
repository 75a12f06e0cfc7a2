// The two steps of an append, each of which ends with a sync.
ghost use Rattle.std.specs.Prelude.{◌≡◌, ◌<◌, ◌≤◌, ◌+◌, ◌^◌, ◌++◌, [], ◌∷◌, IsTrue, OnOk, length};
ghost use Rattle.outcomes.specs.Causes.{FailsOnly};
ghost use Rattle.outside_core.specs.Crash.{Holds, Torn, Only, LeavesOnly};
ghost use Rattle.journal_core.specs.Frames.{body};
ghost use Rattle.journal_core.specs.Left.{Begins};

use outside_core::{Disk, DiskErr};

/// Puts length, payload and a gate 00 after the gate at `end`, the last byte of the file.
pub fn stage<D: Disk>(disk: &mut D, end: u64, payload: &[u8]) -> Result<(), DiskErr>
    requires place { end + 1 < 2 ^ 64 }
    requires length { length payload.now < 2 ^ 32 }
    requires last { IsTrue (D.tells disk.old) → length (D.seen disk.old) ≡ end + 1 }
    ensures tells { D.tells disk.new ≡ D.tells disk.old }
    ensures place { OnOk result (end + length payload.now + 6 < 2 ^ 64) }
    ensures staged { IsTrue (D.tells disk.old)
        → OnOk result (D.seen disk.new ≡ D.seen disk.old ++ (body payload.now ++ 0 ∷ [])) }
    ensures durable { IsTrue (D.tells disk.old)
        → OnOk result (Only (D.seen disk.new) (D.may_leave disk.new)) }
    // A crash at any moment leaves what stood there, whatever follows.
    ensures any_moment { IsTrue (D.tells disk.old) → Only (D.seen disk.old) (D.may_leave disk.old)
        → LeavesOnly D.moment D.left_since disk.old disk.new (Begins (D.seen disk.old)) }
    ensures faults { FailsOnly DiskErr.Failed
        (D.fault_count disk.old) (D.fault_count disk.new) result }
{
    let length = payload.len() as u32;
    disk.write_at(end + 1, &length.to_le_bytes())?;
    disk.write_at(end + 5, payload)?;
    disk.write_at(end + 5 + payload.len() as u64, &[0])?;
    disk.sync()
}

/// Writes one byte over the gate at `end`.
pub fn put_gate<D: Disk>(disk: &mut D, end: u64, gate: u8) -> Result<(), DiskErr>
    requires { IsTrue (D.tells disk.old) → end < length (D.seen disk.old) }
    ensures tells { D.tells disk.new ≡ D.tells disk.old }
    ensures written { IsTrue (D.tells disk.old)
        → OnOk result (Holds (D.seen disk.old) end (gate ∷ []) (D.seen disk.new)) }
    ensures durable { IsTrue (D.tells disk.old)
        → OnOk result (Only (D.seen disk.new) (D.may_leave disk.new)) }
    // A crash at any moment leaves the file with any byte at this place.
    ensures any_moment { IsTrue (D.tells disk.old) → Only (D.seen disk.old) (D.may_leave disk.old)
        → LeavesOnly D.moment D.left_since disk.old disk.new (Torn end 1 (D.seen disk.old)) }
    ensures faults { FailsOnly DiskErr.Failed
        (D.fault_count disk.old) (D.fault_count disk.new) result }
{
    disk.write_at(end, &[gate])?;
    disk.sync()
}
