// The reading of one frame.
ghost use Rattle.std.specs.Prelude.{◌≡◌, ◌⊎◌, ◌<◌, ◌≤◌, ◌+◌, ◌^◌, ◌++◌, List, ℕ, IsTrue, IfOk, IfErr, OnOk, OnErr, length, take, drop};
ghost use Rattle.outcomes.specs.Causes.{FailsOnly};
ghost use Rattle.journal_core.specs.Looks.{Looks};
ghost use Rattle.journal_core.specs.Starts.{StandsAt};

use crate::error::JournalErr;
use crate::walk::told_size;
use outside_core::Disk;

// Appends so many bytes from a place on.
fn read_bytes<D: Disk>(
    disk: &mut D,
    at: u64,
    size: u64,
    out: &mut Vec<u8>,
) -> Result<(), JournalErr>
    requires { size < 2 ^ 32 }
    ensures tells { D.tells disk.new ≡ D.tells disk.old }
    ensures bytes { IsTrue (D.tells disk.old) → at + size ≤ length (D.seen disk.old)
        → OnOk result (out.new.items ≡ out.old.items ++ take size (drop at (D.seen disk.old))) }
    ensures unchanged { OnErr result (out.new.items ≡ out.old.items) }
    ensures errors { IfErr result (λ e. (e ≡ JournalErr.DiskFault) ⊎ (e ≡ JournalErr.Memory)) }
    ensures looks { IsTrue (D.tells disk.old)
        → Looks D.seen D.may_leave D.moment D.left_since disk.old disk.new }
    ensures faults { FailsOnly JournalErr.DiskFault
        (D.fault_count disk.old) (D.fault_count disk.new) result }
{
    let start = out.len();
    out.resize(start + size as usize, 0)?;
    match disk.read_at(at, &mut out[start..]) {
        Ok(_) => Ok(()),
        Err(_) => {
            out.truncate(start);
            Err(JournalErr::DiskFault)
        }
    }
}

/// Appends the payload of the frame at this place, and answers the place after it.
pub fn read_frame<D: Disk>(
    disk: &mut D,
    place: u64,
    end: u64,
    out: &mut Vec<u8>,
) -> Result<u64, JournalErr>
    ensures tells { D.tells disk.new ≡ D.tells disk.old }
    ensures payload { IsTrue (D.tells disk.old)
        → (payload : List ℕ) → StandsAt (D.seen disk.old) place payload
        → place + 5 + length payload ≤ end
        → IfOk result (λ next. (next ≡ place + 5 + length payload)
        × (out.new.items ≡ out.old.items ++ payload)) }
    ensures unchanged { OnErr result (out.new.items ≡ out.old.items) }
    ensures errors { IfErr result (λ e. (e ≡ JournalErr.DiskFault) ⊎ (e ≡ JournalErr.Memory)) }
    ensures looks { IsTrue (D.tells disk.old)
        → Looks D.seen D.may_leave D.moment D.left_since disk.old disk.new }
    ensures faults { FailsOnly JournalErr.DiskFault
        (D.fault_count disk.old) (D.fault_count disk.new) result }
{
    let mut front = [0u8; 5];
    disk.read_at(place, &mut front)?;
    let size = told_size(&front);
    read_bytes(disk, place.saturating_add(5), size, out)?;
    Ok(place.saturating_add(5 + size))
}
