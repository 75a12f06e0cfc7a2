// A start: what is on the disk for good, the frames of it, and its end mended.
ghost use Rattle.std.specs.Prelude.{◌≡◌, ◌≢◌, ◌<◌, ◌≤◌, ◌+◌, ◌^◌, ℕ, List, IsTrue, IfOk, IfErr, OnOk, length, Ok};
ghost use Rattle.outcomes.specs.Causes.{FailsOnly};
ghost use Rattle.outside_core.specs.Crash.{Only, LeavesOnly};
ghost use Rattle.journal_core.specs.Frames.{payloads_of, frames_on};
ghost use Rattle.journal_core.specs.Left.{Leaves, IsAtRest};
ghost use Rattle.journal_core.specs.Starts.{Refuses};

use crate::error::JournalErr;
use crate::mend::{cut_behind, make_new, shut_gate};
use crate::walk::{Found, read_header, walk};
use outside_core::{Disk, DiskErr};

// Makes what a read gives durable, and tells its length.
fn settle<D: Disk>(disk: &mut D) -> Result<u64, DiskErr>
    ensures tells { D.tells disk.new ≡ D.tells disk.old }
    ensures length { IsTrue (D.tells disk.old) → IfOk result (λ n. n ≡ length (D.seen disk.new)) }
    ensures same { IsTrue (D.tells disk.old) → OnOk result (D.seen disk.new ≡ D.seen disk.old) }
    ensures durable { IsTrue (D.tells disk.old)
        → OnOk result (Only (D.seen disk.new) (D.may_leave disk.new)) }
    ensures any_moment { IsTrue (D.tells disk.old)
        → LeavesOnly D.moment D.left_since disk.old disk.new (D.may_leave disk.old) }
    ensures faults { FailsOnly DiskErr.Failed
        (D.fault_count disk.old) (D.fault_count disk.new) result }
{
    disk.sync()?;
    disk.len()
}

// Goes over the frames of a file that isn't new, and mends its end.
fn resume<D: Disk>(disk: &mut D, len: u64) -> Result<Found, JournalErr>
    requires long { 17 < len }
    requires length { IsTrue (D.tells disk.old) → length (D.seen disk.old) ≡ len }
    ensures tells { D.tells disk.new ≡ D.tells disk.old }
    ensures place { IfOk result (λ found. (found.end + 1 < 2 ^ 64) × (found.count ≤ found.end)) }
    ensures found { IsTrue (D.tells disk.old) → Only (D.seen disk.old) (D.may_leave disk.old)
        → IfOk result (λ found. (payloads_of (D.seen disk.old) ≡ Ok (frames_on (D.seen disk.new)))
        × IsAtRest (D.seen disk.new) (D.may_leave disk.new)
        (frames_on (D.seen disk.new)) found.count found.end) }
    ensures refused { IfErr result (Refuses (IsTrue (D.tells disk.old)) (D.seen disk.old)) }
    // A file that is at fault stays as it is.
    ensures kept { IsTrue (D.tells disk.old)
        → IfErr result (λ e. e ≢ JournalErr.DiskFault → D.seen disk.new ≡ D.seen disk.old) }
    ensures any_moment { IsTrue (D.tells disk.old) → Only (D.seen disk.old) (D.may_leave disk.old)
        → (frames : List (List ℕ)) (hand : List ℕ) → Leaves frames hand (D.seen disk.old)
        → LeavesOnly D.moment D.left_since disk.old disk.new (Leaves frames hand) }
    ensures faults { FailsOnly JournalErr.DiskFault
        (D.fault_count disk.old) (D.fault_count disk.new) result }
{
    read_header(disk)?;
    let found = walk(disk, len)?;
    shut_gate(disk, found.end, found.gate)?;
    cut_behind(disk, found.end, len)?;
    Ok(found)
}

/// Makes the file a journal at rest, and answers how many frames it has and where they end.
pub fn open<D: Disk>(disk: &mut D) -> Result<Found, JournalErr>
    ensures tells { D.tells disk.new ≡ D.tells disk.old }
    ensures place { IfOk result (λ found. (found.end + 1 < 2 ^ 64) × (found.count ≤ found.end)) }
    ensures found { IsTrue (D.tells disk.old)
        → IfOk result (λ found. (payloads_of (D.seen disk.old) ≡ Ok (frames_on (D.seen disk.new)))
        × IsAtRest (D.seen disk.new) (D.may_leave disk.new)
        (frames_on (D.seen disk.new)) found.count found.end) }
    ensures refused { IfErr result (Refuses (IsTrue (D.tells disk.old)) (D.seen disk.old)) }
    // A file that is at fault stays as it is.
    ensures kept { IsTrue (D.tells disk.old)
        → IfErr result (λ e. e ≢ JournalErr.DiskFault → D.seen disk.new ≡ D.seen disk.old) }
    ensures any_moment { IsTrue (D.tells disk.old)
        → (frames : List (List ℕ)) (hand : List ℕ)
        → ((c : List ℕ) → D.may_leave disk.old c → Leaves frames hand c)
        → LeavesOnly D.moment D.left_since disk.old disk.new (Leaves frames hand) }
    ensures faults { FailsOnly JournalErr.DiskFault
        (D.fault_count disk.old) (D.fault_count disk.new) result }
{
    let len = settle(disk)?;
    if len > 17 {
        return resume(disk, len);
    }
    make_new(disk)?;
    Ok(Found {
        count: 0,
        end: 16,
        gate: 0,
    })
}
