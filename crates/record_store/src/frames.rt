//! How many whole frames stand in a file in front of one that is at fault.
ghost use Rattle.std.specs.Prelude.{◌≡◌, ◌⊎◌, ◌<◌, ◌≤◌, ◌+◌, ◌^◌, ℕ, IsTrue, IfOk, IfSome, IfNone, length, take, drop, Err};
ghost use Rattle.std.specs.Int.{w32, to_le_bytes};
ghost use Rattle.outcomes.specs.Causes.{FailsOnly, Rose};
ghost use Rattle.journal_core.specs.Frames.{payloads_of, told_length};
ghost use Rattle.journal_core.specs.Looks.{Looks};
ghost use Rattle.journal_core.specs.Starts.{EndsAt, FrameAt, UnfitAt, Walked};
ghost use Rattle.record_store.specs.Found.{RefusesFile};

use crate::error::NodeErr;
use outside_core::{Disk, DiskErr};

/// The gate of a frame.
const GATE: u8 = 0xa5;

/// Where the header ends.
const FIRST: u64 = 16;

/// The length that stands behind a gate.
fn told_size(front: &[u8; 5]) -> u64
    ensures value { result ≡ told_length (drop 1 front.now) }
    ensures bytes { to_le_bytes w32 result ≡ take 4 (drop 1 front.now) }
    ensures small { result < 2 ^ 32 }
{
    u32::from_le_bytes([front[1], front[2], front[3], front[4]]) as u64
}

/// The length of the payload of the frame at this place of a file of this length. None stands
/// there, or none that fits, where it is `None`.
fn frame_at<D: Disk>(disk: &mut D, place: u64, len: u64) -> Result<Option<u64>, DiskErr>
    requires inside { place < len }
    requires length { IsTrue (D.tells disk.old) → length (D.seen disk.old) ≡ len }
    ensures tells { D.tells disk.new ≡ D.tells disk.old }
    ensures looks { IsTrue (D.tells disk.old)
        → Looks D.seen D.may_leave D.moment D.left_since disk.old disk.new }
    ensures frame { IfOk result (λ found. IfSome found (λ size. (place + 5 + size < len)
        × (IsTrue (D.tells disk.old) → FrameAt (D.seen disk.old) place size))) }
    ensures none { IfOk result (λ found. IfNone found (IsTrue (D.tells disk.old)
        → ((gate : ℕ) × EndsAt (D.seen disk.old) place gate) ⊎ UnfitAt (D.seen disk.old) place)) }
    ensures faults { FailsOnly DiskErr.Failed
        (D.fault_count disk.old) (D.fault_count disk.new) result }
{
    let mut front = [0u8; 5];
    disk.read_at(place, &mut front)?;
    if front[0] != GATE {
        return Ok(None);
    }
    let size = told_size(&front);
    if len - place <= 5 + size {
        return Ok(None);
    }
    Ok(Some(size))
}

/// How many whole frames stand in front of the byte at fault, where this is a gate.
fn count_frames<D: Disk>(disk: &mut D) -> Result<u64, DiskErr>
    ensures tells { D.tells disk.new ≡ D.tells disk.old }
    ensures looks { IsTrue (D.tells disk.old)
        → Looks D.seen D.may_leave D.moment D.left_since disk.old disk.new }
    ensures count { IsTrue (D.tells disk.old) → (at : ℕ)
        → payloads_of (D.seen disk.old) ≡ Err at → 16 ≤ at
        → IfOk result (λ count. Walked (D.seen disk.old) count at) }
    ensures faults { FailsOnly DiskErr.Failed
        (D.fault_count disk.old) (D.fault_count disk.new) result }
{
    let len = disk.len()?;
    let mut count = 0;
    let mut place = FIRST;
    if len <= 17 {
        return Ok(0);
    }
    loop {
        match frame_at(disk, place, len)? {
            None => return Ok(count),
            Some(size) => {
                count += 1;
                place += 5 + size;
            }
        }
    }
}

/// The refusal of a file whose byte at this place is at fault.
pub fn refuse<D: Disk>(disk: &mut D, at: u64) -> NodeErr
    requires { IsTrue (D.tells disk.old) → payloads_of (D.seen disk.old) ≡ Err at }
    ensures tells { D.tells disk.new ≡ D.tells disk.old }
    ensures looks { IsTrue (D.tells disk.old)
        → Looks D.seen D.may_leave D.moment D.left_since disk.old disk.new }
    ensures refused { RefusesFile (IsTrue (D.tells disk.old)) (D.seen disk.old) result }
    ensures later { D.fault_count disk.old ≤ D.fault_count disk.new }
    ensures fault { result ≡ NodeErr.DiskFault
        → Rose (D.fault_count disk.old) (D.fault_count disk.new) }
{
    if at < FIRST {
        return NodeErr::BadJournal { index: 0 };
    }
    match count_frames(disk) {
        Ok(index) => NodeErr::BadJournal { index },
        Err(DiskErr::Failed) => NodeErr::DiskFault,
    }
}
