// The steps of a start that read: the header, and the gates front to back.
ghost use Rattle.std.specs.Prelude.{◌≡◌, ◌≢◌, ◌<◌, ◌≤◌, ◌+◌, ◌^◌, ℕ, IsTrue, IfOk, IfErr, OnOk, IfSome, IfNone, length, take, drop, slice_index, Err};
ghost use Rattle.std.specs.Int.{w32, to_le_bytes};
ghost use Rattle.outcomes.specs.Causes.{FailsOnly};
ghost use Rattle.outside_core.specs.Crash.{LeavesOnly};
ghost use Rattle.journal_core.specs.Frames.{header, payloads_of, told_length};
ghost use Rattle.journal_core.specs.Looks.{Looks};
ghost use Rattle.journal_core.specs.Starts.{Refuses, RefusesGate, Says, Ended};

use crate::error::JournalErr;
use outside_core::{Disk, DiskErr};

/// The gate of a frame. Any other is the end.
pub const OPEN: u8 = 0xa5;

const HEADER: [u8; 16] = *b"MTX JOURNAL 0001";

/// What stands at a gate.
#[derive(Clone, Copy)]
pub enum Gate {
    /// The end, with this byte.
    End(u8),
    /// A frame, with a payload of this length.
    Frame(u64),
}

/// The frames of a file: how many, and where and what their end gate is.
#[derive(Clone, Copy)]
pub struct Found {
    pub count: u64,
    pub end: u64,
    pub gate: u8,
}

// The first place at which these bytes aren't the header.
fn first_difference(front: &[u8; 16]) -> Option<u64>
    ensures none { IfNone result (front.now ≡ header) }
    ensures some { IfSome result (λ at. (at < 16) × (take at front.now ≡ take at header)
        × (slice_index front.now at ≢ slice_index header at)) }
{
    for i in 0..16usize {
        if front[i] != HEADER[i] {
            return Some(i as u64);
        }
    }
    None
}

/// Reads the header of a file that is longer than a new one.
pub fn read_header<D: Disk>(disk: &mut D) -> Result<(), JournalErr>
    requires { IsTrue (D.tells disk.old) → 17 < length (D.seen disk.old) }
    ensures tells { D.tells disk.new ≡ D.tells disk.old }
    ensures looks { IsTrue (D.tells disk.old)
        → Looks D.seen D.may_leave D.moment D.left_since disk.old disk.new }
    ensures header { IsTrue (D.tells disk.old) → OnOk result (take 16 (D.seen disk.old) ≡ header) }
    ensures refused { IfErr result (Refuses (IsTrue (D.tells disk.old)) (D.seen disk.old)) }
    ensures faults { FailsOnly JournalErr.DiskFault
        (D.fault_count disk.old) (D.fault_count disk.new) result }
{
    let mut front = [0u8; 16];
    disk.read_at(0, &mut front)?;
    match first_difference(&front) {
        None => Ok(()),
        Some(at) => Err(JournalErr::BadBytes { at }),
    }
}

// The length that stands behind a gate.
pub fn told_size(front: &[u8; 5]) -> u64
    ensures value { result ≡ told_length (drop 1 front.now) }
    ensures bytes { to_le_bytes w32 result ≡ take 4 (drop 1 front.now) }
    ensures small { result < 2 ^ 32 }
{
    u32::from_le_bytes([front[1], front[2], front[3], front[4]]) as u64
}

// What stands at the gate at this place of a file of this length.
fn look_at_gate<D: Disk>(disk: &mut D, end: u64, len: u64) -> Result<Gate, JournalErr>
    requires inside { end < len }
    requires length { IsTrue (D.tells disk.old) → length (D.seen disk.old) ≡ len }
    ensures tells { D.tells disk.new ≡ D.tells disk.old }
    ensures looks { IsTrue (D.tells disk.old)
        → Looks D.seen D.may_leave D.moment D.left_since disk.old disk.new }
    ensures gate { IfOk result (Says (IsTrue (D.tells disk.old)) (D.seen disk.old) end len) }
    ensures refused { IfErr result (RefusesGate (IsTrue (D.tells disk.old)) (D.seen disk.old) end) }
    ensures faults { FailsOnly JournalErr.DiskFault
        (D.fault_count disk.old) (D.fault_count disk.new) result }
{
    let mut front = [0u8; 5];
    disk.read_at(end, &mut front)?;
    if front[0] != OPEN {
        return Ok(Gate::End(front[0]));
    }
    let size = told_size(&front);
    if len - end <= 5 + size {
        return Err(JournalErr::BadBytes { at: end });
    }
    Ok(Gate::Frame(size))
}

/// Goes over the gates of a file of this length, after its header.
pub fn walk<D: Disk>(disk: &mut D, len: u64) -> Result<Found, JournalErr>
    requires long { 17 < len }
    requires length { IsTrue (D.tells disk.old) → length (D.seen disk.old) ≡ len }
    requires header { IsTrue (D.tells disk.old) → take 16 (D.seen disk.old) ≡ header }
    ensures tells { D.tells disk.new ≡ D.tells disk.old }
    ensures looks { IsTrue (D.tells disk.old)
        → Looks D.seen D.may_leave D.moment D.left_since disk.old disk.new }
    ensures place { IfOk result (λ found. (found.end < len) × (found.count ≤ found.end)) }
    ensures found { IsTrue (D.tells disk.old)
        → IfOk result (λ found. Ended (D.seen disk.old) found.count found.end found.gate) }
    ensures refused { IfErr result (Refuses (IsTrue (D.tells disk.old)) (D.seen disk.old)) }
    ensures faults { FailsOnly JournalErr.DiskFault
        (D.fault_count disk.old) (D.fault_count disk.new) result }
{
    let mut count = 0;
    let mut end = 16;
    loop {
        match look_at_gate(disk, end, len)? {
            Gate::End(gate) => return Ok(Found { count, end, gate }),
            Gate::Frame(size) => {
                count += 1;
                end += 5 + size;
            }
        }
    }
}
