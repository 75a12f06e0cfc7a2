ghost use Rattle.std.specs.Prelude.{◌≡◌, ◌≢◌, ◌↔◌, ◌⊎◌, ◌≤◌, ◌<◌, ◌+◌, ◌++◌, [], ◌∷◌, ℕ, List, Ok, false, IsTrue, IfOk, IfErr, OnOk, OnErr, IsErrOf, length, is_err, map};
ghost use Rattle.outcomes.specs.Causes.{FailsOnly, Rose};
ghost use Rattle.outside_core.specs.Crash.{LeavesOnly};
ghost use Rattle.journal_core.specs.Frames.{payloads_of, end_of};
ghost use Rattle.journal_core.specs.Left.{Leaves, IsAtRest};
ghost use Rattle.journal_core.specs.Looks.{Looks};
ghost use Rattle.journal_core.specs.Starts.{Refuses, StandsAt};

use crate::append::{put_gate, stage};
use crate::error::JournalErr;
use crate::read::read_frame;
use crate::start::open;
use crate::walk::OPEN;
use outside_core::Disk;
use std::alloc::Global;
use std::marker::Model;

/// How many bytes a payload may have: 128 MiB.
pub const MOST_PAYLOAD: usize = 134_217_728;

/// A list of payloads on a disk.
///
/// The file has the 16 bytes `MTX JOURNAL 0001`, then frames, then a gate byte. A frame is a gate
/// byte A5, the length of its payload as a `u32`, low byte first, and the payload. Any gate byte
/// other than A5 is the end.
#[derive(Drop)]
pub struct Journal<D: Disk> {
    disk: D,
    count: u64,
    end: u64,
    closed: bool,
}

impl<D: Disk> Model for Journal<D> {
    ghost use Rattle.journal_core.specs.State.{JournalState, IsSound};
    ghost use Rattle.journal_core.specs.Frames.{frames_on};

    ghost Value = { JournalState D };

    ghost view = { λ j. record {
      disk = j.disk;
      frames = frames_on (D.seen j.disk);
      count = j.count;
      end = j.end;
      closed = j.closed;
    } };

    ghost invariant = { λ j.
        IsSound (D.tells j.disk) (D.seen j.disk) (D.may_leave j.disk) j.count j.end j.closed };
}

impl<D: Disk> Journal<D> {
    ghost use Rattle.journal_core.specs.State.{disk_of};

    /// Opens the journal of a disk: makes durable what is there, reads its frames, and mends its
    /// end. A file of at most 17 bytes is new, whatever it holds. A refusal gives the disk back.
    /// It takes no memory.
    pub fn start(disk: D) -> Result<Journal<D>, (JournalErr, D)>
        ensures tells { D.tells (disk_of result) ≡ D.tells disk }
        ensures opened { IfOk result (λ j. j.closed ≡ false) }
        // What the file's bytes say, and what stands there now.
        ensures found { IsTrue (D.tells disk)
            → IfOk result (λ j. payloads_of (D.seen disk) ≡ Ok j.frames) }
        ensures rests { IsTrue (D.tells disk)
            → IfOk result (λ j.
            IsAtRest (D.seen j.disk) (D.may_leave j.disk) j.frames j.count j.end) }
        ensures refused { IfErr result (λ e. Refuses (IsTrue (D.tells disk)) (D.seen disk) e.0) }
        // A file that is at fault stays as it is.
        ensures kept { IsTrue (D.tells disk) → IfErr result (λ e.
            e.0 ≢ JournalErr.DiskFault → D.seen e.1 ≡ D.seen disk) }
        ensures later { D.fault_count disk ≤ D.fault_count (disk_of result) }
        ensures fault { IfErr result (λ e.
            e.0 ≡ JournalErr.DiskFault → Rose (D.fault_count disk) (D.fault_count e.1)) }
        // On a disk that a journal left, a crash at any moment leaves what a crash of that journal
        // might have left.
        ensures any_moment { IsTrue (D.tells disk)
            → (frames : List (List ℕ)) (hand : List ℕ)
            → ((c : List ℕ) → D.may_leave disk c → Leaves frames hand c)
            → LeavesOnly D.moment D.left_since disk (disk_of result) (Leaves frames hand) }
    {
        let mut disk = disk;
        match open(&mut disk) {
            Ok(found) => Ok(Journal {
                disk,
                count: found.count,
                end: found.end,
                closed: false,
            }),
            Err(error) => Err((error, disk)),
        }
    }

    /// The place of the first frame.
    pub fn first(&self) -> u64
        ensures { result ≡ 16 }
    {
        16
    }

    /// How many payloads there are.
    pub fn count(&self) -> u64
        ensures value { result ≡ self.now.count }
        ensures frames { IsTrue (D.tells self.now.disk) → self.now.closed ≡ false
            → result ≡ length self.now.frames }
    {
        self.count
    }

    /// The place after the last frame.
    pub fn end(&self) -> u64
        ensures value { result ≡ self.now.end }
        ensures frames { IsTrue (D.tells self.now.disk) → self.now.closed ≡ false
            → result ≡ end_of self.now.frames }
    {
        self.end
    }

    /// How often a call of its disk has failed; it stands still at 2^64 - 1.
    pub fn faults(&self) -> u64
        ensures { result ≡ D.fault_count self.now.disk }
    {
        self.disk.faults()
    }

    /// The disk, to start again.
    pub fn into_disk(self) -> D
        ensures { result ≡ self.disk }
    {
        let Journal { disk, .. } = self;
        disk
    }

    /// Appends the payload of the frame at this place to `out`, and answers the place of the next
    /// frame. It is to be asked only where a frame stands; of another place it says nothing, and
    /// does no harm. After `DiskFault` the journal is closed.
    pub fn read(&mut self, place: u64, out: &mut Vec<u8>) -> Result<u64, JournalErr>
        ensures payload { IsTrue (D.tells self.old.disk)
            → (payload : List ℕ) → StandsAt (D.seen self.old.disk) place payload
            → place + 5 + length payload ≤ self.old.end
            → IfOk result (λ next. (next ≡ place + 5 + length payload)
            × (out.new.items ≡ out.old.items ++ payload)) }
        ensures unchanged { OnErr result (out.new.items ≡ out.old.items) }
        ensures errors { IfErr result (λ e.
            (e ≡ JournalErr.DiskFault) ⊎ (e ≡ JournalErr.Memory)) }
        ensures faults { FailsOnly JournalErr.DiskFault
            (D.fault_count self.old.disk) (D.fault_count self.new.disk) result }
        ensures closes { IsTrue self.new.closed
            ↔ (IsTrue self.old.closed ⊎ IsErrOf result JournalErr.DiskFault) }
        ensures tells { D.tells self.new.disk ≡ D.tells self.old.disk }
        ensures same { (self.new.count ≡ self.old.count) × (self.new.end ≡ self.old.end) }
        ensures looks { IsTrue (D.tells self.old.disk) → (self.new.frames ≡ self.old.frames)
            × Looks D.seen D.may_leave D.moment D.left_since self.old.disk self.new.disk }
    {
        let next = read_frame(&mut self.disk, place, self.end, out);
        if let Err(JournalErr::DiskFault) = next {
            self.closed = true;
        }
        next
    }

    /// All payloads, front to back. After `DiskFault` the journal is closed.
    pub fn payloads(&mut self, alloc: Global) -> Result<Vec<Vec<u8>>, JournalErr>
        ensures all { IsTrue (D.tells self.old.disk) → self.old.closed ≡ false
            → IfOk result (λ all. map (λ payload. payload.items) all.items ≡ self.old.frames) }
        ensures errors { IfErr result (λ e.
            (e ≡ JournalErr.DiskFault) ⊎ (e ≡ JournalErr.Memory)) }
        ensures faults { FailsOnly JournalErr.DiskFault
            (D.fault_count self.old.disk) (D.fault_count self.new.disk) result }
        ensures closes { IsTrue self.new.closed
            ↔ (IsTrue self.old.closed ⊎ IsErrOf result JournalErr.DiskFault) }
        ensures tells { D.tells self.new.disk ≡ D.tells self.old.disk }
        ensures same { (self.new.count ≡ self.old.count) × (self.new.end ≡ self.old.end) }
        ensures looks { IsTrue (D.tells self.old.disk) → (self.new.frames ≡ self.old.frames)
            × Looks D.seen D.may_leave D.moment D.left_since self.old.disk self.new.disk }
    {
        let count = self.count;
        let mut all = Vec::new(alloc);
        let mut place = self.first();
        for _i in 0..count {
            let mut payload = Vec::new(alloc);
            place = self.read(place, &mut payload)?;
            match all.push(payload) {
                Ok(()) => {}
                Err(_) => return Err(JournalErr::Memory),
            }
        }
        Ok(all)
    }

    /// Adds a payload. At `Ok` it is acknowledged: from then on each crash leaves a file that has
    /// it. After `DiskFault` the journal is closed, and takes nothing until its disk is started
    /// again. It takes no memory.
    pub fn append(&mut self, payload: &[u8]) -> Result<(), JournalErr>
        requires { length payload.now ≤ MOST_PAYLOAD }
        ensures closed { IsErrOf result JournalErr.Closed ↔ IsTrue self.old.closed }
        ensures refused { IsTrue self.old.closed → self.new ≡ self.old }
        ensures closes { self.new.closed ≡ is_err result }
        ensures same { OnErr result
            ((self.new.count ≡ self.old.count) × (self.new.end ≡ self.old.end)) }
        ensures errors { IfErr result (λ e.
            (e ≡ JournalErr.DiskFault) ⊎ (e ≡ JournalErr.Closed)) }
        ensures faults { FailsOnly JournalErr.DiskFault
            (D.fault_count self.old.disk) (D.fault_count self.new.disk) result }
        ensures tells { D.tells self.new.disk ≡ D.tells self.old.disk }
        ensures acknowledged { IsTrue (D.tells self.old.disk)
            → OnOk result (self.new.frames ≡ self.old.frames ++ payload.now ∷ []) }
        ensures rests { IsTrue (D.tells self.old.disk)
            → OnOk result (IsAtRest (D.seen self.new.disk) (D.may_leave self.new.disk)
            self.new.frames self.new.count self.new.end) }
        // A crash at any moment of the call leaves the payloads from before it, or these with the
        // new one.
        ensures any_moment { IsTrue (D.tells self.old.disk) → self.old.closed ≡ false
            → LeavesOnly D.moment D.left_since self.old.disk self.new.disk
            (Leaves self.old.frames payload.now) }
    {
        if self.closed {
            return Err(JournalErr::Closed);
        }
        self.closed = true;
        stage(&mut self.disk, self.end, payload)?;
        put_gate(&mut self.disk, self.end, OPEN)?;
        self.count += 1;
        self.end += 5 + payload.len() as u64;
        self.closed = false;
        Ok(())
    }
}
