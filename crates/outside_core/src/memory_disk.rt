ghost use Rattle.std.specs.Prelude.{◌≡◌, ◌↔◌, ◌<◌, ◌+◌, ◌^◌, IsErr, IsOk, Ok, min, ◌-◌, ◌≤◌, ◌⊎◌, ◌++◌, [], true, IfOk, OnOk, OnErr, take, drop, length, vec_len, vec_capacity};
ghost use Rattle.std.proofs.Common.{inl, refl};
ghost use Rattle.outcomes.specs.Causes.{FailsOnly, Rose};
ghost use Rattle.outside_core.specs.Crash.{Holds, Torn, CutShort, Same};
ghost use Rattle.outside_core.specs.Past.{Grew, moments, HadSince};

use crate::disk::{Disk, DiskErr};
use crate::memory_error::MemErr;
use std::alloc::{AllocError, Global};
use std::snapshot::Snapshot;

/// What a disk in memory has held before, newest first, as clauses see it: it has no bytes of its
/// own.
#[derive(Drop)]
pub enum Past {
    Start,
    After(Snapshot<Vec<u8>>, usize, Snapshot<Past>),
}

/// A disk in memory. It reserves all its room when it is made, so no write takes memory, but touches
/// no more of it than was written. A write past its room is a failed call. Each call is done at
/// once, so a crash leaves what is there.
#[derive(Drop)]
pub struct MemDisk {
    room: Vec<u8>,
    len: usize,
    capacity: usize,
    past: Past,
    faults: u64,
    ghost within: { (len ≤ vec_len room) × (vec_len room ≤ capacity) },
    ghost reserved: { capacity ≤ vec_capacity room },
}

impl MemDisk {
    ghost use Rattle.outside_core.specs.MemDisk.{held, room_of, faults_of};

    /// An empty disk, with room for so many bytes.
    pub fn new(alloc: Global, capacity: usize) -> Result<MemDisk, MemErr>
        ensures bytes { IfOk result (λ d. held d ≡ []) }
        ensures capacity { IfOk result (λ d. room_of d ≡ capacity) }
        ensures faults { IfOk result (λ d. faults_of d ≡ 0) }
    {
        let room = Vec::with_capacity(alloc, capacity)?;
        Ok(MemDisk {
            room,
            len: 0,
            capacity,
            past: Past::Start,
            faults: 0,
        })
    }

    /// A disk that holds these bytes, all of them as if synced.
    pub fn of(alloc: Global, bytes: &[u8], capacity: usize) -> Result<MemDisk, MemErr>
        requires { length bytes.now ≤ capacity }
        ensures bytes { IfOk result (λ d. held d ≡ bytes.now) }
        ensures capacity { IfOk result (λ d. room_of d ≡ capacity) }
        ensures faults { IfOk result (λ d. faults_of d ≡ 0) }
    {
        let mut room = Vec::with_capacity(alloc, capacity)?;
        room.extend_from_slice(bytes)?;
        Ok(MemDisk {
            room,
            len: bytes.len(),
            capacity,
            past: Past::Start,
            faults: 0,
        })
    }

    /// What it holds.
    pub fn bytes(&self) -> &[u8]
        ensures { result.now ≡ held self.now }
    {
        &self.room[..self.len]
    }

    // Makes the bytes up to there ones that were written, within the room.
    fn reach(&mut self, end: usize)
        requires { end ≤ room_of self.old }
        ensures held { held self.new ≡ held self.old }
        ensures reached { end ≤ vec_len self.new.room }
        ensures len { self.new.len ≡ self.old.len }
        ensures past { self.new.past ≡ self.old.past }
        ensures room { room_of self.new ≡ room_of self.old }
        ensures faults { self.new.faults ≡ self.old.faults }
    {
        if self.room.len() < end {
            self.room.resize(end, 0).unwrap();
        }
    }

    fn fail(&mut self) -> DiskErr
        ensures held { held self.new ≡ held self.old }
        ensures past { self.new.past ≡ self.old.past }
        ensures room { room_of self.new ≡ room_of self.old }
        ensures faults { Rose self.old.faults self.new.faults }
    {
        self.faults = self.faults.saturating_add(1);
        DiskErr::Failed
    }
}

// Puts what is held now before the past.
fn remember(room: &Vec<u8>, len: usize, past: &mut Past)
    ensures { Grew past.old (take len room.now.items) past.new }
{
    let before = Snapshot::of(past);
    *past = Past::After(Snapshot::of(room), len, before);
}

impl Disk for MemDisk {
    ghost use Rattle.outside_core.specs.MemDisk.{held, only_held, room_of, faults_of, PassesInMemory};

    ghost tells = { λ _. true };

    ghost seen = { λ d. held d };

    ghost may_leave = { λ d c. c ≡ held d };

    ghost moment = { λ d. moments d.past };

    ghost left_since = { λ d t c. (c ≡ held d) ⊎ HadSince t d.past c };

    ghost fault_count = { λ d. faults_of d };

    ghost shown = { λ d tells. refl };

    ghost counts_now = { λ d t c tells le now. inl now };

    ghost only_now = { λ d c tells left. only_held d c left };

    fn len(&mut self) -> Result<u64, DiskErr>
        ensures length { result ≡ Ok (length (held self.old)) }
        ensures same { self.new ≡ self.old }
        ensures crash { PassesInMemory Same self.old self.new }
    {
        Ok(self.len as u64)
    }

    fn read_at(&mut self, at: u64, out: &mut [u8]) -> Result<usize, DiskErr>
        ensures count { result ≡ Ok (min (length out.old) (length (held self.old) - at)) }
        ensures bytes { IfOk result
            (λ n. out.new ≡ take n (drop at (held self.old)) ++ drop n out.old) }
        ensures same { self.new ≡ self.old }
        ensures crash { PassesInMemory Same self.old self.new }
    {
        let from = at.min(self.len as u64) as usize;
        let count = out.len().min(self.len - from);
        out[..count].copy_from_slice(&self.room[from..from + count]);
        Ok(count)
    }

    fn write_at(&mut self, at: u64, bytes: &[u8]) -> Result<(), DiskErr>
        requires { at ≤ length (held self.old) }
        ensures fits { OnOk result (at + length bytes.now < 2 ^ 64) }
        ensures written { OnOk result (Holds (held self.old) at bytes.now (held self.new)) }
        ensures crash { PassesInMemory (Torn at (length bytes.now)) self.old self.new }
        ensures faults { FailsOnly DiskErr.Failed (faults_of self.old) (faults_of self.new) result }
        // It fails exactly past its room, and then holds what it held.
        ensures fails { IsErr result ↔ (room_of self.old < at + length bytes.now) }
        ensures unchanged { OnErr result (held self.new ≡ held self.old) }
        ensures room { room_of self.new ≡ room_of self.old }
    {
        let at = at as usize;
        if bytes.len() > self.capacity - at {
            return Err(self.fail());
        }
        remember(&self.room, self.len, &mut self.past);
        self.reach(at + bytes.len());
        self.room[at..at + bytes.len()].copy_from_slice(bytes);
        self.len = self.len.max(at + bytes.len());
        Ok(())
    }

    fn cut(&mut self, len: u64) -> Result<(), DiskErr>
        requires { len ≤ length (held self.old) }
        ensures done { IsOk result }
        ensures shorter { held self.new ≡ take len (held self.old) }
        ensures crash { PassesInMemory (CutShort len) self.old self.new }
        ensures faults { faults_of self.new ≡ faults_of self.old }
        ensures room { room_of self.new ≡ room_of self.old }
    {
        remember(&self.room, self.len, &mut self.past);
        self.len = len as usize;
        Ok(())
    }

    fn sync(&mut self) -> Result<(), DiskErr>
        ensures done { IsOk result }
        ensures same { self.new ≡ self.old }
        ensures crash { PassesInMemory Same self.old self.new }
    {
        Ok(())
    }

    fn faults(&self) -> u64 {
        self.faults
    }
}
