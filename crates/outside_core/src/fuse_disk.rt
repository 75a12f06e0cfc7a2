ghost use Rattle.std.specs.Prelude.{◌≡◌, ◌↔◌, ◌≤◌, ◌++◌, ◌+◌, ◌-◌, ◌^◌, ◌⊎◌, ◌<◌, min, true, length, take, drop, IsErr, IfOk, OnOk, OnErr};
ghost use Rattle.std.proofs.Common.{inl, refl};
ghost use Rattle.outcomes.specs.Causes.{FailsOnly, Rose};
ghost use Rattle.outside_core.specs.Crash.{Holds, Torn, CutShort, Same};
ghost use Rattle.outside_core.specs.Past.{moments, HadSince};
ghost use Rattle.outside_core.specs.MemDisk.{only_held, room_of};
ghost use Rattle.outside_core.specs.FuseDisk.{disk_within, held_within, calls_left, stops_of, fuse_faults, PassesWithin};

use crate::disk::{Disk, DiskErr};
use crate::memory_disk::MemDisk;

/// A disk in memory that passes some calls on, and then fails each one without passing it on: what
/// a machine that stops there leaves is the disk within.
#[derive(Drop)]
pub struct FuseDisk {
    disk: MemDisk,
    calls: u64,
    stops: u64,
}

impl FuseDisk {
    /// This disk, which is to take that many calls more.
    pub fn over(disk: MemDisk, calls: u64) -> FuseDisk
        ensures disk { disk_within result ≡ disk }
        ensures calls { calls_left result ≡ calls }
        ensures stops { stops_of result ≡ 0 }
    {
        FuseDisk {
            disk,
            calls,
            stops: 0,
        }
    }

    /// The disk within.
    pub fn inner(self) -> MemDisk
        ensures { result ≡ disk_within self }
    {
        self.disk
    }

    // Counts a call, or the stop.
    fn pass(&mut self) -> Result<(), DiskErr>
        ensures disk { self.new.disk ≡ self.old.disk }
        ensures passes { OnOk result ((0 < self.old.calls)
            × (self.new.calls + 1 ≡ self.old.calls) × (self.new.stops ≡ self.old.stops)) }
        ensures stops { OnErr result ((self.old.calls ≡ 0)
            × (self.new.calls ≡ 0) × Rose self.old.stops self.new.stops) }
    {
        if self.calls == 0 {
            self.stops = self.stops.saturating_add(1);
            return Err(DiskErr::Failed);
        }
        self.calls -= 1;
        Ok(())
    }
}

impl Disk for FuseDisk {
    ghost tells = { λ _. true };

    ghost seen = { λ f. held_within f };

    ghost may_leave = { λ f c. c ≡ held_within f };

    ghost moment = { λ f. moments f.disk.past };

    ghost left_since = { λ f t c. (c ≡ held_within f) ⊎ HadSince t f.disk.past c };

    ghost fault_count = { λ f. fuse_faults f };

    ghost shown = { λ f tells. refl };

    ghost counts_now = { λ f t c tells le now. inl now };

    ghost only_now = { λ f c tells left. only_held f.disk c left };

    fn len(&mut self) -> Result<u64, DiskErr>
        ensures length { IfOk result (λ n. n ≡ length (held_within self.old)) }
        ensures seen { held_within self.new ≡ held_within self.old }
        ensures crash { PassesWithin Same self.old self.new }
        ensures faults { FailsOnly DiskErr.Failed
            (fuse_faults self.old) (fuse_faults self.new) result }
        // It passes the call on, or stops and changes nothing within.
        ensures counts { calls_left self.new ≡ calls_left self.old - 1 }
        ensures fails { IsErr result ↔ (calls_left self.old ≡ 0) }
    {
        self.pass()?;
        self.disk.len()
    }

    fn read_at(&mut self, at: u64, out: &mut [u8]) -> Result<usize, DiskErr>
        ensures within { IfOk result (λ n. n ≤ length out.old) }
        ensures count { IfOk result
            (λ n. n ≡ min (length out.old) (length (held_within self.old) - at)) }
        ensures bytes { IfOk result
            (λ n. out.new ≡ take n (drop at (held_within self.old)) ++ drop n out.old) }
        ensures seen { held_within self.new ≡ held_within self.old }
        ensures crash { PassesWithin Same self.old self.new }
        ensures faults { FailsOnly DiskErr.Failed
            (fuse_faults self.old) (fuse_faults self.new) result }
        // It passes the call on, or stops and changes nothing within.
        ensures counts { calls_left self.new ≡ calls_left self.old - 1 }
        ensures fails { IsErr result ↔ (calls_left self.old ≡ 0) }
    {
        self.pass()?;
        self.disk.read_at(at, out)
    }

    fn write_at(&mut self, at: u64, bytes: &[u8]) -> Result<(), DiskErr>
        requires { at ≤ length (held_within self.old) }
        ensures fits { OnOk result (at + length bytes.now < 2 ^ 64) }
        ensures written { OnOk result
            (Holds (held_within self.old) at bytes.now (held_within self.new)) }
        ensures crash { PassesWithin (Torn at (length bytes.now)) self.old self.new }
        ensures faults { FailsOnly DiskErr.Failed
            (fuse_faults self.old) (fuse_faults self.new) result }
        // It passes the call on, or stops and changes nothing within.
        ensures counts { calls_left self.new ≡ calls_left self.old - 1 }
        ensures fails { IsErr result
            ↔ ((calls_left self.old ≡ 0)
            ⊎ (room_of (disk_within self.old) < at + length bytes.now)) }
        ensures unchanged { OnErr result (held_within self.new ≡ held_within self.old) }
    {
        self.pass()?;
        self.disk.write_at(at, bytes)
    }

    fn cut(&mut self, len: u64) -> Result<(), DiskErr>
        requires { len ≤ length (held_within self.old) }
        ensures shorter { OnOk result (held_within self.new ≡ take len (held_within self.old)) }
        ensures crash { PassesWithin (CutShort len) self.old self.new }
        ensures faults { FailsOnly DiskErr.Failed
            (fuse_faults self.old) (fuse_faults self.new) result }
        // It passes the call on, or stops and changes nothing within.
        ensures counts { calls_left self.new ≡ calls_left self.old - 1 }
        ensures fails { IsErr result ↔ (calls_left self.old ≡ 0) }
        ensures unchanged { OnErr result (held_within self.new ≡ held_within self.old) }
    {
        self.pass()?;
        self.disk.cut(len)
    }

    fn sync(&mut self) -> Result<(), DiskErr>
        ensures seen { held_within self.new ≡ held_within self.old }
        ensures crash { PassesWithin Same self.old self.new }
        ensures faults { FailsOnly DiskErr.Failed
            (fuse_faults self.old) (fuse_faults self.new) result }
        // It passes the call on, or stops and changes nothing within.
        ensures counts { calls_left self.new ≡ calls_left self.old - 1 }
        ensures fails { IsErr result ↔ (calls_left self.old ≡ 0) }
    {
        self.pass()?;
        self.disk.sync()
    }

    fn faults(&self) -> u64 {
        self.stops.saturating_add(self.disk.faults())
    }
}
