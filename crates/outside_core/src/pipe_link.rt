ghost use Rattle.std.specs.Prelude.{◌≡◌, ◌↔◌, ◌≤◌, [], Some, IsTrue, IfOk, IsErrOf, length, min};
ghost use Rattle.outcomes.specs.Causes.{FailsOnly};
ghost use Rattle.outside_core.specs.Bytes.{ReadsBytes, TakesBytes};
ghost use Rattle.outside_core.specs.Link.{EndsOnly};

use crate::fuse::Fuse;
use crate::link::{Link, LinkErr};
use crate::sink::{MemSink, Sink};
use crate::source::{MemSource, Source};
use std::alloc::Global;
use std::marker::Model;

/// A link in memory: the bytes of the peer lie ready, and what is sent is kept. Some of its calls
/// fail.
#[derive(Drop)]
pub struct PipeLink {
    source: MemSource,
    sink: MemSink,
    fuse: Fuse,
    ends: u64,
}

impl Model for PipeLink {
    ghost use Rattle.std.specs.Prelude.{◌≡◌, []};
    ghost use Rattle.outside_core.specs.PipeLink.{Pipe};

    ghost Value = { Pipe };

    ghost view = { λ l. record { left = l.source.left; sent = l.sink.held; fuse = l.fuse; ends = l.ends } };

    // The parts never fail by themselves.
    ghost invariant = { λ l. (l.source.fuse.fails ≡ []) × (l.sink.fuse.fails ≡ []) };
}

impl PipeLink {
    /// A link whose peer sends these bytes, and whose calls of `receive` and `send`, counted
    /// together from 0, fail at these numbers.
    pub fn of(alloc: Global, bytes: Vec<u8>, fails: Vec<u64>) -> PipeLink
        ensures { result ≡ record {
          left = bytes.items;
          sent = [];
          fuse = record { fails = fails.items; calls = 0; faults = 0 };
          ends = 0;
        } }
    {
        PipeLink {
            source: MemSource::of(bytes, Vec::new(alloc)),
            sink: MemSink::new(alloc, Vec::new(alloc)),
            fuse: Fuse::new(fails),
            ends: 0,
        }
    }

    /// What was sent, front to back.
    pub fn sent(&self) -> &[u8]
        ensures { result.now ≡ self.now.sent }
    {
        self.sink.bytes()
    }
}

impl Link for PipeLink {
    ghost use Rattle.outside_core.specs.Memory.{trips, called};

    ghost left = { λ l. Some l.left };

    ghost held = { λ l. Some l.sent };

    ghost fault_count = { λ l. l.fuse.faults };

    ghost end_count = { λ l. l.ends };

    fn receive(&mut self, max: usize, out: &mut Vec<u8>) -> Result<usize, LinkErr>
        ensures bytes { ReadsBytes max (Some self.old.left) (Some self.new.left) out.old.items
            out.new.items result }
        ensures held { Some self.new.sent ≡ Some self.old.sent }
        ensures faults { FailsOnly LinkErr.Failed self.old.fuse.faults self.new.fuse.faults result }
        ensures ends { EndsOnly max self.old.ends self.new.ends result }
        // It fails exactly at the calls that it was told.
        ensures fails { IsErrOf result LinkErr.Failed ↔ IsTrue (trips self.old.fuse) }
        ensures counts { self.new.fuse ≡ called self.old.fuse }
        // It gives as many bytes as there are and `max` allows.
        ensures full { IfOk result (λ n. n ≡ min max (length self.old.left)) }
    {
        if self.fuse.call() {
            return Err(LinkErr::Failed);
        }
        let count = match self.source.read(max, out) {
            Ok(count) => count,
            Err(_) => return Err(LinkErr::Memory),
        };
        if count == 0 && max > 0 {
            self.ends = self.ends.saturating_add(1);
        }
        Ok(count)
    }

    fn send(&mut self, bytes: &[u8]) -> Result<usize, LinkErr>
        ensures bytes { TakesBytes (Some self.old.sent) (Some self.new.sent) bytes.now result }
        ensures left { Some self.new.left ≡ Some self.old.left }
        ensures faults { FailsOnly LinkErr.Failed self.old.fuse.faults self.new.fuse.faults result }
        ensures ends { self.old.ends ≤ self.new.ends }
        // It fails exactly at the calls that it was told.
        ensures fails { IsErrOf result LinkErr.Failed ↔ IsTrue (trips self.old.fuse) }
        ensures counts { self.new.fuse ≡ called self.old.fuse }
        // It takes all of the bytes, and meets no end.
        ensures full { IfOk result (λ n. n ≡ length bytes.now) }
        ensures same { self.new.ends ≡ self.old.ends }
    {
        if self.fuse.call() {
            return Err(LinkErr::Failed);
        }
        match self.sink.write(bytes) {
            Ok(count) => Ok(count),
            Err(_) => Err(LinkErr::Memory),
        }
    }

    fn faults(&self) -> u64 {
        self.fuse.faults()
    }

    fn ends(&self) -> u64 {
        self.ends
    }

    fn shut(&mut self)
        ensures bytes { (Some self.new.left ≡ Some self.old.left)
            × (Some self.new.sent ≡ Some self.old.sent) }
        ensures counts { (self.new.fuse.faults ≡ self.old.fuse.faults)
            × (self.new.ends ≡ self.old.ends) }
        ensures same { self.new ≡ self.old }
    {}
}
