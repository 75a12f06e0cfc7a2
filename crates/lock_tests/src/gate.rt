ghost use Rattle.std.specs.Prelude.{◌≡◌};

use crate::flag::{Ask, Flag, Told};
use bson_core::Bytes;
use node_server::{Next, NextOf, Talk, TalkErr};
use outside_core::{Link, LinkErr, PipeLink};
use std::alloc::Global;
use std::sync::Wait;
use std::sync::atomic::{AtomicU64, Ordering};
use std::thread;

/// How often a gate is looked at before it fails.
const TURNS: u32 = 1_000_000;

/// A link whose peer sends only once a gate is open, which some other thread opens.
#[derive(Drop)]
pub struct GateLink<'a> {
    pipe: PipeLink,
    gate: &'a AtomicU64,
    faults: u64,
}

impl<'a> GateLink<'a> {
    pub fn of(pipe: PipeLink, gate: &'a AtomicU64) -> GateLink<'a> {
        GateLink {
            pipe,
            gate,
            faults: 0,
        }
    }

    /// What was sent, front to back.
    pub fn sent(&self) -> &[u8] {
        self.pipe.sent()
    }

    fn is_open(&self) -> bool {
        for _ in 0..TURNS {
            if self.gate.load(Ordering::SeqCst) > 0 {
                return true;
            }
            thread::yield_now();
        }
        false
    }
}

impl<'a> Link for GateLink<'a> {
    ghost use Rattle.std.specs.Prelude.{Some};

    ghost left = { λ l. Some l.pipe.left };

    ghost held = { λ l. Some l.pipe.sent };

    ghost fault_count = { λ l. l.faults };

    ghost end_count = { λ l. l.pipe.ends };

    fn receive(&mut self, max: usize, out: &mut Vec<u8>) -> Result<usize, LinkErr> {
        if !self.is_open() {
            self.faults = self.faults.saturating_add(1);
            return Err(LinkErr::Failed);
        }
        match self.pipe.receive(max, out) {
            Ok(count) => Ok(count),
            Err(LinkErr::Memory) => Err(LinkErr::Memory),
            Err(LinkErr::Failed) => {
                self.faults = self.faults.saturating_add(1);
                Err(LinkErr::Failed)
            }
        }
    }

    fn send(&mut self, bytes: &[u8]) -> Result<usize, LinkErr> {
        match self.pipe.send(bytes) {
            Ok(count) => Ok(count),
            Err(LinkErr::Memory) => Err(LinkErr::Memory),
            Err(LinkErr::Failed) => {
                self.faults = self.faults.saturating_add(1);
                Err(LinkErr::Failed)
            }
        }
    }

    fn faults(&self) -> u64 {
        self.faults
    }

    fn ends(&self) -> u64 {
        self.pipe.ends()
    }

    fn shut(&mut self) {
        self.pipe.shut();
    }
}

/// What a connection makes of messages to the flag: byte 16 says whether it asks for the flag, 0,
/// or sets it. It holds while the flag isn't set, and then opens the gate.
#[derive(Drop)]
pub struct Porter<'a> {
    pub alloc: Global,
    pub gate: &'a AtomicU64,
}

impl<'a> Talk<Flag> for Porter<'a> {
    ghost makes = { λ old frame made new. Unit {0} };

    ghost carries = { λ old told next new. Unit {0} };

    ghost fault_count = { λ t. 0 };

    ghost frame_limit = { λ t. 64 };

    fn event(&mut self, frame: Bytes) -> Result<Ask, TalkErr> {
        match frame.as_slice().get(16) {
            Some(0) => Ok(Ask::Wait),
            _ => Ok(Ask::Set),
        }
    }

    fn after<R: Wait>(&mut self, _rt: &R, told: &Told) -> Result<Next<Flag>, TalkErr> {
        match *told {
            Told::Held => {
                self.gate.store(1, Ordering::SeqCst);
                Ok(NextOf::Hold)
            }
            Told::Passed => match Vec::from_slice(self.alloc, &[7u8]) {
                Ok(bytes) => Ok(NextOf::Write(Bytes::new(bytes))),
                Err(_) => Err(TalkErr::Memory),
            },
        }
    }

    fn limit(&self) -> u32 {
        64
    }

    fn faults(&self) -> u64 {
        0
    }
}
