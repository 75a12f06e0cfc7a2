ghost use Rattle.std.specs.Prelude.{◌≡◌, ◌≢◌, ◌≤◌, ◌<◌, ◌%◌, ◌^◌, ◌∷◌, ◌++◌, ℕ, List, [], Ok, Some, None, length, IfErr, MatchResult, OnErr};
ghost use Rattle.outcomes.specs.Causes.{Rose};
ghost use Rattle.op_msg.specs.Stream.{next_of};
ghost use Rattle.node_server.specs.Reads.{Takes, EndsAt, Fetches};

use crate::ended::Ended;
use bson_core::Bytes;
use op_msg::{Feeder, FrameErr};
use outside_core::{Link, LinkErr};
use std::alloc::Global;
use std::sync::Wait;

/// How many bytes are asked of a link at once.
const PIECE: usize = 16_384;

/// The bytes of a peer, which are cut into messages.
#[derive(Drop)]
pub(crate) struct Incoming {
    pub(crate) feeder: Feeder,
    /// How many bytes the feeder holds.
    held: usize,
    piece: Vec<u8>,
    ghost counted: { held ≡ length feeder.held % 2 ^ 64 },
}

impl Incoming {
    /// Nothing has come. No message is taken that is longer than `limit`.
    pub(crate) fn new(alloc: Global, limit: u32) -> Incoming
        ensures { result.feeder ≡ record { held = []; limit = limit } }
    {
        Incoming {
            feeder: Feeder::new(alloc, limit),
            held: 0,
            piece: Vec::new(alloc),
        }
    }

    // The next message, where all of it is held.
    fn take(&mut self) -> Result<Option<Bytes>, Ended>
        ensures limit { self.new.feeder.limit ≡ self.old.feeder.limit }
        ensures takes { Takes self.old.feeder.limit self.old.feeder.held
            self.new.feeder.held result }
    {
        match self.feeder.next() {
            Ok(Some(frame)) => {
                self.held = self.held.wrapping_sub(frame.as_slice().len());
                Ok(Some(frame))
            }
            Ok(None) => Ok(None),
            Err(FrameErr::Memory) => Err(Ended::Memory),
            Err(err) => Err(Ended::BadFrame { err }),
        }
    }

    // How the peer ended, where no message is held.
    fn end(&self) -> Ended
        requires none { next_of self.now.feeder.limit self.now.feeder.held ≡ Ok None }
        requires limit { self.now.feeder.limit < 2 ^ 32 }
        ensures { EndsAt self.now.feeder.held result }
    {
        if self.held == 0 {
            Ended::Done
        } else {
            Ended::Cut
        }
    }

    // Holds what the link gives, after what is held, which has no message.
    fn read_more<L: Link>(&mut self, link: &mut L) -> Result<(), Ended>
        requires none { next_of self.old.feeder.limit self.old.feeder.held ≡ Ok None }
        requires limit { self.old.feeder.limit < 2 ^ 32 }
        ensures limit { self.new.feeder.limit ≡ self.old.feeder.limit }
        ensures held { L.held link.new ≡ L.held link.old }
        ensures later { (L.fault_count link.old ≤ L.fault_count link.new)
            × (L.end_count link.old ≤ L.end_count link.new) }
        ensures fetches { Fetches self.old.feeder.limit self.old.feeder.held
            (λ _ rest. rest ≡ self.new.feeder.held) (L.left link.old) (L.left link.new)
            (L.fault_count link.old) (L.fault_count link.new) (L.end_count link.old)
            (L.end_count link.new) result }
    {
        self.piece.clear();
        let count = match link.receive(PIECE, &mut self.piece) {
            Ok(count) => count,
            Err(LinkErr::Failed) => return Err(Ended::LinkFault),
            Err(LinkErr::Memory) => return Err(Ended::Memory),
        };
        if count == 0 {
            return Err(self.end());
        }
        if self.feeder.feed(self.piece.as_slice()).is_err() {
            return Err(Ended::Memory);
        }
        self.held = self.held.wrapping_add(count);
        Ok(())
    }

    /// The next message. It waits for the peer.
    pub(crate) fn next<R: Wait, L: Link>(&mut self, rt: &R, link: &mut L) -> Result<Bytes, Ended>
        requires limit { self.old.feeder.limit < 2 ^ 32 }
        ensures limit { self.new.feeder.limit ≡ self.old.feeder.limit }
        ensures held { L.held link.new ≡ L.held link.old }
        ensures later { (L.fault_count link.old ≤ L.fault_count link.new)
            × (L.end_count link.old ≤ L.end_count link.new) }
        ensures fetches { Fetches self.old.feeder.limit self.old.feeder.held
            (λ frame rest. next_of self.old.feeder.limit rest
            ≡ Ok (Some (frame, self.new.feeder.held))) (L.left link.old) (L.left link.new)
            (L.fault_count link.old) (L.fault_count link.new) (L.end_count link.old)
            (L.end_count link.new) result }
    {
        for _ in rt.forever() {
            if let Some(frame) = self.take()? {
                return Ok(frame);
            }
            if let Err(ended) = self.read_more(link) {
                return Err(ended);
            }
        }
        unreachable!()
    }
}
