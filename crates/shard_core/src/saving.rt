//! What is kept of a shard before a message comes, so that nothing has changed where memory is
//! wanted after it.
ghost use Rattle.std.specs.Prelude.{◌≡◌, max, IfOk, MatchOption};
ghost use Rattle.participant.specs.Expiry.{expire};
ghost use Rattle.shard_core.specs.Saved.{restored, IsSaved};

use crate::shard::Shard;
use participant::Participant;
use std::alloc::AllocError;
use txn_types::HybridClock;

/// What can't be undone: time, and a copy of the part, where something expires.
#[derive(Drop)]
pub struct Saved {
    pub wall: u32,
    pub clock: HybridClock,
    pub part: Option<Participant>,
}

impl Shard {
    /// A copy of the part, where something expires at this wall.
    fn saved_part(&self, wall: u32) -> Result<Option<Participant>, AllocError>
        ensures { IfOk result (λ part. MatchOption part (expire self.now.part
            (max self.now.wall wall) ≡ self.now.part) (λ p. p ≡ self.now.part)) }
    {
        if self.part.has_expired(self.wall.max(wall)) {
            match self.part.copy() {
                Ok(part) => Ok(Some(part)),
                Err(AllocError) => Err(AllocError),
            }
        } else {
            Ok(None)
        }
    }

    /// What is kept where a message comes at this wall. It takes memory where something expires.
    pub(crate) fn saved(&self, wall: u32) -> Result<Saved, AllocError>
        ensures { IfOk result (λ kept. IsSaved self.now wall kept) }
    {
        match self.saved_part(wall) {
            Ok(part) => Ok(Saved {
                wall: self.wall,
                clock: self.clock,
                part,
            }),
            Err(AllocError) => Err(AllocError),
        }
    }

    /// Puts back what was kept.
    pub(crate) fn restore(&mut self, kept: Saved)
        ensures { self.new ≡ restored self.old kept }
    {
        self.wall = kept.wall;
        self.clock = kept.clock;
        if let Some(part) = kept.part {
            self.part = part;
        }
    }
}
