ghost use Rattle.std.specs.Prelude.{◌≡◌, Some};
ghost use Rattle.participant.specs.Part.{open_of};
ghost use Rattle.participant.specs.Statement.{own_of};
ghost use Rattle.shard_core.specs.NodeStep.{core_of};
ghost use Rattle.shard_core.specs.State.{resolved_of};

use coordinator::Coord;
use participant::Participant;
use shard_image::Image;
use std::alloc::Global;
use std::marker::Model;
use txn_types::{HybridClock, Lsid, Ts, Write};

/// A shard's core: the greatest wall that it has met, in seconds since 1970; its clock; its part in
/// transactions; those that it coordinates; and the count of faults of its disk, where it was
/// stopped.
#[derive(Drop)]
pub struct Shard {
    pub(crate) alloc: Global,
    pub(crate) wall: u32,
    pub(crate) clock: HybridClock,
    pub(crate) part: Participant,
    pub(crate) coord: Coord,
    pub(crate) stopped: Option<u64>,
}

impl Model for Shard {
    ghost use Rattle.std.specs.Coded.{codes};
    ghost use Rattle.bson_core.specs.contracts.value.Value as value;
    ghost use Rattle.shard_core.specs.State.{ShardState};

    ghost Value = { ShardState };

    ghost coded = { Prim.hlevel (codes, value.the_row.coded) };

    ghost view = { λ s. record { wall = s.wall; clock = record { last = s.clock.last; ceiling = s.clock.ceiling }; part = s.part; coord = s.coord; stopped = s.stopped } };
}

impl Shard {
    /// A shard that starts with the state of its journal's records. Its clock stands at the last
    /// ceiling, since it may have told any time below.
    pub fn of(alloc: Global, shard: u16, image: Image) -> Shard
        ensures { result ≡ core_of shard image }
    {
        let Image {
            boot,
            ceiling,
            store,
            sessions,
            pending,
            coord,
            ..
        } = image;
        Shard {
            alloc,
            wall: 0,
            clock: HybridClock {
                last: ceiling,
                ceiling,
            },
            part: Participant::of(alloc, shard, boot, store, sessions, pending),
            coord,
            stopped: None,
        }
    }

    /// Stops the shard: its disk has failed, and its count of faults is this one.
    pub fn stop(&mut self, faults: u64)
        ensures { self.new ≡ record self.old { stopped = Some faults } }
    {
        self.stopped = Some(faults);
    }

    /// How often its journal was started.
    pub fn boot(&self) -> u32
        ensures { result ≡ self.now.part.boot }
    {
        self.part.boot()
    }

    /// What the session's live transaction has written so far, in its order; nothing, where none is
    /// live.
    pub fn writes_of<'a>(&'a self, lsid: &Lsid) -> &'a [Write]
        ensures { result.now ≡ own_of (open_of self.now.part lsid.now) }
    {
        self.part.writes_of(lsid)
    }

    /// The clock, or one below the least prepare timestamp that stands: no later commit is at or
    /// below it. It goes through all sessions.
    pub fn resolved(&self) -> Ts
        ensures { result ≡ resolved_of self.now }
    {
        match self.part.least_prepared() {
            Some(at) => Ts(self.clock.last.0.min(at.0.saturating_sub(1))),
            None => self.clock.last,
        }
    }
}
