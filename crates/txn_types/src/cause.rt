ghost use Rattle.std.specs.Prelude.{◌≡◌, IfOk};
ghost use Rattle.txn_types.specs.Causes.{cause_number};

use crate::id::Id;
use crate::names::Tag;
use crate::operation::OpErr;
use crate::time::Ts;
use std::alloc::{AllocError, Global};

/// With what a write conflicts: a transaction that isn't finished, or a commit.
#[derive(Clone, Copy)]
pub enum By {
    Tag(Tag),
    At(Ts),
}

impl By {
    pub fn copy(&self) -> By
        ensures { result ≡ self.now }
    {
        *self
    }
}

/// Why a shard refuses or ends a transaction. They have the numbers from 1 in this order.
#[derive(Drop)]
pub enum Cause {
    /// A document that it writes has an unfinished version of another, or a commit above its read
    /// timestamp.
    WriteConflict { id: Id, by: By },
    /// It was begun here more than 60 seconds before.
    Expired { begun: u32, now: u32 },
    /// It was aborted: 1 by the client, 2 with its session, 3 at a recovery, 4 as the connection
    /// was gone, 5 as another shard refused it, 6 by a larger number.
    ClientAbort { why: u8 },
    /// The shard was started again since.
    Unavailable { carried: u32, have: u32 },
    /// The shard's disk failed.
    Faulted { faults: u64 },
    /// The statement itself is refused.
    Statement { err: OpErr },
    /// The session has a larger number, or another transaction on this one.
    Replaced { number: i64, tag: Tag },
    /// Its writes here would have more than 100,000,000 bytes.
    Volume { bytes: u64 },
    /// The clock stands at the last time that there is.
    ClockEnd { last: Ts },
    /// The session's older transaction is prepared.
    PreparedStands { tag: Tag },
    TooManySessions,
    /// A participant voted with the cause of this number.
    Voted { shard: u16, code: u8 },
    /// There was no memory.
    Memory,
    /// Versions at its read timestamp are no longer kept.
    SnapshotTooOld { at: Ts, floor: Ts },
}

impl Cause {
    /// The number of its kind.
    pub fn number(&self) -> u8
        ensures { result ≡ cause_number self.now }
    {
        match self {
            Cause::WriteConflict { .. } => 1,
            Cause::Expired { .. } => 2,
            Cause::ClientAbort { .. } => 3,
            Cause::Unavailable { .. } => 4,
            Cause::Faulted { .. } => 5,
            Cause::Statement { .. } => 6,
            Cause::Replaced { .. } => 7,
            Cause::Volume { .. } => 8,
            Cause::ClockEnd { .. } => 9,
            Cause::PreparedStands { .. } => 10,
            Cause::TooManySessions => 11,
            Cause::Voted { .. } => 12,
            Cause::Memory => 13,
            Cause::SnapshotTooOld { .. } => 14,
        }
    }

    pub fn copy(&self, alloc: Global) -> Result<Cause, AllocError>
        ensures { IfOk result (λ c. c ≡ self.now) }
    {
        match self {
            Cause::WriteConflict { id, by } => Ok(Cause::WriteConflict {
                id: id.copy(alloc)?,
                by: *by,
            }),
            Cause::Expired { begun, now } => Ok(Cause::Expired {
                begun: *begun,
                now: *now,
            }),
            Cause::ClientAbort { why } => Ok(Cause::ClientAbort { why: *why }),
            Cause::Unavailable { carried, have } => Ok(Cause::Unavailable {
                carried: *carried,
                have: *have,
            }),
            Cause::Faulted { faults } => Ok(Cause::Faulted { faults: *faults }),
            Cause::Statement { err } => Ok(Cause::Statement {
                err: err.copy(alloc)?,
            }),
            Cause::Replaced { number, tag } => Ok(Cause::Replaced {
                number: *number,
                tag: *tag,
            }),
            Cause::Volume { bytes } => Ok(Cause::Volume { bytes: *bytes }),
            Cause::ClockEnd { last } => Ok(Cause::ClockEnd { last: *last }),
            Cause::PreparedStands { tag } => Ok(Cause::PreparedStands { tag: *tag }),
            Cause::TooManySessions => Ok(Cause::TooManySessions),
            Cause::Voted { shard, code } => Ok(Cause::Voted {
                shard: *shard,
                code: *code,
            }),
            Cause::Memory => Ok(Cause::Memory),
            Cause::SnapshotTooOld { at, floor } => Ok(Cause::SnapshotTooOld {
                at: *at,
                floor: *floor,
            }),
        }
    }
}
