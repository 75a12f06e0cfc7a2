ghost use Rattle.std.specs.Prelude.{◌≡◌, IfOk};

use std::alloc::{AllocError, Global};
use txn_types::{Op, OpErr, OpReply, Tag, Ts, Writes};

/// A committed transaction: what it read at, when it committed, and what it wrote.
#[derive(Drop)]
pub struct Entry {
    pub tag: Tag,
    pub read_at: Ts,
    pub at: Ts,
    /// One write for each document that it wrote, the last, rising by namespace and id.
    pub writes: Writes,
}

impl Entry {
    pub fn copy(&self, alloc: Global) -> Result<Entry, AllocError>
        ensures { IfOk result (λ e. e ≡ self.now) }
    {
        Ok(Entry {
            tag: self.tag,
            read_at: self.read_at,
            at: self.at,
            writes: self.writes.copy(alloc)?,
        })
    }
}

/// A statement that was answered: its transaction, what it read at, its place in the transaction,
/// counted from 1, what it asked and what it was told.
#[derive(Drop)]
pub struct Answered {
    pub tag: Tag,
    pub read_at: Ts,
    pub k: u32,
    pub op: Op,
    pub outcome: Result<OpReply, OpErr>,
}

fn copy_outcome(
    alloc: Global,
    outcome: &Result<OpReply, OpErr>,
) -> Result<Result<OpReply, OpErr>, AllocError>
    ensures { IfOk result (λ r. r ≡ outcome.now) }
{
    match outcome {
        Ok(reply) => Ok(Ok(reply.copy(alloc)?)),
        Err(refusal) => Ok(Err(refusal.copy(alloc)?)),
    }
}

impl Answered {
    pub fn copy(&self, alloc: Global) -> Result<Answered, AllocError>
        ensures { IfOk result (λ a. a ≡ self.now) }
    {
        Ok(Answered {
            tag: self.tag,
            read_at: self.read_at,
            k: self.k,
            op: self.op.copy(alloc)?,
            outcome: copy_outcome(alloc, &self.outcome)?,
        })
    }
}
