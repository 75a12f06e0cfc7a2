ghost use Rattle.std.specs.Prelude.{◌≡◌, IfOk};
ghost use Rattle.participant.specs.declared.said.PartErr.TheVariants.{Memory};

use journal_rec::Rec;
use std::alloc::{AllocError, AllocFailed, Global};
use txn_types::{Cause, OpErr, OpReply, Tag, Told, Ts, Writes};
use version_store::Held;

/// What a live transaction has at a shard.
#[derive(Drop)]
pub struct Open {
    pub tag: Tag,
    /// Its read timestamp.
    pub read_at: Ts,
    /// The wall when it became live here.
    pub begun: u32,
    /// The place of its newest statement here, and what that was answered: the reply, and whether
    /// it wrote.
    pub k: u32,
    pub reply: OpReply,
    pub wrote: bool,
    /// Its last write to each document, rising by namespace and id.
    pub writes: Writes,
}

impl Open {
    pub fn copy(&self, alloc: Global) -> Result<Open, AllocError>
        ensures { IfOk result (λ o. o ≡ self.now) }
    {
        Ok(Open {
            tag: self.tag,
            read_at: self.read_at,
            begun: self.begun,
            k: self.k,
            reply: self.reply.copy(alloc)?,
            wrote: self.wrote,
            writes: self.writes.copy(alloc)?,
        })
    }
}

/// What is said to a statement.
#[derive(Drop)]
pub enum Said {
    Did {
        read_at: Ts,
        reply: OpReply,
        wrote: bool,
    },
    /// A key that it touches is held; it may come again.
    Blocked(Held),
    Refused {
        cause: Cause,
        read_at: Ts,
    },
    /// It came too late to be answered.
    Late,
}

/// What comes of an operation over what a transaction sees.
#[derive(Drop)]
pub enum Meant {
    /// A key that it touches is held.
    HeldBy(Held),
    /// It is refused.
    Refused(OpErr),
    /// It is done, with this reply and these writes.
    Does(OpReply, Writes),
}

/// What is told of a commit, nothing where it came too late, and the record that makes it durable.
#[derive(Drop)]
pub struct Done {
    pub told: Option<Told>,
    pub rec: Option<Rec>,
}

/// The vote, none where it came too late to be asked, and the record that makes it durable.
#[derive(Drop)]
pub struct Voted {
    pub vote: Option<Result<Ts, Cause>>,
    pub rec: Option<Rec>,
}

/// The one refusal of a participant's calls.
#[derive(Clone, Copy)]
pub enum PartErr {
    /// There was no memory; nothing has changed.
    Memory,
}

impl From<AllocError> for PartErr {
    ghost from_gives = { λ _ e. e ≡ Memory };

    fn from(_e: AllocError) -> PartErr {
        PartErr::Memory
    }
}

impl<T: Drop> From<AllocFailed<T>> for PartErr {
    ghost from_gives = { λ _ e. e ≡ Memory };

    fn from(_e: AllocFailed<T>) -> PartErr {
        PartErr::Memory
    }
}
