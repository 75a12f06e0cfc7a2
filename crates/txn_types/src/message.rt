ghost use Rattle.std.specs.Prelude.{◌≡◌, IfOk};

use crate::cause::Cause;
use crate::decision::{Decision, Told};
use crate::names::Tag;
use crate::node::{Lsid, NodeId};
use crate::operation::{Op, OpReply};
use crate::parts::Parts;
use crate::time::Ts;
use sqlite_items::Items;
use std::alloc::{AllocError, Global};

/// A statement's part for one shard. `boot` is 0 at the transaction's first statement to the shard;
/// `read_at` is 0 where the shard is to choose.
#[derive(Drop)]
pub struct Statement {
    pub tag: Tag,
    pub lsid: Lsid,
    pub number: i64,
    pub k: u32,
    pub read_at: Ts,
    pub boot: u32,
    pub op: Op,
}

impl Statement {
    pub fn copy(&self, alloc: Global) -> Result<Statement, AllocError>
        ensures { IfOk result (λ m. m ≡ self.now) }
    {
        Ok(Statement {
            tag: self.tag,
            lsid: self.lsid,
            number: self.number,
            k: self.k,
            read_at: self.read_at,
            boot: self.boot,
            op: self.op.copy(alloc)?,
        })
    }
}

/// What a shard answers to a statement: the reply and whether it wrote, or why it is refused.
#[derive(Drop)]
pub struct Answer {
    pub tag: Tag,
    pub k: u32,
    pub shard: u16,
    pub boot: u32,
    pub read_at: Ts,
    pub outcome: Result<(OpReply, bool), Cause>,
}

fn copy_outcome(
    alloc: Global,
    outcome: &Result<(OpReply, bool), Cause>,
) -> Result<Result<(OpReply, bool), Cause>, AllocError>
    ensures { IfOk result (λ r. r ≡ outcome.now) }
{
    match outcome {
        Ok((reply, wrote)) => Ok(Ok((reply.copy(alloc)?, *wrote))),
        Err(cause) => Ok(Err(cause.copy(alloc)?)),
    }
}

impl Answer {
    pub fn copy(&self, alloc: Global) -> Result<Answer, AllocError>
        ensures { IfOk result (λ m. m ≡ self.now) }
    {
        Ok(Answer {
            tag: self.tag,
            k: self.k,
            shard: self.shard,
            boot: self.boot,
            read_at: self.read_at,
            outcome: copy_outcome(alloc, &self.outcome)?,
        })
    }
}

/// To the one participant that wrote, or to one that didn't: commit.
#[derive(Clone, Copy)]
pub struct Commit {
    pub tag: Tag,
    pub lsid: Lsid,
    pub number: i64,
    pub boot: u32,
}

impl Commit {
    pub fn copy(&self) -> Commit
        ensures { result ≡ self.now }
    {
        *self
    }
}

/// What a shard tells of a transaction's end.
#[derive(Drop)]
pub struct Outcome {
    pub tag: Tag,
    pub shard: u16,
    pub boot: u32,
    pub told: Told,
}

impl Outcome {
    pub fn copy(&self, alloc: Global) -> Result<Outcome, AllocError>
        ensures { IfOk result (λ m. m ≡ self.now) }
    {
        Ok(Outcome {
            tag: self.tag,
            shard: self.shard,
            boot: self.boot,
            told: self.told.copy(alloc)?,
        })
    }
}

/// End the transaction. No answer is sent.
#[derive(Clone, Copy)]
pub struct Abort {
    pub tag: Tag,
    pub lsid: Lsid,
    pub number: i64,
    pub why: u8,
}

impl Abort {
    pub fn copy(&self) -> Abort
        ensures { result ≡ self.now }
    {
        *self
    }
}

/// To the first participant that wrote: coordinate the commit of these.
#[derive(Drop)]
pub struct CommitTwo {
    pub tag: Tag,
    pub lsid: Lsid,
    pub number: i64,
    pub boot: u32,
    pub parts: Parts,
}

impl CommitTwo {
    pub fn copy(&self, alloc: Global) -> Result<CommitTwo, AllocError>
        ensures { IfOk result (λ m. m ≡ self.now) }
    {
        Ok(CommitTwo {
            tag: self.tag,
            lsid: self.lsid,
            number: self.number,
            boot: self.boot,
            parts: self.parts.copy(alloc)?,
        })
    }
}

/// From the coordinator: prepare to commit.
#[derive(Clone, Copy)]
pub struct Prepare {
    pub tag: Tag,
    pub lsid: Lsid,
    pub number: i64,
    pub boot: u32,
    pub coordinator: u16,
}

impl Prepare {
    pub fn copy(&self) -> Prepare
        ensures { result ≡ self.now }
    {
        *self
    }
}

/// The prepare timestamp, or why the participant can't commit.
#[derive(Drop)]
pub struct Vote {
    pub tag: Tag,
    pub shard: u16,
    pub vote: Result<Ts, Cause>,
}

/// An equal vote.
pub fn copy_vote(alloc: Global, vote: &Result<Ts, Cause>) -> Result<Result<Ts, Cause>, AllocError>
    ensures { IfOk result (λ r. r ≡ vote.now) }
{
    match vote {
        Ok(at) => Ok(Ok(*at)),
        Err(cause) => Ok(Err(cause.copy(alloc)?)),
    }
}

impl Vote {
    pub fn copy(&self, alloc: Global) -> Result<Vote, AllocError>
        ensures { IfOk result (λ m. m ≡ self.now) }
    {
        Ok(Vote {
            tag: self.tag,
            shard: self.shard,
            vote: copy_vote(alloc, &self.vote)?,
        })
    }
}

/// From the coordinator: the decision.
#[derive(Clone, Copy)]
pub struct Decide {
    pub tag: Tag,
    pub lsid: Lsid,
    pub number: i64,
    pub decision: Decision,
}

impl Decide {
    pub fn copy(&self) -> Decide
        ensures { result ≡ self.now }
    {
        *self
    }
}

/// The participant has the decision.
#[derive(Clone, Copy)]
pub struct Acked {
    pub tag: Tag,
    pub shard: u16,
}

impl Acked {
    pub fn copy(&self) -> Acked
        ensures { result ≡ self.now }
    {
        *self
    }
}

/// How did the transaction end?
#[derive(Clone, Copy)]
pub struct Recover {
    pub tag: Tag,
    pub lsid: Lsid,
    pub number: i64,
    pub boot: u32,
}

impl Recover {
    pub fn copy(&self) -> Recover
        ensures { result ≡ self.now }
    {
        *self
    }
}

/// A message of one node to another.
#[derive(Drop)]
pub enum Msg {
    Statement(Statement),
    Answer(Answer),
    Commit(Commit),
    Outcome(Outcome),
    Abort(Abort),
    CommitTwo(CommitTwo),
    Prepare(Prepare),
    Vote(Vote),
    Decide(Decide),
    Acked(Acked),
    Recover(Recover),
    /// Send again what your coordinated transactions wait for.
    Nudge,
}

impl Msg {
    pub fn copy(&self, alloc: Global) -> Result<Msg, AllocError>
        ensures { IfOk result (λ m. m ≡ self.now) }
    {
        match self {
            Msg::Statement(m) => Ok(Msg::Statement(m.copy(alloc)?)),
            Msg::Answer(m) => Ok(Msg::Answer(m.copy(alloc)?)),
            Msg::Commit(m) => Ok(Msg::Commit(*m)),
            Msg::Outcome(m) => Ok(Msg::Outcome(m.copy(alloc)?)),
            Msg::Abort(m) => Ok(Msg::Abort(*m)),
            Msg::CommitTwo(m) => Ok(Msg::CommitTwo(m.copy(alloc)?)),
            Msg::Prepare(m) => Ok(Msg::Prepare(*m)),
            Msg::Vote(m) => Ok(Msg::Vote(m.copy(alloc)?)),
            Msg::Decide(m) => Ok(Msg::Decide(*m)),
            Msg::Acked(m) => Ok(Msg::Acked(*m)),
            Msg::Recover(m) => Ok(Msg::Recover(*m)),
            Msg::Nudge => Ok(Msg::Nudge),
        }
    }
}

/// A message on its way, with the time that its sender knew.
#[derive(Drop)]
pub struct Envelope {
    pub from: NodeId,
    pub to: NodeId,
    pub time: Ts,
    pub msg: Msg,
}

impl Envelope {
    pub fn copy(&self, alloc: Global) -> Result<Envelope, AllocError>
        ensures { IfOk result (λ e. e ≡ self.now) }
    {
        Ok(Envelope {
            from: self.from,
            to: self.to,
            time: self.time,
            msg: self.msg.copy(alloc)?,
        })
    }
}

/// Envelopes, in their order.
pub type Envelopes = Items<Envelope>;

/// Equal envelopes.
pub fn copy_envelopes(alloc: Global, envelopes: &Envelopes) -> Result<Envelopes, AllocError>
    ensures { IfOk result (λ e. e ≡ envelopes.now) }
{
    let mut copy = Vec::new(alloc);
    for envelope in envelopes.as_slice() {
        copy.push(envelope.copy(alloc)?)?;
    }
    Ok(Items::from_vec(copy))
}
