//! Equal replies.
ghost use Rattle.std.specs.Prelude.{◌≡◌, IfOk};

use crate::reply::{Refusal, Reply};
use std::alloc::{AllocError, Global};
use txn_types::copy_docs;

impl Refusal {
    pub fn copy(&self, alloc: Global) -> Result<Refusal, AllocError>
        ensures { IfOk result (λ r. r ≡ self.now) }
    {
        match self {
            Refusal::Aborted => Ok(Refusal::Aborted),
            Refusal::NoDecision => Ok(Refusal::NoDecision),
            Refusal::NoTransaction { number, commit } => Ok(Refusal::NoTransaction {
                number: *number,
                commit: *commit,
            }),
            Refusal::Busy => Ok(Refusal::Busy),
            Refusal::Started { number } => Ok(Refusal::Started { number: *number }),
            Refusal::AfterCommit => Ok(Refusal::AfterCommit),
            Refusal::TooLong => Ok(Refusal::TooLong),
            Refusal::TooMany => Ok(Refusal::TooMany),
            Refusal::Spent => Ok(Refusal::Spent),
            Refusal::ManyShards => Ok(Refusal::ManyShards),
            Refusal::ReplyTooLarge => Ok(Refusal::ReplyTooLarge),
            Refusal::Unknown { name } => Ok(Refusal::Unknown {
                name: name.copy(alloc)?,
            }),
            Refusal::UnknownOperator { name } => Ok(Refusal::UnknownOperator {
                name: name.copy(alloc)?,
            }),
            Refusal::DottedName { name } => Ok(Refusal::DottedName {
                name: name.copy(alloc)?,
            }),
            Refusal::WrongKind { name } => Ok(Refusal::WrongKind {
                name: name.copy(alloc)?,
            }),
            Refusal::Missing { name } => Ok(Refusal::Missing {
                name: name.copy(alloc)?,
            }),
            Refusal::UnknownField { name } => Ok(Refusal::UnknownField {
                name: name.copy(alloc)?,
            }),
            Refusal::RetryWrite => Ok(Refusal::RetryWrite),
            Refusal::ClusterTimeAhead { secs, wall } => Ok(Refusal::ClusterTimeAhead {
                secs: *secs,
                wall: *wall,
            }),
            Refusal::Unacknowledged => Ok(Refusal::Unacknowledged),
            Refusal::BadKind { byte, at } => Ok(Refusal::BadKind {
                byte: *byte,
                at: *at,
            }),
            Refusal::BadMessage { number } => Ok(Refusal::BadMessage { number: *number }),
        }
    }
}

impl Reply {
    pub fn copy(&self, alloc: Global) -> Result<Reply, AllocError>
        ensures { IfOk result (λ r. r ≡ self.now) }
    {
        match self {
            Reply::Ping => Ok(Reply::Ping),
            Reply::Hello {
                old_name,
                wall,
                conn,
            } => Ok(Reply::Hello {
                old_name: *old_name,
                wall: *wall,
                conn: *conn,
            }),
            Reply::Wrote { n, modified, token } => Ok(Reply::Wrote {
                n: *n,
                modified: *modified,
                token: *token,
            }),
            Reply::Found { ns, docs, token } => Ok(Reply::Found {
                ns: ns.copy(alloc)?,
                docs: copy_docs(alloc, docs)?,
                token: *token,
            }),
            Reply::Ended { token } => Ok(Reply::Ended { token: *token }),
            Reply::Caused {
                shard,
                number,
                cause,
            } => Ok(Reply::Caused {
                shard: *shard,
                number: *number,
                cause: cause.copy(alloc)?,
            }),
            Reply::TooOld { number, have } => Ok(Reply::TooOld {
                number: *number,
                have: *have,
            }),
            Reply::Refused(refusal) => Ok(Reply::Refused(refusal.copy(alloc)?)),
        }
    }
}
