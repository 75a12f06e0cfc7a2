use bson_core::Name;
use txn_types::{Cause, Docs, Ns, Token};

/// Why a request is refused.
#[derive(Drop)]
pub enum Refusal {
    /// The transaction is known as aborted here.
    Aborted,
    /// No decision of the transaction is known.
    NoDecision,
    /// No transaction of this number was begun here; `commit` where the request was to commit it.
    NoTransaction { number: i64, commit: bool },
    /// A request of the session, from another connection, is unanswered.
    Busy,
    /// The session's transaction has this number, so none can be started by it.
    Started { number: i64 },
    /// The transaction's commit was sent.
    AfterCommit,
    /// The transaction has 1,000,000 statements.
    TooLong,
    /// 1,000,000 sessions stand.
    TooMany,
    /// No serial is left for a transaction to draw.
    Spent,
    /// What is for one document may be at several shards.
    ManyShards,
    /// The answer has more than 16,000,000 bytes of documents.
    ReplyTooLarge,
    /// There is no such command.
    Unknown { name: Name },
    /// An operator isn't known.
    UnknownOperator { name: Name },
    /// A field's name is a path into documents.
    DottedName { name: Name },
    /// A value is of another kind than a field of that name has.
    WrongKind { name: Name },
    /// A field is missing.
    Missing { name: Name },
    /// A field isn't known there.
    UnknownField { name: Name },
    /// A write is to be retried by its number, outside a transaction.
    RetryWrite,
    /// A cluster time is more than a year ahead of the wall: its seconds, and the wall.
    ClusterTimeAhead { secs: u32, wall: u32 },
    /// The client wants no answer.
    Unacknowledged,
    /// The byte there, from the document's first on, is the type of no value that a document holds.
    BadKind { byte: u8, at: u64 },
    /// The bytes are no message, for the reason of that number: 1 Length, 2 OpCode, 3 Flags, 4
    /// Section, 5 NoBody,
    /// 6 TwoBodies, 7 a document, 8 TooLarge.
    BadMessage { number: u8 },
}

/// What a client is told.
#[derive(Drop)]
pub enum Reply {
    /// The server is there.
    Ping,
    /// What the server is, at this wall, to this connection; by the older name where `old_name`.
    Hello {
        old_name: bool,
        wall: u32,
        conn: u32,
    },
    /// An insert, an update or a delete was done: how many documents it met, and of an update how
    /// many it changed. Neither is above 2^63 - 1.
    Wrote {
        n: u64,
        modified: Option<u64>,
        token: Option<Token>,
    },
    /// The documents that a find found, and the namespace that it searched.
    Found {
        ns: Ns,
        docs: Docs,
        token: Option<Token>,
    },
    /// A commit, an abort or an end of sessions was done.
    Ended {
        token: Option<Token>,
    },
    /// This shard refused or ended the transaction of this number.
    Caused {
        shard: u16,
        number: i64,
        cause: Cause,
    },
    /// The session has a larger number.
    TooOld {
        number: i64,
        have: i64,
    },
    /// The request was refused.
    Refused(Refusal),
}
