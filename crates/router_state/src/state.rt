ghost use Rattle.std.specs.Prelude.{◌≡◌};
ghost use Rattle.router_state.specs.State.{is_own, commit_sent, is_unfinished, asker_in, asker_of, is_from};

use client_reply::Reply;
use sqlite_items::Items;
use txn_types::{Answer, Lsid, Msg, Op, Tag, Ts};

/// Who waits for a reply: a connection, and the number of its request.
#[derive(Clone, Copy)]
pub struct Asker {
    pub conn: u32,
    pub request: i32,
}

/// Messages, each with the shard that it goes to.
pub type Posts = Items<(u16, Msg)>;

/// The answers of shards, rising by shard.
pub type Answers = Items<(u16, Answer)>;

/// Shards, rising, each with the boot that it told, or 0.
pub type Participants = Items<(u16, u32)>;

/// Tags of transactions.
pub type Tags = Items<Tag>;

/// How far a transaction is.
#[derive(Drop)]
pub enum Phase {
    /// Nothing is asked.
    Idle,
    /// A statement is unanswered, of which these shards have answered.
    Asking {
        asker: Asker,
        op: Op,
        answers: Answers,
    },
    /// Its commit was sent to the participants without a write.
    Checking {
        asker: Option<Asker>,
    },
    /// Its commit was sent to those that wrote.
    Deciding {
        asker: Option<Asker>,
    },
    /// It is known as committed.
    Committed,
    /// It is known as ended without a write.
    Released,
    /// It is known as aborted; and whether its commit was sent.
    Aborted {
        sent: bool,
    },
}

/// A transaction that was begun here. `k` counts its statements. Its participants are the shards
/// that one was sent to.
/// `wrote` has those that wrote, by the statement in which they first wrote and then by number.
/// `reply` is what a command by itself is told once it is committed. `waiting` has the messages
/// that aren't answered, by rising shard.
#[derive(Drop)]
pub struct Transaction {
    pub tag: Tag,
    pub read_at: Ts,
    pub k: u32,
    pub parts: Participants,
    pub wrote: Items<u16>,
    pub phase: Phase,
    pub reply: Option<Reply>,
    pub waiting: Posts,
}

/// A decision that is looked for: the transaction, and the token's shard and boot.
#[derive(Clone, Copy)]
pub struct Seeking {
    pub asker: Option<Asker>,
    pub tag: Tag,
    pub shard: u16,
    pub boot: u32,
}

/// The transactions that a session's number stands for.
#[derive(Drop)]
pub enum Doing {
    /// The one that was begun here.
    Begun(Transaction),
    /// Those that tokens name, one of which may be looked for, and these of which are known as
    /// committed.
    Sought {
        seeking: Option<Seeking>,
        known: Tags,
    },
}

/// A session, with its newest number.
#[derive(Drop)]
pub struct Session {
    pub number: i64,
    pub doing: Doing,
}

/// Whether it is a connection's own session.
pub fn is_own(lsid: Lsid) -> bool
    ensures { result ≡ is_own lsid }
{
    match lsid {
        Lsid::Client(_bytes) => false,
        Lsid::Own { .. } => true,
    }
}

/// Whether the transaction's commit was sent.
pub fn commit_sent(phase: &Phase) -> bool
    ensures { result ≡ commit_sent phase.now }
{
    match phase {
        Phase::Idle | Phase::Asking { .. } => false,
        Phase::Checking { .. } | Phase::Deciding { .. } | Phase::Committed | Phase::Released =>
            true,
        Phase::Aborted { sent } => *sent,
    }
}

/// Whether it isn't known how the transaction ended.
pub fn is_unfinished(phase: &Phase) -> bool
    ensures { result ≡ is_unfinished phase.now }
{
    match phase {
        Phase::Idle | Phase::Asking { .. } | Phase::Checking { .. } | Phase::Deciding { .. } =>
            true,
        Phase::Committed | Phase::Released | Phase::Aborted { .. } => false,
    }
}

/// Who waits for the transaction.
pub fn asker_in(phase: &Phase) -> Option<Asker>
    ensures { result ≡ asker_in phase.now }
{
    match phase {
        Phase::Asking { asker, .. } => Some(*asker),
        Phase::Checking { asker } | Phase::Deciding { asker } => *asker,
        Phase::Idle | Phase::Committed | Phase::Released | Phase::Aborted { .. } => None,
    }
}

/// Who waits in a session.
pub fn asker_of(doing: &Doing) -> Option<Asker>
    ensures { result ≡ asker_of doing.now }
{
    match doing {
        Doing::Begun(t) => asker_in(&t.phase),
        Doing::Sought {
            seeking: Some(seeking),
            ..
        } => seeking.asker,
        Doing::Sought { seeking: None, .. } => None,
    }
}

/// Whether the connection is the one that waits.
pub fn is_from(conn: u32, asker: Option<Asker>) -> bool
    ensures { result ≡ is_from conn asker }
{
    match asker {
        Some(asker) => asker.conn == conn,
        None => false,
    }
}
