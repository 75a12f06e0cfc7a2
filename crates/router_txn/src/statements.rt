//! How a router serves a statement: its parts are sent to the shards that it is for, all answers
//! are waited for, and what is told is one reply, or one refusal.
ghost use Rattle.std.specs.Prelude.{◌≡◌, ◌<◌, ◌≤◌, ◌&&◌, ◌+◌, [], fold, length, map, filter, filter_map, not, nat_eq, unwrap_or, Some, IfOk};
ghost use Rattle.std.specs.Ordering.{nat_cmp};
ghost use Rattle.txn_types.specs.Order.{same_tag};
ghost use Rattle.txn_semantics.specs.Keyed.{put};
ghost use Rattle.txn_semantics.specs.Meaning.{ns_of};
ghost use Rattle.txn_semantics.specs.Merge.{merge};
ghost use Rattle.router_state.specs.declared.state.Phase.TheVariants.{Asking};
ghost use Rattle.router_state.specs.Deeds.{nothing, in_session};
ghost use Rattle.router_state.specs.State.{is_waited};
ghost use Rattle.router_state.specs.Shards.{with_shard, has_written};
ghost use Rattle.router_rules.specs.Statements.{statement_to, asks, reply_in, writer_in, reply_of, is_cut, refuses, answered_by, replies, concludes, taken_by, taken, on_answer};
ghost use Rattle.router_rules.specs.Safe.{IsSafeTransaction};

use crate::commits::commits;
use crate::ends::aborts_but;
use crate::refusals::{causes_in, winning};
use crate::turns::{ends_in, gives, turned};
use chunk_map::ChunkMap;
use client_reply::{Refusal, Reply};
use query_eval::merge;
use router_state::{
    Answers, Asker, Deed, Given, Phase, Posts, Transaction, boot_of, copy_answers, copy_posts,
    copy_told, has_written, in_session, is_own, is_waited, put_answer, put_participant, same_tag,
    token_of, with_shards, without,
};
use sqlite_items::Items;
use std::alloc::{AllocError, Global};
use txn_types::{Answer, Cause, Lsid, Msg, Ns, Op, OpReply, Statement, Token};

/// The next statement's part for a shard.
fn statement_to(
    alloc: Global,
    chunks: &ChunkMap,
    lsid: Lsid,
    number: i64,
    t: &Transaction,
    op: &Op,
    shard: u16,
) -> Result<(u16, Msg), AllocError>
    requires { t.now.k < 1000000 }
    ensures { IfOk result (λ p. p ≡ statement_to chunks.now lsid number t.now op.now shard) }
{
    let msg = Msg::Statement(Statement {
        tag: t.tag,
        lsid,
        number,
        k: t.k + 1,
        read_at: t.read_at,
        boot: boot_of(t.parts.as_slice(), shard),
        op: chunks.part_at(alloc, op, shard)?,
    });
    Ok((shard, msg))
}

/// The statement's parts for shards.
fn statements_to(
    alloc: Global,
    chunks: &ChunkMap,
    lsid: Lsid,
    number: i64,
    t: &Transaction,
    op: &Op,
    shards: &[u16],
) -> Result<Posts, AllocError>
    requires { t.now.k < 1000000 }
    ensures { IfOk result
        (λ p. p ≡ map (statement_to chunks.now lsid number t.now op.now) shards.now) }
{
    let mut posts = Items::new(alloc);
    for shard in shards {
        posts.push(statement_to(alloc, chunks, lsid, number, t, op, *shard)?)?;
    }
    Ok(posts)
}

/// The transaction while its next statement, sent by these messages to those shards, is unanswered.
fn asked(
    alloc: Global,
    asker: Asker,
    op: &Op,
    posts: &Posts,
    shards: &[u16],
    t: &Transaction,
) -> Result<Transaction, AllocError>
    requires { t.now.k < 1000000 }
    ensures { IfOk result (λ u. u ≡ record t.now {
      k = t.now.k + 1;
      parts = fold with_shard t.now.parts shards.now;
      phase = Asking asker op.now [];
      waiting = posts.now;
    }) }
{
    Ok(Transaction {
        tag: t.tag,
        read_at: t.read_at,
        k: t.k + 1,
        parts: with_shards(alloc, &t.parts, shards)?,
        wrote: Items::from_slice(alloc, t.wrote.as_slice())?,
        phase: Phase::Asking {
            asker,
            op: op.copy(alloc)?,
            answers: Items::new(alloc),
        },
        reply: copy_told(alloc, &t.reply)?,
        waiting: copy_posts(alloc, posts)?,
    })
}

/// Sends the transaction's next statement to each of its shards, by rising number.
pub fn asks(
    alloc: Global,
    chunks: &ChunkMap,
    lsid: Lsid,
    number: i64,
    asker: Asker,
    op: &Op,
    t: &Transaction,
) -> Result<Deed, AllocError>
    requires { t.now.k < 1000000 }
    ensures { IfOk result (λ d. d ≡ asks chunks.now lsid number asker op.now t.now) }
{
    let shards = chunks.shards_of(alloc, op)?;
    let posts = statements_to(alloc, chunks, lsid, number, t, op, shards.as_slice())?;
    let t = asked(alloc, asker, op, &posts, shards.as_slice(), t)?;
    Ok(in_session(number, t, Given::sending(alloc, posts)))
}

/// The replies among the answers.
fn replies_in(alloc: Global, answers: &[(u16, Answer)]) -> Result<Items<OpReply>, AllocError>
    ensures { IfOk result (λ r. r ≡ filter_map reply_in answers.now) }
{
    let mut replies = Items::new(alloc);
    for (_shard, answer) in answers {
        if let Ok((reply, _wrote)) = &answer.outcome {
            replies.push(reply.copy(alloc)?)?;
        }
    }
    Ok(replies)
}

/// The shards that wrote in this statement.
fn writers_in(alloc: Global, answers: &[(u16, Answer)]) -> Result<Items<u16>, AllocError>
    ensures { IfOk result (λ w. w ≡ filter_map writer_in answers.now) }
{
    let mut writers = Items::new(alloc);
    for (shard, answer) in answers {
        if let Ok((_reply, wrote)) = &answer.outcome {
            if *wrote {
                writers.push(*shard)?;
            }
        }
    }
    Ok(writers)
}

/// Those of the shards that haven't written before.
fn new_among(alloc: Global, t: &Transaction, shards: &[u16]) -> Result<Items<u16>, AllocError>
    ensures { IfOk result (λ w. w ≡ filter (λ shard. not (has_written t.now shard)) shards.now) }
{
    let mut new = Items::new(alloc);
    for shard in shards {
        if !has_written(t, *shard) {
            new.push(*shard)?;
        }
    }
    Ok(new)
}

/// The namespace of an operation.
fn namespace(op: &Op) -> &Ns
    ensures { result.now ≡ ns_of op.now }
{
    match op {
        Op::Insert { ns, .. }
        | Op::Find { ns, .. }
        | Op::Update { ns, .. }
        | Op::Delete { ns, .. } => ns,
    }
}

/// What is told of counts, and of documents, which have to fit into one answer.
fn reply_of(
    alloc: Global,
    op: &Op,
    reply: OpReply,
    token: Option<Token>,
) -> Result<Reply, AllocError>
    ensures { IfOk result (λ r. r ≡ reply_of op.now reply token) }
{
    match reply {
        OpReply::Count { n, modified } => match op {
            Op::Update { .. } => Ok(Reply::Wrote {
                n,
                modified: Some(modified),
                token,
            }),
            Op::Insert { .. } | Op::Find { .. } | Op::Delete { .. } => Ok(Reply::Wrote {
                n,
                modified: None,
                token,
            }),
        },
        OpReply::Rows { docs, cut: None } => Ok(Reply::Found {
            ns: namespace(op).copy(alloc)?,
            docs,
            token,
        }),
        OpReply::Rows { cut: Some(_), .. } => Ok(Reply::Refused(Refusal::ReplyTooLarge)),
    }
}

fn is_cut(reply: &OpReply) -> bool
    ensures { result ≡ is_cut reply.now }
{
    match reply {
        OpReply::Count { .. } | OpReply::Rows { cut: None, .. } => false,
        OpReply::Rows { cut: Some(_), .. } => true,
    }
}

/// The transaction is aborted, at each participant but the one whose cause is told.
fn refuses(
    alloc: Global,
    lsid: Lsid,
    number: i64,
    asker: Asker,
    t: &Transaction,
    refusal: (u16, Cause),
) -> Result<Deed, AllocError>
    ensures { IfOk result (λ d. d ≡ refuses lsid number asker t.now refusal) }
{
    let (shard, cause) = refusal;
    let posts = aborts_but(alloc, lsid, number, shard, t)?;
    let reply = Reply::Caused {
        shard,
        number,
        cause,
    };
    let told = Given::telling_one(alloc, asker, reply)?;
    let given = Given::aborting(alloc, posts).both(told)?;
    ends_in(alloc, number, Phase::Aborted { sent: false }, t, given)
}

/// The shards that have written, where these have in a statement.
fn wrote_by(
    alloc: Global,
    answers: &[(u16, Answer)],
    t: &Transaction,
) -> Result<Items<u16>, AllocError>
    ensures { IfOk result (λ w. w ≡ (answered_by answers.now t.now).wrote) }
{
    let writers = writers_in(alloc, answers)?;
    let new = new_among(alloc, t, writers.as_slice())?;
    let mut wrote = Items::from_slice(alloc, t.wrote.as_slice())?;
    wrote.append(new)?;
    Ok(wrote)
}

/// Nothing more is asked of the statement, and these have written.
fn answered_by(
    alloc: Global,
    answers: &[(u16, Answer)],
    t: &Transaction,
) -> Result<Transaction, AllocError>
    ensures { IfOk result (λ u. u ≡ answered_by answers.now t.now) }
{
    let wrote = wrote_by(alloc, answers, t)?;
    let mut t = turned(alloc, Phase::Idle, Items::new(alloc), t)?;
    t.wrote = wrote;
    Ok(t)
}

/// The transaction with this reply, which is told once it is committed.
fn with_reply(alloc: Global, reply: Reply, t: &Transaction) -> Result<Transaction, AllocError>
    ensures { IfOk result (λ u. u ≡ record t.now { reply = Some reply }) }
{
    let mut t = t.copy(alloc)?;
    t.reply = Some(reply);
    Ok(t)
}

/// A command by itself commits before it is told; one whose answer doesn't fit is left without a
/// commit.
fn replies(
    alloc: Global,
    lsid: Lsid,
    number: i64,
    asker: Asker,
    op: &Op,
    t: &Transaction,
    reply: OpReply,
) -> Result<Deed, AllocError>
    requires { length t.now.wrote ≤ 65535 }
    ensures { IfOk result (λ d. d ≡ replies lsid number asker op.now t.now reply) }
{
    if is_own(lsid) && !is_cut(&reply) {
        let told = reply_of(alloc, op, reply, None)?;
        let t = with_reply(alloc, told, t)?;
        return commits(alloc, lsid, number, Some(asker), &t);
    }
    let told = reply_of(alloc, op, reply, Some(token_of(t)))?;
    let given = Given::telling_one(alloc, asker, told)?;
    gives(alloc, number, t, given)
}

/// The reply over what all shards replied.
fn merged(alloc: Global, op: &Op, answers: &[(u16, Answer)]) -> Result<OpReply, AllocError>
    ensures { IfOk result (λ r. r ≡ merge op.now (filter_map reply_in answers.now)) }
{
    let replies = replies_in(alloc, answers)?;
    match merge(alloc, op, replies.as_slice()) {
        Ok(reply) => Ok(reply),
        Err(_error) => Err(AllocError),
    }
}

/// All shards have answered.
fn concludes(
    alloc: Global,
    lsid: Lsid,
    number: i64,
    asker: Asker,
    op: &Op,
    answers: &[(u16, Answer)],
    t: &Transaction,
) -> Result<Deed, AllocError>
    requires { length (answered_by answers.now t.now).wrote ≤ 65535 }
    ensures { IfOk result (λ d. d ≡ concludes lsid number asker op.now answers.now t.now) }
{
    let refusals = causes_in(alloc, answers)?;
    match winning(alloc, refusals.as_slice())? {
        Some(refusal) => refuses(alloc, lsid, number, asker, t, refusal),
        None => {
            let reply = merged(alloc, op, answers)?;
            let t = answered_by(alloc, answers, t)?;
            replies(alloc, lsid, number, asker, op, &t, reply)
        }
    }
}

/// The transaction with what the shard tells: its boot, and these answers, with its own among them;
/// the others are waited for.
fn with_answer(
    alloc: Global,
    answer: &Answer,
    asker: Asker,
    op: &Op,
    answers: &Answers,
    left: &Posts,
    t: &Transaction,
) -> Result<Transaction, AllocError>
    ensures { IfOk result (λ u. u ≡ record t.now {
      parts = put nat_cmp answer.now.shard answer.now.boot t.now.parts;
      phase = Asking asker op.now answers.now;
      waiting = left.now;
    }) }
{
    let parts = put_participant(alloc, t.parts.as_slice(), answer.shard, answer.boot)?;
    let waiting = copy_posts(alloc, left)?;
    let phase = Phase::Asking {
        asker,
        op: op.copy(alloc)?,
        answers: copy_answers(alloc, answers)?,
    };
    let mut t = turned(alloc, phase, waiting, t)?;
    t.parts = parts;
    Ok(t)
}

/// The transaction has these answers, and waits for what is left: the last answer concludes the
/// statement.
fn taken_by(
    alloc: Global,
    lsid: Lsid,
    number: i64,
    asker: Asker,
    op: &Op,
    answers: &Answers,
    left: &Posts,
    t: &Transaction,
) -> Result<Deed, AllocError>
    requires { length (answered_by answers.now t.now).wrote ≤ 65535 }
    ensures { IfOk result (λ d. d ≡ taken_by lsid number asker op.now answers.now t.now left.now) }
{
    match left.as_slice() {
        [] => concludes(alloc, lsid, number, asker, op, answers.as_slice(), t),
        [_first, ..] => gives(alloc, number, t, Given::nothing(alloc)),
    }
}

/// The answer is the first to the unanswered statement of a shard that this was sent to.
fn taken(
    alloc: Global,
    lsid: Lsid,
    number: i64,
    answer: &Answer,
    asker: Asker,
    op: &Op,
    answers: &[(u16, Answer)],
    t: &Transaction,
) -> Result<Deed, AllocError>
    requires { length (answered_by (put nat_cmp answer.now.shard answer.now answers.now)
        t.now).wrote ≤ 65535 }
    ensures { IfOk result (λ d. d ≡ taken lsid number answer.now asker op.now answers.now t.now) }
{
    let answers = put_answer(alloc, answers, answer)?;
    let left = without(alloc, answer.shard, t.waiting.as_slice())?;
    match with_answer(alloc, answer, asker, op, &answers, &left, t) {
        Ok(then) => taken_by(alloc, lsid, number, asker, op, &answers, &left, &then),
        Err(AllocError) => Err(AllocError),
    }
}

/// Whether the answer is to the transaction's last statement, from a shard that is waited for.
fn is_asked(answer: &Answer, t: &Transaction) -> bool
    ensures { result ≡ (same_tag t.now.tag answer.now.tag && nat_eq answer.now.k t.now.k
        && is_waited answer.now.shard t.now.waiting) }
{
    same_tag(t.tag, answer.tag) && answer.k == t.k && is_waited(answer.shard, t.waiting.as_slice())
}

/// A shard's answer to a statement, in the session of a transaction that was begun here. None where
/// it changes nothing.
#[tactic(auto, using(router_rules::proofs::Writing::taken_room, router_rules::proofs::Writing::last_of))]
pub fn on_answer(
    alloc: Global,
    lsid: Lsid,
    number: i64,
    answer: &Answer,
    t: &Transaction,
) -> Result<Option<Deed>, AllocError>
    requires { IsSafeTransaction t.now }
    ensures { IfOk result (λ d. unwrap_or d (in_session number t.now nothing)
        ≡ on_answer lsid number answer.now t.now) }
{
    if !is_asked(answer, t) {
        return Ok(None);
    }
    match &t.phase {
        Phase::Asking { asker, op, answers } => {
            let answers = answers.as_slice();
            Ok(Some(taken(alloc, lsid, number, answer, *asker, op, answers, t)?))
        }
        Phase::Idle
        | Phase::Checking { .. }
        | Phase::Deciding { .. }
        | Phase::Committed
        | Phase::Released
        | Phase::Aborted { .. } => Ok(None),
    }
}
