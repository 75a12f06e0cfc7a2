//! Why a router refuses a request, in the order in which this is tested.
ghost use Rattle.std.specs.Prelude.{◌≡◌, length, IfOk};
ghost use Rattle.std.specs.Option.{option_copied};
ghost use Rattle.txn_types.specs.BySession.{BySession};
ghost use Rattle.chunk_map.specs.Map.{Map};
ghost use Rattle.router_state.specs.State.{RouterState};
ghost use Rattle.router_state.specs.declared.state.Session.{Session};
ghost use Rattle.router_plan.specs.declared.plan.Base.{Base};
ghost use Rattle.router_plan.specs.Refusals.{where_so, begun_in, too_old, busy, started, no_transaction, names_shard, no_token_shard, after_commit, too_long, too_many_of, spent_at, many_shards, is_elsewhere, is_aborted, known_aborted, statement_refusal, commit_refusal, abort_refusal};
ghost use Rattle.router_plan.specs.Plain.{plain_refusal};
ghost use Rattle.router_plan.specs.Plans.{state_of};

use crate::plan::Base;
use chunk_map::ChunkMap;
use client_cmd::Txn;
use client_reply::{Refusal, Reply};
use router_state::{Asker, Doing, Phase, Session, Transaction, asker_of, commit_sent};
use std::alloc::{AllocError, Global};
use txn_types::{Lsid, Op, Token};

/// How many statements a transaction may have.
const MOST_STATEMENTS: u32 = 1_000_000;

/// How many sessions may stand.
const MOST_SESSIONS: usize = 1_000_000;

/// The last serial that is drawn.
pub const LAST_SERIAL: u64 = 0x7fff_ffff_ffff_ffff;

fn where_so(holds: bool, why: Refusal) -> Option<Reply>
    ensures { result ≡ where_so holds why }
{
    if holds {
        Some(Reply::Refused(why))
    } else {
        None
    }
}

/// The transaction of this number, where it was begun here.
pub fn begun_in<'a>(session: Option<&'a Session>, number: i64) -> Option<&'a Transaction>
    ensures { option_copied result ≡ begun_in (option_copied session.entry) number }
{
    let Some(session) = session else {
        return None;
    };
    if session.number != number {
        return None;
    }
    match &session.doing {
        Doing::Begun(t) => Some(t),
        Doing::Sought { .. } => None,
    }
}

fn too_old(session: Option<&Session>, number: i64) -> Option<Reply>
    ensures { result ≡ too_old (option_copied session.entry) number }
{
    let Some(session) = session else {
        return None;
    };
    if number < session.number {
        Some(Reply::TooOld {
            number,
            have: session.number,
        })
    } else {
        None
    }
}

/// Whether a request from another connection is unanswered.
fn is_elsewhere(conn: u32, asker: Option<Asker>) -> bool
    ensures { result ≡ is_elsewhere conn asker }
{
    match asker {
        Some(asker) => asker.conn != conn,
        None => false,
    }
}

fn busy(session: Option<&Session>, conn: u32) -> Option<Reply>
    ensures { result ≡ busy (option_copied session.entry) conn }
{
    match session {
        Some(session) => where_so(is_elsewhere(conn, asker_of(&session.doing)), Refusal::Busy),
        None => None,
    }
}

fn started(session: Option<&Session>, txn: Txn) -> Option<Reply>
    ensures { result ≡ started (option_copied session.entry) txn }
{
    let number = txn.number;
    match session {
        Some(session) => where_so(
            txn.start && session.number == number,
            Refusal::Started { number },
        ),
        None => None,
    }
}

fn no_transaction(
    session: Option<&Session>,
    number: i64,
    serves: bool,
    commit: bool,
) -> Option<Reply>
    ensures { result ≡ no_transaction (option_copied session.entry) number serves commit }
{
    let is_there = begun_in(session, number).is_some();
    where_so(
        !is_there && !serves,
        Refusal::NoTransaction { number, commit },
    )
}

/// Whether the token names a shard that is there.
fn names_shard(shards: u16, token: Option<Token>) -> bool
    ensures { result ≡ names_shard shards token }
{
    match token {
        Some(Token::Placed { shard, .. }) => shard < shards,
        Some(Token::Early { .. }) | Some(Token::Other) | None => false,
    }
}

fn no_token_shard(
    session: Option<&Session>,
    number: i64,
    shards: u16,
    token: Option<Token>,
) -> Option<Reply>
    ensures { result ≡ no_token_shard (option_copied session.entry) number shards token }
{
    let is_there = begun_in(session, number).is_some();
    where_so(
        !is_there && !names_shard(shards, token),
        Refusal::NoDecision,
    )
}

fn after_commit(session: Option<&Session>, number: i64) -> Option<Reply>
    ensures { result ≡ after_commit (option_copied session.entry) number }
{
    match begun_in(session, number) {
        Some(t) => where_so(commit_sent(&t.phase), Refusal::AfterCommit),
        None => None,
    }
}

fn too_long(session: Option<&Session>, number: i64) -> Option<Reply>
    ensures { result ≡ too_long (option_copied session.entry) number }
{
    match begun_in(session, number) {
        Some(t) => where_so(MOST_STATEMENTS <= t.k, Refusal::TooLong),
        None => None,
    }
}

fn too_many(sessions: &[(Lsid, Session)], session: Option<&Session>) -> Option<Reply>
    ensures { result ≡ too_many_of (length sessions.now) (option_copied session.entry) }
{
    where_so(
        session.is_none() && MOST_SESSIONS <= sessions.len(),
        Refusal::TooMany,
    )
}

fn spent(base: &Base, session: Option<&Session>, number: i64) -> Option<Reply>
    ensures { result ≡ spent_at base.now.serial (option_copied session.entry) number }
{
    let is_there = begun_in(session, number).is_some();
    where_so(!is_there && LAST_SERIAL <= base.serial, Refusal::Spent)
}

fn many_shards(alloc: Global, chunks: &ChunkMap, op: &Op) -> Result<Option<Reply>, AllocError>
    ensures { IfOk result (λ r. r ≡ many_shards chunks.now op.now) }
{
    Ok(where_so(chunks.has_spread(alloc, op)?, Refusal::ManyShards))
}

fn is_aborted(phase: &Phase) -> bool
    ensures { result ≡ is_aborted phase.now }
{
    match phase {
        Phase::Aborted { .. } => true,
        _ => false,
    }
}

fn known_aborted(session: Option<&Session>, number: i64) -> Option<Reply>
    ensures { result ≡ known_aborted (option_copied session.entry) number }
{
    match begun_in(session, number) {
        Some(t) => where_so(is_aborted(&t.phase), Refusal::Aborted),
        None => None,
    }
}

/// Why a statement is refused; a command by itself is the start of its connection's next
/// transaction.
#[tactic(auto, unfolding(crate::specs::Refusals::statement_refusal))]
pub fn statement_refusal(
    alloc: Global,
    base: &Base,
    chunks: &ChunkMap,
    sessions: &[(Lsid, Session)],
    conn: u32,
    session: Option<&Session>,
    txn: Txn,
    op: &Op,
) -> Result<Option<Reply>, AllocError>
    ensures { IfOk result (λ r. r ≡ statement_refusal (state_of base.now chunks.now sessions.now)
        conn (option_copied session.entry) txn op.now) }
{
    if let Some(reply) = too_old(session, txn.number) {
        return Ok(Some(reply));
    }
    if let Some(reply) = busy(session, conn) {
        return Ok(Some(reply));
    }
    if let Some(reply) = started(session, txn) {
        return Ok(Some(reply));
    }
    if let Some(reply) = no_transaction(session, txn.number, txn.start, false) {
        return Ok(Some(reply));
    }
    if let Some(reply) = after_commit(session, txn.number) {
        return Ok(Some(reply));
    }
    if let Some(reply) = too_long(session, txn.number) {
        return Ok(Some(reply));
    }
    if let Some(reply) = too_many(sessions, session) {
        return Ok(Some(reply));
    }
    if let Some(reply) = spent(base, session, txn.number) {
        return Ok(Some(reply));
    }
    if let Some(reply) = many_shards(alloc, chunks, op)? {
        return Ok(Some(reply));
    }
    Ok(known_aborted(session, txn.number))
}

/// Why a request to commit is refused.
#[tactic(auto, unfolding(crate::specs::Refusals::commit_refusal))]
pub fn commit_refusal(
    chunks: &ChunkMap,
    sessions: &[(Lsid, Session)],
    conn: u32,
    session: Option<&Session>,
    txn: Txn,
    token: Option<Token>,
) -> Option<Reply>
    ensures { (base : Base) → result ≡ commit_refusal (state_of base chunks.now sessions.now) conn
        (option_copied session.entry) txn token }
{
    if let Some(reply) = too_old(session, txn.number) {
        return Some(reply);
    }
    if let Some(reply) = busy(session, conn) {
        return Some(reply);
    }
    if let Some(reply) = started(session, txn) {
        return Some(reply);
    }
    if let Some(reply) = no_transaction(session, txn.number, token.is_some(), true) {
        return Some(reply);
    }
    if let Some(reply) = no_token_shard(session, txn.number, chunks.shards(), token) {
        return Some(reply);
    }
    if let Some(reply) = too_many(sessions, session) {
        return Some(reply);
    }
    known_aborted(session, txn.number)
}

/// Why a request to abort is refused.
#[tactic(auto, unfolding(crate::specs::Refusals::abort_refusal))]
pub fn abort_refusal(conn: u32, session: Option<&Session>, txn: Txn) -> Option<Reply>
    ensures { (s : RouterState) → result ≡ abort_refusal s conn (option_copied session.entry) txn }
{
    if let Some(reply) = too_old(session, txn.number) {
        return Some(reply);
    }
    if let Some(reply) = busy(session, conn) {
        return Some(reply);
    }
    if let Some(reply) = started(session, txn) {
        return Some(reply);
    }
    if let Some(reply) = no_transaction(session, txn.number, false, false) {
        return Some(reply);
    }
    after_commit(session, txn.number)
}

/// Why a command by itself is refused. It begins the next transaction of its connection's own
/// session, so that only these can come.
pub fn plain_refusal(
    alloc: Global,
    base: &Base,
    chunks: &ChunkMap,
    sessions: &[(Lsid, Session)],
    conn: u32,
    session: Option<&Session>,
    op: &Op,
) -> Result<Option<Reply>, AllocError>
    ensures { IfOk result (λ r. r ≡ plain_refusal (state_of base.now chunks.now sessions.now) conn
        (option_copied session.entry) op.now) }
{
    if let Some(reply) = busy(session, conn) {
        return Ok(Some(reply));
    }
    if let Some(reply) = too_many(sessions, session) {
        return Ok(Some(reply));
    }
    if LAST_SERIAL <= base.serial {
        return Ok(Some(Reply::Refused(Refusal::Spent)));
    }
    many_shards(alloc, chunks, op)
}
