//! How a router serves requests to commit and to abort.
ghost use Rattle.std.specs.Prelude.{◌≡◌, length, Some, IfOk};
ghost use Rattle.txn_types.specs.BySession.{entry_of};
ghost use Rattle.router_plan.specs.Plans.{state_of, move_of, FitsIn};
ghost use Rattle.router_core.specs.Requests.{commit_sought, commit_in, commit, abort};
ghost use Rattle.router_core.specs.Safe.{IsSafe};

use crate::moves::{answers, done_in, still};
use chunk_map::ChunkMap;
use client_cmd::Txn;
use router_plan::{Base, Plan, abort_refusal, begun_in, commit_refusal};
use router_state::{Asker, Seeking, Session, entry_of};
use router_txn::{client_aborts, commit_asked, seeks_by};
use std::alloc::{AllocError, Global};
use txn_types::{Lsid, Token};

/// A commit of a transaction that wasn't begun here, by its token.
fn commit_sought(
    alloc: Global,
    base: &Base,
    chunks: &ChunkMap,
    sessions: &[(Lsid, Session)],
    asker: Asker,
    txn: Txn,
    token: Option<Token>,
) -> Result<Plan, AllocError>
    ensures moved { IfOk result (λ p. move_of p chunks.now sessions.now ≡ commit_sought (state_of
        base.now chunks.now sessions.now) asker txn (entry_of txn.lsid sessions.now) token) }
    ensures fits { IfOk result (λ p. FitsIn (length sessions.now) p.change) }
{
    let Some(Token::Placed { tag, shard, boot }) = token else {
        return Ok(still(alloc, base, chunks, sessions));
    };
    let seeking = Seeking {
        asker: Some(asker),
        tag,
        shard,
        boot,
    };
    let session = entry_of(&txn.lsid, sessions);
    let deed = seeks_by(alloc, txn.lsid, txn.number, asker, seeking, session)?;
    Ok(done_in(base, chunks, sessions, txn.lsid, deed))
}

/// A commit of the transaction that the request names: one that was begun here by what the router
/// knows, any other by its token.
fn commit_in(
    alloc: Global,
    base: &Base,
    chunks: &ChunkMap,
    sessions: &[(Lsid, Session)],
    asker: Asker,
    txn: Txn,
    token: Option<Token>,
) -> Result<Plan, AllocError>
    requires { IsSafe (state_of base.now chunks.now sessions.now) }
    ensures moved { IfOk result (λ p. move_of p chunks.now sessions.now ≡ commit_in (state_of
        base.now chunks.now sessions.now) asker txn (entry_of txn.lsid sessions.now) token) }
    ensures fits { IfOk result (λ p. FitsIn (length sessions.now) p.change) }
{
    let session = entry_of(&txn.lsid, sessions);
    let refusal = commit_refusal(chunks, sessions, asker.conn, session, txn, token);
    if let Some(reply) = refusal {
        return answers(alloc, base, chunks, sessions, asker, reply);
    }
    match begun_in(session, txn.number) {
        Some(t) => {
            let deed = commit_asked(alloc, txn.lsid, txn.number, asker, t)?;
            Ok(done_in(base, chunks, sessions, txn.lsid, deed))
        }
        None => commit_sought(alloc, base, chunks, sessions, asker, txn, token),
    }
}

/// A request to commit.
pub fn commit(
    alloc: Global,
    base: &Base,
    chunks: &ChunkMap,
    sessions: &[(Lsid, Session)],
    asker: Asker,
    txn: Option<Txn>,
    token: Option<Token>,
) -> Result<Plan, AllocError>
    requires { IsSafe (state_of base.now chunks.now sessions.now) }
    ensures moved { IfOk result (λ p. move_of p chunks.now sessions.now
        ≡ commit (state_of base.now chunks.now sessions.now) asker txn token) }
    ensures fits { IfOk result (λ p. FitsIn (length sessions.now) p.change) }
{
    match txn {
        Some(txn) => commit_in(alloc, base, chunks, sessions, asker, txn, token),
        None => Ok(still(alloc, base, chunks, sessions)),
    }
}

/// An abort of the transaction that the request names.
fn abort_in(
    alloc: Global,
    base: &Base,
    chunks: &ChunkMap,
    sessions: &[(Lsid, Session)],
    asker: Asker,
    txn: Txn,
) -> Result<Plan, AllocError>
    ensures moved { IfOk result (λ p. move_of p chunks.now sessions.now
        ≡ abort (state_of base.now chunks.now sessions.now) asker (Some txn)) }
    ensures fits { IfOk result (λ p. FitsIn (length sessions.now) p.change) }
{
    let session = entry_of(&txn.lsid, sessions);
    if let Some(reply) = abort_refusal(asker.conn, session, txn) {
        return answers(alloc, base, chunks, sessions, asker, reply);
    }
    match begun_in(session, txn.number) {
        Some(t) => {
            let deed = client_aborts(alloc, txn.lsid, txn.number, asker, t)?;
            Ok(done_in(base, chunks, sessions, txn.lsid, deed))
        }
        None => Ok(still(alloc, base, chunks, sessions)),
    }
}

/// A request to abort.
pub fn abort(
    alloc: Global,
    base: &Base,
    chunks: &ChunkMap,
    sessions: &[(Lsid, Session)],
    asker: Asker,
    txn: Option<Txn>,
) -> Result<Plan, AllocError>
    ensures moved { IfOk result (λ p. move_of p chunks.now sessions.now
        ≡ abort (state_of base.now chunks.now sessions.now) asker txn) }
    ensures fits { IfOk result (λ p. FitsIn (length sessions.now) p.change) }
{
    match txn {
        Some(txn) => abort_in(alloc, base, chunks, sessions, asker, txn),
        None => Ok(still(alloc, base, chunks, sessions)),
    }
}
