//! How a router serves statements.
ghost use Rattle.std.specs.Prelude.{◌≡◌, ◌<◌, ◌<ℤ◌, ◌-◌, ◌^◌, pos, length, None, Some, IfSome, IfOk};
ghost use Rattle.std.specs.Option.{option_copied};
ghost use Rattle.txn_types.specs.BySession.{entry_of};
ghost use Rattle.router_plan.specs.Plain.{next_number};
ghost use Rattle.router_plan.specs.Plans.{state_of, move_of, FitsIn};
ghost use Rattle.router_core.specs.Requests.{left_of, behind_left, begun_at, drawn, begins_at, begins, statement_in, statement};
ghost use Rattle.router_core.specs.Safe.{IsSafe};

use crate::moves::{answers, done_in, read_time, timed};
use chunk_map::ChunkMap;
use client_cmd::Txn;
use router_plan::{Base, Plan, begun_in, plain_refusal, statement_refusal};
use router_state::{Asker, Deed, Given, Phase, Posts, Session, Transaction, entry_of, is_own};
use router_txn::{asks, leaves};
use sqlite_items::Items;
use std::alloc::{AllocError, Global};
use txn_types::{Lsid, Op, Tag, Ts};

/// What is left of a session's older transaction.
fn left_of(alloc: Global, lsid: Lsid, session: Option<&Session>) -> Result<Posts, AllocError>
    ensures { IfOk result (λ p. p ≡ left_of lsid (option_copied session.entry)) }
{
    match session {
        Some(session) => leaves(alloc, lsid, session),
        None => Ok(Items::new(alloc)),
    }
}

/// A deed after what is left of the session's older transaction.
fn behind_left(
    alloc: Global,
    lsid: Lsid,
    session: Option<&Session>,
    deed: Deed,
) -> Result<Deed, AllocError>
    ensures { IfOk result (λ d. d ≡ behind_left lsid (option_copied session.entry) deed) }
{
    let left = left_of(alloc, lsid, session)?;
    let Deed { session, given } = deed;
    let given = Given::aborting(alloc, left).both(given)?;
    Ok(Deed { session, given })
}

/// A transaction before its first statement, under the next serial.
fn begun_at(
    alloc: Global,
    base: &Base,
    chunks: &ChunkMap,
    sessions: &[(Lsid, Session)],
    read_at: Ts,
) -> Transaction
    requires { base.now.serial < 2 ^ 63 - 1 }
    ensures { result ≡ begun_at (state_of base.now chunks.now sessions.now) read_at }
{
    Transaction {
        tag: Tag {
            router: base.number,
            boot: base.boot,
            serial: base.serial + 1,
        },
        read_at,
        k: 0,
        parts: Items::new(alloc),
        wrote: Items::new(alloc),
        phase: Phase::Idle,
        reply: None,
        waiting: Items::new(alloc),
    }
}

/// The router's numbers after the choice of what is read at.
fn drawn(base: &Base, chunks: &ChunkMap, sessions: &[(Lsid, Session)], read_at: Ts) -> Base
    requires { base.now.serial < 2 ^ 63 - 1 }
    ensures { state_of result chunks.now sessions.now
        ≡ drawn (state_of base.now chunks.now sessions.now) read_at }
{
    let mut drawn = timed(base, chunks, sessions, read_at);
    drawn.serial = base.serial + 1;
    drawn
}

/// The first statement of a transaction that reads at this time.
fn begins_at(
    alloc: Global,
    base: &Base,
    chunks: &ChunkMap,
    sessions: &[(Lsid, Session)],
    lsid: Lsid,
    session: Option<&Session>,
    number: i64,
    asker: Asker,
    op: &Op,
    read_at: Ts,
) -> Result<Plan, AllocError>
    requires { base.now.serial < 2 ^ 63 - 1 }
    ensures moved { IfOk result (λ p. move_of p chunks.now sessions.now
        ≡ begins_at (state_of base.now chunks.now sessions.now) lsid (option_copied session.entry)
        number asker op.now read_at) }
    ensures fits { IfOk result (λ p. FitsIn (length sessions.now) p.change) }
{
    let t = begun_at(alloc, base, chunks, sessions, read_at);
    let asked = asks(alloc, chunks, lsid, number, asker, op, &t)?;
    let deed = behind_left(alloc, lsid, session, asked)?;
    let drawn = drawn(base, chunks, sessions, read_at);
    Ok(done_in(&drawn, chunks, sessions, lsid, deed))
}

/// The first statement of a transaction: it draws a serial, and chooses what it reads at.
fn begins(
    alloc: Global,
    base: &Base,
    chunks: &ChunkMap,
    sessions: &[(Lsid, Session)],
    lsid: Lsid,
    session: Option<&Session>,
    number: i64,
    asker: Asker,
    op: &Op,
    at: Option<Ts>,
) -> Result<Plan, AllocError>
    requires { base.now.serial < 2 ^ 63 - 1 }
    ensures moved { IfOk result (λ p. move_of p chunks.now sessions.now ≡ begins (state_of base.now
        chunks.now sessions.now) lsid (option_copied session.entry) number asker op.now at) }
    ensures fits { IfOk result (λ p. FitsIn (length sessions.now) p.change) }
{
    let shards = chunks.shards_of(alloc, op)?;
    let read_at = read_time(base, chunks, sessions, is_own(lsid), shards.as_slice(), at);
    begins_at(
        alloc, base, chunks, sessions, lsid, session, number, asker, op, read_at,
    )
}

/// A statement of the transaction that the request names.
#[tactic(auto, using(router_plan::proofs::Behind::is_short, router_plan::proofs::Behind::has_serial))]
fn statement_in(
    alloc: Global,
    base: &Base,
    chunks: &ChunkMap,
    sessions: &[(Lsid, Session)],
    asker: Asker,
    txn: Txn,
    op: &Op,
    at: Option<Ts>,
) -> Result<Plan, AllocError>
    ensures moved { IfOk result (λ p. move_of p chunks.now sessions.now ≡ statement_in (state_of
        base.now chunks.now sessions.now) asker txn (entry_of txn.lsid sessions.now) op.now at) }
    ensures fits { IfOk result (λ p. FitsIn (length sessions.now) p.change) }
{
    let session = entry_of(&txn.lsid, sessions);
    let refusal = statement_refusal(alloc, base, chunks, sessions, asker.conn, session, txn, op)?;
    if let Some(reply) = refusal {
        return answers(alloc, base, chunks, sessions, asker, reply);
    }
    match begun_in(session, txn.number) {
        Some(t) => {
            let deed = asks(alloc, chunks, txn.lsid, txn.number, asker, op, t)?;
            Ok(done_in(base, chunks, sessions, txn.lsid, deed))
        }
        None => begins(
            alloc, base, chunks, sessions, txn.lsid, session, txn.number, asker, op, at,
        ),
    }
}

/// The connection's next number, from 1.
fn next_number(session: Option<&Session>) -> i64
    requires { IfSome (option_copied session) (λ s. s.number <ℤ pos (2 ^ 63 - 1)) }
    ensures { result ≡ next_number (option_copied session.entry) }
{
    match session {
        Some(session) => session.number + 1,
        None => 1,
    }
}

/// A command by itself: the next transaction of its connection's own session.
#[tactic(auto, using(router_plan::proofs::Behind::plain_has_serial))]
fn plain_statement(
    alloc: Global,
    base: &Base,
    chunks: &ChunkMap,
    sessions: &[(Lsid, Session)],
    asker: Asker,
    op: &Op,
    at: Option<Ts>,
) -> Result<Plan, AllocError>
    requires { IsSafe (state_of base.now chunks.now sessions.now) }
    ensures moved { IfOk result (λ p. move_of p chunks.now sessions.now
        ≡ statement (state_of base.now chunks.now sessions.now) asker None op.now at) }
    ensures fits { IfOk result (λ p. FitsIn (length sessions.now) p.change) }
{
    let lsid = Lsid::Own {
        router: base.number,
        boot: base.boot,
        conn: asker.conn,
    };
    let session = entry_of(&lsid, sessions);
    let refusal = plain_refusal(alloc, base, chunks, sessions, asker.conn, session, op)?;
    if let Some(reply) = refusal {
        return answers(alloc, base, chunks, sessions, asker, reply);
    }
    let number = next_number(session);
    begins(
        alloc, base, chunks, sessions, lsid, session, number, asker, op, at,
    )
}

/// A statement.
pub fn statement(
    alloc: Global,
    base: &Base,
    chunks: &ChunkMap,
    sessions: &[(Lsid, Session)],
    asker: Asker,
    txn: Option<Txn>,
    op: &Op,
    at: Option<Ts>,
) -> Result<Plan, AllocError>
    requires { IsSafe (state_of base.now chunks.now sessions.now) }
    ensures moved { IfOk result (λ p. move_of p chunks.now sessions.now
        ≡ statement (state_of base.now chunks.now sessions.now) asker txn op.now at) }
    ensures fits { IfOk result (λ p. FitsIn (length sessions.now) p.change) }
{
    match txn {
        Some(txn) => statement_in(alloc, base, chunks, sessions, asker, txn, op, at),
        None => plain_statement(alloc, base, chunks, sessions, asker, op, at),
    }
}
