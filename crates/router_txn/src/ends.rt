//! How a router ends transactions, by an Abort to their participants for a reason that it names: 1
//! the client's abort, 2 the end of its session, 4 the end of the connection of its unanswered
//! statement, 5 another participant's refusal, 6 a larger number of its session.
ghost use Rattle.std.specs.Prelude.{◌≡◌, ◌∷◌, [], unwrap_or, None, IfOk};
ghost use Rattle.router_state.specs.State.{without, commit_sent};
ghost use Rattle.client_reply.specs.declared.reply.Reply.TheVariants.{Ended};
ghost use Rattle.router_state.specs.declared.state.Phase.TheVariants.{Aborted};
ghost use Rattle.router_state.specs.Deeds.{both, aborting, telling, told, stays, in_session};
ghost use Rattle.router_rules.specs.Ends.{abort_to, aborts, aborted, ends, leaves, client_aborts, ends_session, gone_asking, unheard, gone_in, gone_from};

use crate::turns::{ends_in, gives, keeps};
use client_reply::Reply;
use router_state::{
    Asker, Deed, Doing, Given, Phase, Posts, Seeking, Session, Transaction, asker_of, commit_sent,
    is_from, is_unfinished, without,
};
use sqlite_items::Items;
use std::alloc::{AllocError, Global};
use txn_types::{Abort, Lsid, Msg, Tag};

fn abort_to(lsid: Lsid, number: i64, why: u8, tag: Tag, part: (u16, u32)) -> (u16, Msg)
    ensures { result ≡ abort_to lsid number why tag part }
{
    (
        part.0,
        Msg::Abort(Abort {
            tag,
            lsid,
            number,
            why,
        }),
    )
}

/// An Abort to each participant, by rising shard.
pub fn aborts(
    alloc: Global,
    lsid: Lsid,
    number: i64,
    why: u8,
    t: &Transaction,
) -> Result<Posts, AllocError>
    ensures { IfOk result (λ p. p ≡ aborts lsid number why t.now) }
{
    let mut posts = Items::new(alloc);
    for part in t.parts.as_slice() {
        posts.push(abort_to(lsid, number, why, t.tag, *part))?;
    }
    Ok(posts)
}

/// An Abort for another participant's refusal, to each participant but that one.
pub fn aborts_but(
    alloc: Global,
    lsid: Lsid,
    number: i64,
    shard: u16,
    t: &Transaction,
) -> Result<Posts, AllocError>
    ensures { IfOk result (λ p. p ≡ without shard (aborts lsid number 5 t.now)) }
{
    let all = aborts(alloc, lsid, number, 5, t)?;
    without(alloc, shard, all.as_slice())
}

/// The phase of a transaction that is aborted now.
fn aborted(t: &Transaction) -> Phase
    ensures { result ≡ Aborted (commit_sent t.now.phase) }
{
    Phase::Aborted {
        sent: commit_sent(&t.phase),
    }
}

/// The transaction is aborted for this reason.
fn ends(
    alloc: Global,
    lsid: Lsid,
    number: i64,
    why: u8,
    t: &Transaction,
) -> Result<Deed, AllocError>
    ensures { IfOk result (λ d. d ≡ ends lsid number why t.now) }
{
    let given = Given::aborting(alloc, aborts(alloc, lsid, number, why, t)?);
    ends_in(alloc, number, aborted(t), t, given)
}

/// What is sent for a session's older transaction when a larger number comes.
pub fn leaves(alloc: Global, lsid: Lsid, session: &Session) -> Result<Posts, AllocError>
    ensures { IfOk result (λ p. p ≡ leaves lsid session.now) }
{
    match &session.doing {
        Doing::Begun(t) => {
            if is_unfinished(&t.phase) {
                aborts(alloc, lsid, session.number, 6, t)
            } else {
                Ok(Items::new(alloc))
            }
        }
        Doing::Sought { .. } => Ok(Items::new(alloc)),
    }
}

/// The transaction is aborted for its client, who is told.
fn aborts_for(
    alloc: Global,
    lsid: Lsid,
    number: i64,
    asker: Asker,
    t: &Transaction,
) -> Result<Deed, AllocError>
    ensures { IfOk result (λ d. d ≡ in_session number (aborted t.now)
        (both (aborting (aborts lsid number 1 t.now)) (telling (told asker (Ended None) ∷ [])))) }
{
    let told = Given::telling_one(alloc, asker, Reply::Ended { token: None })?;
    let posts = aborts(alloc, lsid, number, 1, t)?;
    let given = Given::aborting(alloc, posts).both(told)?;
    ends_in(alloc, number, aborted(t), t, given)
}

/// The client's abort: one whose abort is known is answered alike, and nothing is sent again.
pub fn client_aborts(
    alloc: Global,
    lsid: Lsid,
    number: i64,
    asker: Asker,
    t: &Transaction,
) -> Result<Deed, AllocError>
    ensures { IfOk result (λ d. d ≡ client_aborts lsid number asker t.now) }
{
    match &t.phase {
        Phase::Aborted { .. } => {
            let told = Given::telling_one(alloc, asker, Reply::Ended { token: None })?;
            gives(alloc, number, t, told)
        }
        Phase::Idle
        | Phase::Asking { .. }
        | Phase::Checking { .. }
        | Phase::Deciding { .. }
        | Phase::Committed
        | Phase::Released => aborts_for(alloc, lsid, number, asker, t),
    }
}

/// The end of a session: its transaction is aborted where no request waits and its commit wasn't
/// sent. None where nothing changes.
pub fn ends_session(
    alloc: Global,
    lsid: Lsid,
    session: &Session,
) -> Result<Option<Deed>, AllocError>
    ensures { IfOk result (λ d. unwrap_or d (stays session.now) ≡ ends_session lsid session.now) }
{
    match &session.doing {
        Doing::Begun(t) => {
            if asker_of(&session.doing).is_none() && !commit_sent(&t.phase) {
                Ok(Some(ends(alloc, lsid, session.number, 2, t)?))
            } else {
                Ok(None)
            }
        }
        Doing::Sought { .. } => Ok(None),
    }
}

/// The end of the connection that waits for a transaction, whichever it is. Its unanswered
/// statement's transaction is aborted; an unanswered commit stays, and nobody waits for it.
fn gone_asking(
    alloc: Global,
    lsid: Lsid,
    session: &Session,
    t: &Transaction,
) -> Result<Option<Deed>, AllocError>
    ensures { IfOk result
        (λ d. unwrap_or d (stays session.now) ≡ gone_asking 0 lsid session.now t.now) }
{
    let number = session.number;
    match &t.phase {
        Phase::Asking { .. } => Ok(Some(ends(alloc, lsid, number, 4, t)?)),
        Phase::Checking { .. } => {
            let unheard = Phase::Checking { asker: None };
            Ok(Some(keeps(alloc, number, unheard, t)?))
        }
        Phase::Deciding { .. } => {
            let unheard = Phase::Deciding { asker: None };
            Ok(Some(keeps(alloc, number, unheard, t)?))
        }
        Phase::Idle | Phase::Committed | Phase::Released | Phase::Aborted { .. } => Ok(None),
    }
}

fn unheard(seeking: Option<Seeking>) -> Option<Seeking>
    ensures { result ≡ unheard seeking }
{
    match seeking {
        Some(seeking) => Some(Seeking {
            asker: None,
            tag: seeking.tag,
            shard: seeking.shard,
            boot: seeking.boot,
        }),
        None => None,
    }
}

/// The end of the connection that waits in the session.
fn gone_in(alloc: Global, lsid: Lsid, session: &Session) -> Result<Option<Deed>, AllocError>
    ensures { IfOk result (λ d. unwrap_or d (stays session.now) ≡ gone_in 0 lsid session.now) }
{
    match &session.doing {
        Doing::Begun(t) => gone_asking(alloc, lsid, session, t),
        Doing::Sought { seeking, known } => Ok(Some(Deed {
            session: Session {
                number: session.number,
                doing: Doing::Sought {
                    seeking: unheard(*seeking),
                    known: Items::from_slice(alloc, known.as_slice())?,
                },
            },
            given: Given::nothing(alloc),
        })),
    }
}

/// The end of a connection, in the session in which it waits. None where nothing changes.
pub fn gone_from(
    alloc: Global,
    conn: u32,
    lsid: Lsid,
    session: &Session,
) -> Result<Option<Deed>, AllocError>
    ensures { IfOk result (λ d. unwrap_or d (stays session.now) ≡ gone_from conn lsid session.now) }
{
    if is_from(conn, asker_of(&session.doing)) {
        gone_in(alloc, lsid, session)
    } else {
        Ok(None)
    }
}
