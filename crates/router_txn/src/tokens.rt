//! How a router commits a transaction that it hasn't begun: it asks the shard that the token names
//! how the transaction ended. What is known as committed is known by its tag, since a session may
//! have begun one number at two routers.
ghost use Rattle.std.specs.Prelude.{◌≡◌, [], unwrap_or, IfOk};
ghost use Rattle.std.specs.Option.{option_copied};
ghost use Rattle.router_state.specs.Deeds.{nothing, both, aborting};
ghost use Rattle.router_rules.specs.Ends.{leaves};
ghost use Rattle.router_rules.specs.Tokens.{is_known, same_place, recover_to, sought, asks_anew, asks_for, token_reply, seeks_in, seeks_by, known_by, recovered, on_recovered};

use crate::commits::outcome_reply;
use crate::ends::leaves;
use client_reply::Reply;
use router_state::{Asker, Deed, Doing, Given, Posts, Seeking, Session, Tags, same_tag, told_if};
use sqlite_items::Items;
use std::alloc::{AllocError, Global};
use txn_types::{Lsid, Msg, Outcome, Recover, Tag, Token, Told};

/// Whether the transaction is known as committed.
fn is_known(tag: Tag, known: &[Tag]) -> bool
    ensures { result ≡ is_known tag known.now }
{
    for other in known {
        if same_tag(tag, *other) {
            return true;
        }
    }
    false
}

/// Whether these are of the same token.
fn same_place(a: Seeking, b: Seeking) -> bool
    ensures { result ≡ same_place a b }
{
    same_tag(a.tag, b.tag) && a.shard == b.shard && a.boot == b.boot
}

/// The question how the transaction ended.
pub fn recover_to(lsid: Lsid, number: i64, seeking: Seeking) -> (u16, Msg)
    ensures { result ≡ recover_to lsid number seeking }
{
    (
        seeking.shard,
        Msg::Recover(Recover {
            tag: seeking.tag,
            lsid,
            number,
            boot: seeking.boot,
        }),
    )
}

fn sought(number: i64, seeking: Option<Seeking>, known: Tags, given: Given) -> Deed
    ensures { result ≡ sought number seeking known given }
{
    Deed {
        session: Session {
            number,
            doing: Doing::Sought { seeking, known },
        },
        given,
    }
}

fn asks_anew(
    alloc: Global,
    lsid: Lsid,
    number: i64,
    seeking: Seeking,
    known: Tags,
) -> Result<Deed, AllocError>
    ensures { IfOk result (λ d. d ≡ asks_anew lsid number seeking known) }
{
    let mut posts: Posts = Items::new(alloc);
    posts.push(recover_to(lsid, number, seeking))?;
    Ok(sought(number, Some(seeking), known, Given::sending(alloc, posts)))
}

/// An unanswered question by the same token is listened to.
fn asks_for(
    alloc: Global,
    lsid: Lsid,
    number: i64,
    seeking: Seeking,
    older: Option<Seeking>,
    known: Tags,
) -> Result<Deed, AllocError>
    ensures { IfOk result (λ d. d ≡ asks_for lsid number seeking older known) }
{
    match older {
        None => asks_anew(alloc, lsid, number, seeking, known),
        Some(older) => {
            if same_place(older, seeking) {
                Ok(sought(number, Some(seeking), known, Given::nothing(alloc)))
            } else {
                asks_anew(alloc, lsid, number, seeking, known)
            }
        }
    }
}

fn token_reply(seeking: Seeking) -> Reply
    ensures { result ≡ token_reply seeking }
{
    Reply::Ended {
        token: Some(Token::Placed {
            tag: seeking.tag,
            shard: seeking.shard,
            boot: seeking.boot,
        }),
    }
}

fn seeks_in(
    alloc: Global,
    lsid: Lsid,
    number: i64,
    asker: Asker,
    seeking: Seeking,
    older: Option<Seeking>,
    known: &Tags,
) -> Result<Deed, AllocError>
    ensures { IfOk result (λ d. d ≡ seeks_in lsid number asker seeking older known.now) }
{
    let copy = Items::from_slice(alloc, known.as_slice())?;
    if is_known(seeking.tag, known.as_slice()) {
        let given = Given::telling_one(alloc, asker, token_reply(seeking))?;
        return Ok(sought(number, older, copy, given));
    }
    asks_for(alloc, lsid, number, seeking, older, copy)
}

/// Of a larger number, the session's older transaction is left.
fn seeks_above(
    alloc: Global,
    lsid: Lsid,
    number: i64,
    seeking: Seeking,
    session: &Session,
) -> Result<Deed, AllocError>
    ensures { IfOk result (λ d. d ≡ record {
      session = (asks_anew lsid number seeking []).session;
      given = both (aborting (leaves lsid session.now)) (asks_anew lsid number seeking []).given;
    }) }
{
    let deed = asks_anew(alloc, lsid, number, seeking, Items::new(alloc))?;
    let left = leaves(alloc, lsid, session)?;
    Ok(Deed {
        session: deed.session,
        given: Given::aborting(alloc, left).both(deed.given)?,
    })
}

/// A request to commit by a token that names a shard.
pub fn seeks_by(
    alloc: Global,
    lsid: Lsid,
    number: i64,
    asker: Asker,
    seeking: Seeking,
    session: Option<&Session>,
) -> Result<Deed, AllocError>
    ensures { IfOk result
        (λ d. d ≡ seeks_by lsid number asker seeking (option_copied session.entry)) }
{
    let Some(session) = session else {
        return asks_anew(alloc, lsid, number, seeking, Items::new(alloc));
    };
    if session.number < number {
        return seeks_above(alloc, lsid, number, seeking, session);
    }
    match &session.doing {
        Doing::Sought {
            seeking: older,
            known,
        } => { seeks_in(alloc, lsid, number, asker, seeking, *older, known) }
        Doing::Begun(_t) => Ok(Deed {
            session: session.copy(alloc)?,
            given: Given::nothing(alloc),
        }),
    }
}

/// What is known as committed after an outcome.
fn known_by(alloc: Global, tag: Tag, known: &Tags, told: &Told) -> Result<Tags, AllocError>
    ensures { IfOk result (λ k. k ≡ known_by tag known.now told.now) }
{
    let mut known = Items::from_slice(alloc, known.as_slice())?;
    match told {
        Told::Committed { .. } | Told::Released => known.push(tag)?,
        Told::Aborted { .. } | Told::TooOld { .. } | Told::NoTrace => {}
    }
    Ok(known)
}

/// The shard's outcome is told; only a commit is kept.
fn recovered(
    alloc: Global,
    number: i64,
    seeking: Seeking,
    known: &Tags,
    outcome: &Outcome,
) -> Result<Deed, AllocError>
    ensures { IfOk result (λ d. d ≡ recovered number seeking known.now outcome.now) }
{
    let done = token_reply(seeking);
    let reply = outcome_reply(alloc, outcome.shard, number, done, &outcome.told)?;
    let given = Given::telling(alloc, told_if(alloc, seeking.asker, reply)?);
    let known = known_by(alloc, seeking.tag, known, &outcome.told)?;
    Ok(sought(number, None, known, given))
}

/// An outcome, in a session in which a decision may be looked for. None where it changes nothing.
pub fn on_recovered(
    alloc: Global,
    number: i64,
    seeking: Option<Seeking>,
    known: &Tags,
    outcome: &Outcome,
) -> Result<Option<Deed>, AllocError>
    ensures { IfOk result (λ d. unwrap_or d (sought number seeking known.now nothing)
        ≡ on_recovered number seeking known.now outcome.now) }
{
    let Some(sought) = seeking else {
        return Ok(None);
    };
    if same_tag(sought.tag, outcome.tag) && sought.shard == outcome.shard {
        return Ok(Some(recovered(alloc, number, sought, known, outcome)?));
    }
    Ok(None)
}
