//! What a message of a shard, or the end of a connection, does in each session.
ghost use Rattle.std.specs.Prelude.{◌≡◌, length, unwrap_or, IfOk};
ghost use Rattle.router_state.specs.Deeds.{stays, in_each_session};
ghost use Rattle.router_rules.specs.Safe.{AreSafe, IsSafeDoing};
ghost use Rattle.router_plan.specs.Plans.{state_of, move_of, FitsIn};
ghost use Rattle.router_core.specs.News.{tells, acts};

use chunk_map::ChunkMap;
use router_plan::{Base, Change, Plan};
use router_state::{Deed, Given, Session};
use router_txn::{answered_in, ended_in, gone_from};
use std::alloc::{AllocError, Global};
use txn_types::{Happening, Lsid, Msg};

/// What a message does in a session. None where it changes nothing.
fn tells(
    alloc: Global,
    msg: &Msg,
    lsid: Lsid,
    session: &Session,
) -> Result<Option<Deed>, AllocError>
    requires { IsSafeDoing session.now.doing }
    ensures { IfOk result (λ d. unwrap_or d (stays session.now) ≡ tells msg.now lsid session.now) }
{
    match msg {
        Msg::Answer(answer) => answered_in(alloc, answer, lsid, session),
        Msg::Outcome(outcome) => ended_in(alloc, outcome, lsid, session),
        _ => Ok(None),
    }
}

/// What a happening does in a session. None where it changes nothing.
fn acts(
    alloc: Global,
    what: &Happening,
    lsid: Lsid,
    session: &Session,
) -> Result<Option<Deed>, AllocError>
    requires { IsSafeDoing session.now.doing }
    ensures { IfOk result (λ d. unwrap_or d (stays session.now) ≡ acts what.now lsid session.now) }
{
    match what {
        Happening::Deliver(envelope) => tells(alloc, &envelope.msg, lsid, session),
        Happening::Gone { conn } => gone_from(alloc, *conn, lsid, session),
        Happening::Client { .. } | Happening::Resend | Happening::Moment => Ok(None),
    }
}

/// What a happening does in each session, one after the other.
#[tactic(auto, using(crate::proofs::Each::front_none))]
pub fn in_each(
    alloc: Global,
    base: &Base,
    chunks: &ChunkMap,
    sessions: &[(Lsid, Session)],
    what: &Happening,
) -> Result<Plan, AllocError>
    requires { AreSafe base.now.serial sessions.now }
    ensures moved { IfOk result (λ p. move_of p chunks.now sessions.now
        ≡ in_each_session (acts what.now) (state_of base.now chunks.now sessions.now)) }
    ensures places { IfOk result (λ p. FitsIn (length sessions.now) p.change) }
{
    let mut places = Vec::new(alloc);
    let mut given = Given::nothing(alloc);
    for place in 0..sessions.len() {
        let entry = &sessions[place];
        if let Some(deed) = acts(alloc, what, entry.0, &entry.1)? {
            places.insert(0, (place, (entry.0, deed.session)))?;
            given = given.both(deed.given)?;
        }
    }
    Ok(Plan {
        base: base.copy(),
        change: Change::Places(places),
        given,
    })
}
