//! How a router ends sessions.
ghost use Rattle.std.specs.Prelude.{◌≡◌, length, IfOk};
ghost use Rattle.chunk_map.specs.Map.{Map};
ghost use Rattle.txn_types.specs.BySession.{entry_of};
ghost use Rattle.router_plan.specs.declared.plan.Base.{Base};
ghost use Rattle.router_plan.specs.Plans.{state_of, move_of, FitsIn};
ghost use Rattle.router_rules.specs.Ends.{end_session, end_sessions};

use chunk_map::ChunkMap;
use router_plan::{Base, Change, Plan};
use router_state::{Given, Session, Table, copy_table, entry_of, put_entry};
use router_txn::ends_session;
use std::alloc::{AllocError, Global};
use txn_types::Lsid;

/// The end of one session, in place.
#[tactic(auto, using(crate::proofs::Ending::with_same))]
fn end_session(alloc: Global, lsid: Lsid, sessions: &mut Table) -> Result<Given, AllocError>
    ensures { (base : Base) (chunks : Map)
        → IfOk result (λ g. record { state = state_of base chunks sessions.new; given = g }
        ≡ end_session (state_of base chunks sessions.old) lsid (entry_of lsid sessions.old)) }
{
    let deed = match entry_of(&lsid, sessions.as_slice()) {
        Some(session) => ends_session(alloc, lsid, session)?,
        None => None,
    };
    match deed {
        Some(deed) => {
            put_entry(sessions, lsid, deed.session)?;
            Ok(deed.given)
        }
        None => Ok(Given::nothing(alloc)),
    }
}

/// The ends of sessions, one after the other, in the order of the request.
#[tactic(auto, using(crate::proofs::Both::both_nothing))]
pub fn end_sessions(
    alloc: Global,
    base: &Base,
    chunks: &ChunkMap,
    sessions: &[(Lsid, Session)],
    ids: &[Lsid],
) -> Result<Plan, AllocError>
    ensures moved { IfOk result (λ p. move_of p chunks.now sessions.now
        ≡ end_sessions (state_of base.now chunks.now sessions.now) ids.now) }
    ensures fits { IfOk result (λ p. FitsIn (length sessions.now) p.change) }
{
    let mut all = copy_table(alloc, sessions)?;
    let mut given = Given::nothing(alloc);
    for lsid in ids {
        let more = end_session(alloc, *lsid, &mut all)?;
        given = given.both(more)?;
    }
    Ok(Plan {
        base: base.copy(),
        change: Change::All(all),
        given,
    })
}
